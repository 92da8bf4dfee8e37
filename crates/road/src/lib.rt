// The road: five numbers, its ceilings, and the judgement that every call with a road makes of it first.
#![tactic(auto)]

mod accepted;
mod ceilings;
mod judgement;

pub use accepted::AcceptedRoad;
pub use ceilings::{cells_ceiling, count_ceiling, divisor_ceiling, horizon_ceiling, jam_ceiling};

// A uniform road (document 01, "The road and its units"), in the order of its paragraph.
#[derive(Clone, Copy)]
pub struct Road {
    // D: speeds are counted in cells per `divisor` steps
    pub divisor: u32,
    // p: free speed is free/divisor cells per step
    pub free: u32,
    // q: backward wave speed is wave/divisor cells per step
    pub wave: u32,
    // J: units in a full cell
    pub jam: u32,
    // C: units in a cell at the greatest flow
    pub critical: u32,
}

// One face of the triangular Godunov scheme: what its cells send and receive, units moved, letter; and the units without a
// division.
#![tactic(auto)]

mod face;
mod factor;
mod flow;
mod letter;
mod pace;

pub use face::{receiving, sending, units};
pub use factor::Factor;
pub use letter::Letter;
pub use pace::Pace;

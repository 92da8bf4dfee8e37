// The units of a face by multiplication and shift: no step divides, so that the loop above can be vectorized.
ghost use Rattle.flux.specs.Pace.{IsPace};

use super::Factor;
use road::AcceptedRoad;

// What every face of a road needs, made once a call.
#[derive(Clone, Copy)]
pub struct Pace {
    pub road: AcceptedRoad,
    pub send: Factor,
    pub receive: Factor,
    pub capacity: u32,
    pub ghost made: { IsPace road.road send receive capacity },
}

// One face as document 01 writes it: what its cells send and receive, the units moved.
ghost use Rattle.std.specs.Prelude.{◌≡◌, ◌<◌};
ghost use Rattle.flux.specs.Face.{sending, receiving, units};

use road::{AcceptedRoad, Road};

// Internal: what a cell of density a can send, times the divisor.
#[tactic(auto, unfolding(crate::specs::Face::sending))]
pub fn sending(road: AcceptedRoad, a: u32) -> u32
    ensures { result ≡ sending road.road a }
{
    road.road.free * a.min(road.road.critical)
}

// Internal: what a cell of density b can receive, times the divisor.
#[tactic(auto, unfolding(crate::specs::Face::receiving))]
pub fn receiving(road: AcceptedRoad, b: u32) -> u32
    ensures { result ≡ receiving road.road b }
{
    road.road.wave * road.road.jam.saturating_sub(b.max(road.road.critical))
}

// Internal: the units of a numerator, by division: to the nearest, an exact half up. The pace of a road has them without one.
#[tactic(auto, unfolding(crate::specs::Face::units))]
pub fn units(road: Road, f: u32) -> u32
    requires { 0 < road.divisor }
    ensures { result ≡ units road f }
{
    let d = road.divisor as u64;
    ((2 * f as u64 + d) / (2 * d)) as u32
}

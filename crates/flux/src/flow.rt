// The flow over a face by a road's pace.
ghost use Rattle.std.specs.Prelude.{◌≡◌, ◌≤◌, ◌<◌, ◌^◌, min};
ghost use Rattle.flux.specs.Face.{numerator, units};

use super::{Factor, Pace, face};
use road::AcceptedRoad;

// Internal: the smaller of two numbers below 2^31. The signed comparison is the cheaper one in vectors.
fn least(a: u32, b: u32) -> u32
    requires a_bound { a < 2 ^ 31 }
    requires b_bound { b < 2 ^ 31 }
    ensures { result ≡ min a b }
{
    if (a as i32) < (b as i32) { a } else { b }
}

impl Pace {
    // Internal: the pace of a road.
    pub fn of(road: AcceptedRoad) -> Pace
        ensures { result.road.road ≡ road.road }
    {
        let r = road.road;
        Pace {
            road,
            send: Factor::of(r.free, r.divisor),
            receive: Factor::of(r.wave, r.divisor),
            capacity: face::units(r, r.free * r.critical),
        }
    }

    // Internal: the units moved over the face between densities a and b, under its cap. A cap may be any number, which the
    // signed comparison would take for a negative one: it is cut at the capacity first.
    pub fn flow(self, a: u32, b: u32, cap: u32) -> u32
        requires a_le_jam { a ≤ self.road.road.jam }
        requires b_le_jam { b ≤ self.road.road.jam }
        ensures { result ≡ min (units self.road.road (numerator self.road.road a b)) cap }
    {
        let send = self.send;
        let receive = self.receive;
        let sent = send.part(a);
        let received = receive.part(self.road.road.jam - b);
        let most = cap.min(self.capacity);
        least(least(sent, received), most)
    }
}

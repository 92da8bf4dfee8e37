// The change of one cell: where its own density alters the letters of its two faces, and the shortest way there.
ghost use Rattle.std.specs.Prelude.{◌≡◌, ◌≤◌, ◌<◌};
ghost use Rattle.flux.specs.Thresholds.{left_threshold, right_threshold};
ghost use Rattle.nearest.specs.Ways.{crossing};

use road::AcceptedRoad;

// Internal: the highest own density at which the left face lets in all that density a upstream sends: above it the letter
// is W.
#[tactic(auto, using(crate::proofs::Ceiling::needed_within_jam, crate::proofs::Ceiling::rounded_up))]
pub fn left_threshold(road: AcceptedRoad, a: u32) -> u32
    ensures { result ≡ left_threshold road.road a }
{
    let sent = flux::sending(road, a);
    road.road.jam - sent.div_ceil(road.road.wave)
}

// Internal: the highest own density that the right face, towards density b, lets out as if it were free: up to it the
// letter is D.
#[tactic(auto, unfolding(flux::specs::Thresholds::right_threshold))]
pub fn right_threshold(road: AcceptedRoad, b: u32) -> u32
    ensures { result ≡ right_threshold road.road b }
{
    flux::receiving(road, b) / road.road.free
}

// Internal: the shortest way from a density across one of two thresholds, of which the right one is no higher, as a
// signed change: down at a tie.
#[tactic(auto, unfolding(crate::specs::Ways::crossing), using(crate::proofs::Widths::up_exact, crate::proofs::Widths::lowered_exact))]
pub fn crossing(road: AcceptedRoad, own: u32, left: u32, right: u32) -> i32
    requires own_le_jam { own ≤ road.road.jam }
    requires left_le_jam { left ≤ road.road.jam }
    requires right_lt_jam { right < road.road.jam }
    ensures { result ≡ crossing road.road.jam own left right }
{
    if own <= right {
        return (right + 1 - own) as i32;
    }
    if left < own {
        return -((own - left) as i32);
    }
    let down = own - right;
    if road.road.jam <= left {
        return -(down as i32);
    }
    let up = left + 1 - own;
    if up < down { up as i32 } else { -(down as i32) }
}

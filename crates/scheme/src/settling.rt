// The settling run: one end pair for all steps, up to the first still step.
ghost use Rattle.std.specs.Prelude.{◌≡◌};
ghost use Rattle.scheme.specs.Settling.{still};
ghost use Rattle.scheme.specs.Calls.{Ready, SettledTo};

use super::one_step::step;
use flux::Pace;

// Whether a run settled, and the number of steps that it made: no enum of the two, since the steps are told either way.
#[derive(Clone, Copy)]
pub struct Settled {
    pub settled: bool,
    pub steps: u32,
}

// Internal: whether the next step would be still. A cell keeps its density exactly where as much leaves as enters, so that
// all faces have to move the same units. Both ends come first: they seldom agree, and unless they do no other face is worked.
fn is_still(pace: Pace, caps: &[u32], cells: &[u32], up: u32, down: u32) -> bool
    requires { Ready pace caps.now cells.now up down }
    ensures { result ≡ still pace.road.road caps.now up down cells.now }
{
    let n = cells.len();
    let first = pace.flow(up, cells[0], caps[0]);
    let last = pace.flow(cells[n - 1], down, caps[n]);
    if last != first {
        return false;
    }
    (0..n - 1).all(|i| pace.flow(cells[i], cells[i + 1], caps[i + 1]) == first)
}

// Internal: the list then holds the state that the settling run hands back.
pub fn settle(
    pace: Pace,
    caps: &[u32],
    cells: &mut [u32],
    up: u32,
    down: u32,
    horizon: u32,
) -> Settled
    requires { Ready pace caps.now cells.old up down }
    ensures { SettledTo pace.road.road caps.now up down horizon cells.old cells.new result }
{
    for steps in 0..horizon {
        if is_still(pace, caps, cells, up, down) {
            return Settled {
                settled: true,
                steps,
            };
        }
        step(pace, caps, cells, up, down);
    }
    Settled {
        settled: false,
        steps: horizon,
    }
}

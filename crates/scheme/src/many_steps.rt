// A run: a step for each pair of the two end lists, with the sums of what entered and left.
ghost use Rattle.scheme.specs.Calls.{ReadyToRun, Ran};

use super::one_step::step;
use flux::Pace;

// The units over face 0 and over face n, of one run or since commissioning.
#[derive(Clone, Copy)]
pub struct Totals {
    pub entered: u64,
    pub left: u64,
}

// Internal: the list then holds the cells after the last step.
pub fn run(
    pace: Pace,
    caps: &[u32],
    cells: &mut [u32],
    upstream: &[u32],
    downstream: &[u32],
) -> Totals
    requires { ReadyToRun pace caps.now cells.old upstream.now downstream.now }
    ensures { Ran pace.road.road caps.now upstream.now downstream.now cells.old cells.new result }
{
    let mut totals = Totals {
        entered: 0,
        left: 0,
    };
    for (up, down) in upstream.iter().zip(downstream) {
        let moved = step(pace, caps, cells, *up, *down);
        totals.entered += u64::from(moved.entered);
        totals.left += u64::from(moved.left);
    }
    totals
}

// One step, in place: all faces worked from the old densities. That it keeps no second list is read off the code; no contract
// speaks of memory.
ghost use Rattle.std.specs.Prelude.{◌≡◌};
ghost use Rattle.scheme.specs.Rounded.{moved, open_cap};
ghost use Rattle.scheme.specs.Calls.{Ready, Stepped, SteppedByFaces};

use flux::Pace;

// The units over face 0 and over face n in one step, which fit 32 bits. One generic type for these and `Totals` would be no
// plainer: each use would name the width.
#[derive(Clone, Copy)]
pub struct Moved {
    pub entered: u32,
    pub left: u32,
}

// The cap of an open face: the largest that a cap can be (`open_cap`).
pub const OPEN: u32 = u32::MAX;

// Internal: the same, with the equation to its definition, so that another constant is refused here.
pub fn open_cap() -> u32
    ensures { result ≡ open_cap }
{
    OPEN
}

// Internal: the step as document 02, E5, asks for it, each face under its cap (E7). "It takes one list, and its contract
// says that this then holds document 01's step, rounded as E2 says, of what it held": by the definition, and face by face.
// The caps are only read. One number, the inflow, is carried from cell to cell. The last cell stands outside the loop and
// each density is read where it is used, so that the loop can be vectorized; by its place, since no iterator over a list
// lends one cell to be written and the next to be read.
pub fn step(pace: Pace, caps: &[u32], cells: &mut [u32], up: u32, down: u32) -> Moved
    requires { Ready pace caps.now cells.old up down }
    ensures stepped { Stepped (moved pace.road.road caps.now) up down cells.old cells.new result }
    ensures stepped_by_faces { SteppedByFaces pace.road.road caps.now up down cells.old cells.new result }
{
    let n = cells.len();
    let first = pace.flow(up, cells[0], caps[0]);
    let mut inflow = first;
    for i in 0..n - 1 {
        let own = cells[i];
        let out = pace.flow(own, cells[i + 1], caps[i + 1]);
        cells[i] = own + inflow - out;
        inflow = out;
    }
    let own = cells[n - 1];
    let last = pace.flow(own, down, caps[n]);
    cells[n - 1] = own + inflow - last;
    Moved {
        entered: first,
        left: last,
    }
}

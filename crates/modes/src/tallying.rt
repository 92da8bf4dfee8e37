// The counts of a reading: how many cells are in each mode, and how many are queued. A count is kept in 16 bits, which hold
// the cells' ceiling, while it grows: then the loop is vectorized, and `filter(..).count()` takes ten times as long.
ghost use Rattle.std.specs.Prelude.{◌≡◌, ◌≤◌, length};
ghost use Rattle.road.specs.Ceilings.{cells_ceiling};
ghost use Rattle.modes.specs.Codes.{code_of};
ghost use Rattle.modes.specs.Reading.{count_of, counts_of, queued_of};

use super::mode::Mode;
use checks::AcceptedState;

// Internal: how many of the modes are a given one.
fn count_of(mode: Mode, modes: &[u8]) -> u32
    requires { length modes.now ≤ cells_ceiling }
    ensures { result ≡ count_of (code_of mode) modes.now }
{
    let code = mode.code();
    let mut count: u16 = 0;
    for m in modes {
        count += (*m == code) as u16;
    }
    count as u32
}

// Internal: how many of the modes are each of the seven: a pass for each, which takes the same time for every state.
#[tactic(auto, unfolding(crate::specs::Reading::counts_of))]
pub fn tally(modes: &[u8]) -> [u32; 7]
    requires { length modes.now ≤ cells_ceiling }
    ensures { result ≡ counts_of modes.now }
{
    Mode::ALL.map(|mode| count_of(mode, modes))
}

// Internal: how many of the cells are denser than critical.
pub fn queued(state: AcceptedState) -> u32
    ensures { result ≡ queued_of state.entry.road.road.critical state.entry.cells.now }
{
    let critical = state.road.road.critical;
    let mut queued: u16 = 0;
    for cell in state.cells {
        queued += (critical < *cell) as u16;
    }
    queued as u32
}

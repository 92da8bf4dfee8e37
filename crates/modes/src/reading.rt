// The reading of a state: the letter of every face, the mode of every cell, seven counts and the queued cells.
ghost use Rattle.std.specs.Prelude.{◌≡◌, ◌+◌, length};
ghost use Rattle.choice.specs.Choice.{or};
ghost use Rattle.checks.specs.Lists.{bad_output};
ghost use Rattle.modes.specs.Answers.{reading_of};
ghost use Rattle.modes.specs.Reading.{Reads};

use super::tallying::{queued, tally};
use super::writing::{write_letters, write_modes};
use checks::AcceptedState;
use refusal::Refusal;
use road::Road;

// One count for each mode, 1 to 7, and the queued cells: those denser than critical.
#[derive(Clone, Copy)]
pub struct Counts {
    pub modes: [u32; 7],
    pub queued: u32,
}

// Internal: check 8 of both outputs, n+1 letters and n modes.
fn have_bad_length(cells: &[u32], letters: &[u8], modes: &[u8]) -> bool
    ensures { result ≡ or (bad_output (length cells.now + 1) (length letters.now)) (bad_output (length cells.now) (length modes.now)) }
{
    checks::bad_output(cells.len() + 1, letters.len())
        || checks::bad_output(cells.len(), modes.len())
}

// The letters hold the letter of every face and the modes the mode of every cell; the answer has the seven counts, whose
// sum is the number of cells, and the queued cells. Refused, both lists keep what they held.
pub fn read(
    road: Road,
    cells: &[u32],
    up: u32,
    down: u32,
    letters: &mut [u8],
    modes: &mut [u8],
) -> Result<Counts, Refusal>
    ensures { Reads road cells.now up down letters.old letters.new modes.old modes.new (reading_of result) }
{
    let bad = have_bad_length(cells, letters, modes);
    let state = AcceptedState::judged(road, cells, up, down, bad)?;
    write_letters(state, letters);
    write_modes(letters, modes);
    Ok(Counts {
        modes: tally(modes),
        queued: queued(state),
    })
}

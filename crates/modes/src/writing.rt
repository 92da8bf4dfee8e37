// The letters and the modes of a state, written once nothing can refuse any more.
ghost use Rattle.std.specs.Prelude.{◌≡◌, ◌+◌, length};
ghost use Rattle.scheme.specs.Word.{word_of};
ghost use Rattle.modes.specs.Modes.{modes_of};

use super::mode::Mode;
use checks::AcceptedState;
use flux::Letter;

// Internal: the list then holds the letter of every face. Both cells of a face are read by their places: with the left one
// carried along the loop is not vectorized, and takes three times as long.
pub fn write_letters(state: AcceptedState, letters: &mut [u8])
    requires { length letters.old ≡ length state.cells.now + 1 }
    ensures { letters.new ≡ word_of state.entry.road.road state.entry.up state.entry.down state.entry.cells.now }
{
    let cells = state.cells;
    let last = cells.len();
    letters[0] = Letter::between(state.road, state.up, cells[0]).code();
    for face in 1..last {
        letters[face] = Letter::between(state.road, cells[face - 1], cells[face]).code();
    }
    letters[last] = Letter::between(state.road, cells[last - 1], state.down).code();
}

// Internal: the list then holds the mode of every cell.
pub fn write_modes(word: &[u8], modes: &mut [u8])
    requires { length word.now ≡ length modes.old + 1 }
    ensures { modes.new ≡ modes_of word.now }
{
    for (cell, mode) in modes.iter_mut().enumerate() {
        *mode = Mode::between(word[cell], word[cell + 1]).code();
    }
}

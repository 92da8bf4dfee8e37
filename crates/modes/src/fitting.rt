// The fit test: whether a state and end pair fit a word.
ghost use Rattle.std.specs.Prelude.{◌≡◌};
ghost use Rattle.modes.specs.Answers.{comparison_of, fit_of};
ghost use Rattle.modes.specs.Fit.{Compared, Fits};

use flux::Letter;
use refusal::Refusal;
use road::Road;
use words::AcceptedWord;

// Internal: the lowest face whose letter is not the word's.
fn first_misfit(accepted: AcceptedWord) -> Option<u32>
    ensures { Compared accepted.entry.state.road.road accepted.entry.state.cells.now accepted.entry.state.up accepted.entry.state.down accepted.entry.word.now (comparison_of result) }
{
    let state = accepted.state;
    let word = accepted.word;
    let mut left = state.up;
    for (face, own) in state.cells.iter().enumerate() {
        if Letter::between(state.road, left, *own).code() != word[face] {
            return Some(face as u32);
        }
        left = *own;
    }
    let last = state.cells.len();
    if Letter::between(state.road, left, state.down).code() != word[last] {
        return Some(last as u32);
    }
    None
}

// Whether the letter of every face of the state is the word's: none where it is, else the lowest face where it is not.
pub fn fit(
    road: Road,
    cells: &[u32],
    up: u32,
    down: u32,
    word: &[u8],
) -> Result<Option<u32>, Refusal>
    ensures { Fits road cells.now up down word.now (fit_of result) }
{
    // The fit test has no output, so that none is bad.
    let accepted = AcceptedWord::judged(road, cells, up, down, word, false)?;
    Ok(first_misfit(accepted))
}

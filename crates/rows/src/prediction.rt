// Row prediction: the rows of a legal word applied to any accepted state.
ghost use Rattle.std.specs.Prelude.{◌≡◌, length};
ghost use Rattle.refusal.specs.Answer.{answer_of};
ghost use Rattle.rows.specs.Rows.{row_numerators};
ghost use Rattle.rows.specs.Prediction.{Predicts};

use super::numerators::rows_of;
use modes::Mode;
use refusal::Refusal;
use road::Road;
use words::AcceptedWord;

// Internal: the output then holds a numerator for each cell, by the row of the letters on its two faces.
fn write_rows(accepted: AcceptedWord, out: &mut [i64])
    requires { length out.old ≡ length accepted.state.cells.now }
    ensures { out.new ≡ row_numerators accepted.entry.state.road.road accepted.entry.state.up accepted.entry.state.down accepted.entry.word.now accepted.entry.state.cells.now }
{
    let state = accepted.state;
    let word = accepted.word;
    let rows = rows_of(state.road);
    let mut left = state.up;
    for (cell, own) in state.cells.iter().enumerate() {
        let right = scheme::density_at(state.cells, cell + 1, state.down);
        let mode = Mode::between(word[cell], word[cell + 1]);
        let row = rows[mode.place()];
        out[cell] = row.applied(left, *own, right);
        left = *own;
    }
}

// The output holds the value of each cell's row: the density after one step, times the divisor, where the word is the
// state's own; a foreign word may give one below zero. Refused, the output keeps what it held.
pub fn predict(
    road: Road,
    cells: &[u32],
    up: u32,
    down: u32,
    word: &[u8],
    out: &mut [i64],
) -> Result<(), Refusal>
    ensures { Predicts road cells.now up down word.now out.old out.new (answer_of result) }
{
    let bad = checks::bad_output(cells.len(), out.len());
    let accepted = AcceptedWord::judged(road, cells, up, down, word, bad)?;
    write_rows(accepted, out);
    Ok(())
}

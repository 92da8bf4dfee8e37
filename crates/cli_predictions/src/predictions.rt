// The row prediction.
use arrayvec::ArrayVec;
use cli_request::numbers::CELLS;
use cli_request::{Refused, State, numbers};
use printing::{Form, Page, plural};

fn report(page: &mut Page, divisor: u32, numerators: &[i64]) {
    let n = numerators.len();
    match page.form() {
        Form::Lines => {
            write!(page, "done rows {n}");
            page.numerators(numerators);
            writeln!(page);
        }
        Form::Text => {
            writeln!(page, "rows of {n} cell{}", plural(n as u64));
            writeln!(page, "  densities after one step, times {divisor}");
            page.numerators(numerators);
        }
    }
}

// The rows of a text.
pub fn act(page: &mut Page, text: &[u8]) -> Result<(), Refused> {
    let state = State::of(text);
    let word = numbers::word(text);
    let mut numerators: ArrayVec<i64, CELLS> = numbers::filled(0, state.cells.len());
    rows::predict(
        state.road,
        &state.cells,
        state.up,
        state.down,
        &word,
        &mut numerators,
    )
    .map_err(|refusal| state.refused(refusal))?;
    report(page, state.road.divisor, &numerators);
    Ok(())
}

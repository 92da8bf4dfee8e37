// The fit test.
use cli_request::{Refused, State, numbers};
use printing::{Form, Page};

// Whether every face of the word holds, or the lowest that does not.
fn report(page: &mut Page, misfit: Option<u32>) {
    match (page.form(), misfit) {
        (Form::Lines, None) => writeln!(page, "done fit 1 0"),
        (Form::Lines, Some(face)) => writeln!(page, "done fit 0 {face}"),
        (Form::Text, None) => writeln!(page, "fit\n  every face of the word holds"),
        (Form::Text, Some(face)) => writeln!(
            page,
            "fit\n  face {face} is the lowest of the word that does not hold"
        ),
    }
}

// The fit test of a text.
pub fn act(page: &mut Page, text: &[u8]) -> Result<(), Refused> {
    let state = State::of(text);
    let word = numbers::word(text);
    let misfit = modes::fit(state.road, &state.cells, state.up, state.down, &word).map_err(
        |refusal| state.refused(refusal),
    )?;
    report(page, misfit);
    Ok(())
}

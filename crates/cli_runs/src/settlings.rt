// The settling run.
use arrayvec::ArrayVec;
use cli_request::numbers::CELLS;
use cli_request::{Refused, State, caps, numbers};
use cli_vocabulary::Key;
use printing::{Form, Page, plural};
use scheme::Settled;

fn report(page: &mut Page, run: Settled, horizon: u32, caps: &[u32], cells: &[u32]) {
    let n = cells.len();
    let steps = run.steps;
    match page.form() {
        Form::Lines => {
            write!(page, "done settle {} {steps} {n}", u8::from(run.settled));
            page.list(cells);
            writeln!(page);
        }
        Form::Text => {
            write!(page, "settle of {n} cell{} within", plural(n as u64));
            write!(page, " {horizon} step{}", plural(u64::from(horizon)));
            caps::tell(page, caps::narrowed(caps), caps.len());
            let outcome = if run.settled {
                "settled"
            } else {
                "not settled"
            };
            writeln!(
                page,
                "\n  {outcome} after {steps} step{}",
                plural(u64::from(steps))
            );
            writeln!(page, "  cells then");
            page.list(cells);
        }
    }
}

// The settling run of a text.
pub fn act(page: &mut Page, text: &[u8]) -> Result<(), Refused> {
    let state = State::of(text);
    let caps = caps::of(text, &state.cells);
    let [horizon]: [u32; 1] = numbers::numbers(text, Key::Horizon);
    let mut out: ArrayVec<u32, CELLS> = numbers::filled(0, state.cells.len());
    let run = forecast::settle(
        state.road,
        &state.cells,
        state.up,
        state.down,
        horizon,
        &caps,
        &mut out,
    )
    .map_err(|refusal| Refused {
        caps: caps.len(),
        ..state.refused(refusal)
    })?;
    report(page, run, horizon, &caps, &out);
    Ok(())
}

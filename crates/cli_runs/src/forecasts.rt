// The forecast.
use cli_arguments::options::Options;
use cli_request::{Forecast, Refused, Status, caps, numbers};
use forecast::Record;
use printing::{Form, Page, plural};
use std::rt::{Env, Files};

fn report(page: &mut Page, run: &Forecast, record: Record, cells: &[u32]) {
    let n = cells.len();
    let horizon = run.horizon;
    let own = record.own;
    let totals = record.totals;
    match page.form() {
        Form::Lines => {
            write!(
                page,
                "done forecast {} {} {} {} {n}",
                own.entered, own.left, totals.entered, totals.left
            );
            page.list(cells);
            writeln!(page);
        }
        Form::Text => {
            write!(page, "forecast of {n} cell{} over", plural(n as u64));
            write!(page, " {horizon} step{}", plural(u64::from(horizon)));
            caps::tell(page, caps::narrowed(&run.caps), run.caps.len());
            writeln!(page, "\n  entered {}, left {}", own.entered, own.left);
            write!(page, "  since commissioning: ");
            writeln!(page, "entered {}, left {}", totals.entered, totals.left);
            writeln!(page, "  cells at the end");
            page.list(cells);
        }
    }
}

// The forecast of a text and, once it was made, its picture where one is asked for; the status.
pub fn act<R: Env + Files>(
    rt: &R,
    page: &mut Page,
    o: Options,
    text: &[u8],
) -> Result<Status, Refused> {
    let mut run = Forecast::of(text);
    let (record, cells) = run.made()?;
    report(page, &run, record, &cells);
    match o.picture {
        Some(picture) => cli_drawing::act(rt, page, o.through, picture, &mut run),
        None => Ok(Status::Done),
    }
}

// How near the next mode is: the cells by the smallest change that alters the word.
use arrayvec::ArrayVec;
use cli_request::numbers::CELLS;
use cli_request::{Refused, State, numbers};
use printing::{Form, Page, plural};

// A cell by its number, from 1, with its density and its change.
fn row(page: &mut Page, number: u32, cells: &[u32], change: i32) {
    let before = number.saturating_sub(1) as usize;
    let density = cells.get(before).copied().unwrap_or_default();
    write!(page, "{number:>8}{density:>9}");
    page.signed(i64::from(change), 7);
    writeln!(page);
}

fn report(page: &mut Page, cells: &[u32], numbers: &[u32], changes: &[i32]) {
    let n = numbers.len();
    match page.form() {
        Form::Lines => {
            write!(page, "done nearest {n}");
            page.list(numbers);
            page.list(changes);
            writeln!(page);
        }
        Form::Text => {
            writeln!(page, "nearest of {n} cell{}", plural(n as u64));
            writeln!(
                page,
                "  each one's smallest change that alters the word, the smallest first"
            );
            writeln!(page, "    cell  density    change");
            for (number, change) in numbers.iter().zip(changes.iter()) {
                row(page, *number, cells, *change);
            }
        }
    }
}

// The ranking of a text's cells. Its numbers and changes are two lists, as the public call `nearest` fills them.
pub fn act(page: &mut Page, text: &[u8]) -> Result<(), Refused> {
    let state = State::of(text);
    let mut numbers: ArrayVec<u32, CELLS> = numbers::filled(0, state.cells.len());
    let mut changes: ArrayVec<i32, CELLS> = numbers::filled(0, state.cells.len());
    nearest::nearest(
        state.road,
        &state.cells,
        state.up,
        state.down,
        &mut numbers,
        &mut changes,
    )
    .map_err(|refusal| state.refused(refusal))?;
    report(page, &state.cells, &numbers, &changes);
    Ok(())
}

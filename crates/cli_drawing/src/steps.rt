// The shades of every cell at every step, worked before anything is written.
ghost use Rattle.std.specs.Prelude.{◌≡◌, ◌+◌, length};
ghost use Rattle.road.specs.Ceilings.{cells_ceiling, horizon_ceiling};

use cli_request::{Forecast, numbers};
use refusal::Refusal;
use road::Road;
use scheme::Totals;

// The room of a cell's shades: one for each step and one for the start.
pub const STEPS: usize = Road::HORIZON as usize + 1;

// A row of shades for each of the most cells. Once made (`blank`) they are lent: each copy would take 0.4 MB of stack.
pub type Shades = [[u8; STEPS]; Road::CELLS as usize];

// A cell's shades, before any is recorded.
fn blank_row() -> [u8; STEPS]
    ensures { horizon_ceiling + 1 ≡ length result }
{
    [0; STEPS]
}

// The shades of all cells, before any is recorded.
pub fn blank() -> Shades
    ensures { length result ≡ cells_ceiling }
{
    [blank_row(); Road::CELLS as usize]
}

// The shades of all cells at one step.
fn record(shades: &mut Shades, step: usize, cells: &[u32], jam: u32) {
    for (row, cell) in shades.iter_mut().zip(cells) {
        if let Some(shade) = row.get_mut(step) {
            *shade = cli_picture::shade(*cell, jam);
        }
    }
}

// The shades at the start and after every step; the run's cells are then the last ones. The picture is drawn once the totals
// were judged: none are carried here.
pub fn work(run: &mut Forecast, shades: &mut Shades) -> Result<(), Refusal> {
    let none = Totals {
        entered: 0,
        left: 0,
    };
    let jam = run.road.jam;
    record(shades, 0, &run.cells, jam);
    for (t, (up, down)) in run.upstream.iter().zip(run.downstream.iter()).enumerate() {
        let mut out = numbers::filled(0, run.cells.len());
        forecast::forecast(
            run.road,
            &run.cells,
            &[*up],
            &[*down],
            1,
            &run.caps,
            none,
            &mut out,
        )?;
        record(shades, t + 1, &out, jam);
        run.cells = out;
    }
    Ok(())
}

// The picture: its sizes, and its rows, lowest cell first, written to a file or a stream.
ghost use Rattle.std.specs.Prelude.{◌≡◌, ◌+◌, ◌*◌, ◌/◌, length, min};
ghost use Rattle.arrayvec.specs.ArrayVec.{array_vec_len};
ghost use Rattle.road.specs.Ceilings.{horizon_ceiling};

use super::steps::{STEPS, Shades};
use arrayvec::ArrayVec;
use cli_request::numbers;
use std::io::{Error, Write};

// The pixels that the picture comes to about, where blocks of whole pixels allow it.
const WIDE: u32 = 1024;

const HIGH: u32 = 512;

// The start of the file, up to its first row.
const START: usize = 1078;

// The room of a row's bytes: the widest has a pixel for each step and one for the start, filled up to four. Fewer steps are
// stretched to at most 1,024 pixels, which is less.
const ROW: usize = (STEPS + 3) / 4 * 4;

// The start of a file, before it is written.
fn blank_start() -> [u8; START]
    ensures { 1078 ≡ length result }
{
    [0; START]
}

// A row of so many bytes, as far as there is room.
fn blank_row(bytes: usize) -> ArrayVec<u8, ROW>
    ensures { array_vec_len result ≡ min bytes ((horizon_ceiling + 4) / 4 * 4) }
{
    numbers::filled(0, bytes)
}

// A picture of so many cells at so many columns of time: the pixels of a column across and of a cell upward, and the whole.
#[derive(Clone, Copy)]
pub struct Picture<'a> {
    shades: &'a Shades,
    cells: usize,
    columns: usize,
    pub across: u32,
    pub upward: u32,
    pub width: u16,
    pub height: u16,
}

fn pixels(count: u32, each: u32) -> u16 {
    u16::try_from(count.saturating_mul(each)).unwrap_or(u16::MAX)
}

fn small(n: usize) -> u32 {
    n.min(65535) as u32
}

impl<'a> Picture<'a> {
    pub fn of(shades: &'a Shades, cells: usize, columns: usize) -> Picture<'a> {
        let across = cli_picture::scale(small(columns), WIDE);
        let upward = cli_picture::scale(small(cells), HIGH);
        Picture {
            shades,
            cells,
            columns,
            across,
            upward,
            width: pixels(small(columns), across),
            height: pixels(small(cells), upward),
        }
    }

    // The rows of one cell: the same row, as often as a cell is high.
    fn write_cell<W: Write>(&self, to: &mut W, shades: &[u8]) -> Result<(), Error> {
        let bytes = cli_picture::row_bytes(self.width) as usize;
        let mut row = blank_row(bytes);
        cli_picture::stretch(shades, self.across, &mut row);
        for _ in 0..self.upward {
            to.write_all(&row)?;
        }
        Ok(())
    }

    // The whole file.
    pub fn write<W: Write>(&self, to: &mut W) -> Result<(), Error> {
        let mut start = blank_start();
        cli_picture::write_start(self.width, self.height, &mut start);
        to.write_all(&start)?;
        let rows = self.shades;
        for shades in rows.iter().take(self.cells) {
            let columns = self.columns.min(shades.len());
            self.write_cell(to, &shades[..columns])?;
        }
        Ok(())
    }
}

// Word counts: the worked ones, the edges, and the refusal one beyond.
use printing::Page;
use worked::print;

// The roads' cells: those of the worked cases, the ceiling, and two beyond it.
static CELLS: [u32; 9] = [0, 1, 2, 5, 10, 20, 40, 41, u32::MAX];

// How many words there are for so many cells.
pub fn cases(page: &mut Page) {
    for cells in &CELLS {
        write!(page, "words for {cells} cells");
        match counting::count(*cells) {
            Ok(c) => write!(page, ": {}", c.words),
            Err(refusal) => print::refusal(page, refusal),
        }
        writeln!(page);
    }
}

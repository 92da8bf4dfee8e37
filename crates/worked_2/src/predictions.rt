// Row predictions: numerators below, at and above zero, and refusals with their places.
use super::letters::{D, L, W};
use printing::Page;
use worked::roads::A;
use worked::{lists, print};

// A name, cells of road A, the upstream end, the word whose rows they are, and the places of the output. The downstream end
// is empty.
#[derive(Clone, Copy)]
struct Case(&'static str, &'static [u32], u32, &'static [u8], usize);

static CASES: [Case; 8] = [
    Case(
        "of D L W L on 300 150 700",
        &[300, 150, 700],
        100,
        &[D, L, W, L],
        3,
    ),
    Case("of D W on an empty cell", &[0], 0, &[D, W], 1),
    Case("of D W on a cell of 200", &[200], 0, &[D, W], 1),
    Case("of D W on a cell of 201", &[201], 0, &[D, W], 1),
    Case("of W D, an illegal pair", &[0], 0, &[W, D], 1),
    Case("of one letter for one cell", &[0], 0, &[D], 1),
    Case("of a cell above J", &[1001], 0, &[D, D], 1),
    Case("with an output of two for one cell", &[0], 0, &[D, D], 2),
];

// The worked case, numerators of a single cell, refusals: each with what it left in an output of 7s.
pub fn cases(page: &mut Page) {
    for case in &CASES {
        let Case(name, cells, up, word, places) = *case;
        let mut out = [7; 3];
        let out = lists::first(&mut out, places);
        write!(page, "rows {name}");
        match rows::predict(A, cells, up, 0, word, out) {
            Ok(()) => write!(page, ": done"),
            Err(refusal) => print::refusal(page, refusal),
        }
        write!(page, ",");
        page.numerators(out);
        writeln!(page);
    }
}

// What the cases print with, besides their own words: refusals, the start of a list and its last cell, the bits of a
// double.
use printing::Page;
use refusal::Refusal;
use std::fmt::Display;

// How much of a list is shown.
const MOST: usize = 4;

// A refusal's number and place.
pub fn refusal(page: &mut Page, refusal: Refusal) {
    let number = refusal.number();
    let place = refusal.place();
    write!(page, ": refused {number} at {place}");
}

// The start of a list of cells, letters or modes, and how many there are in all where there are more.
pub fn list<T: Display + Copy>(page: &mut Page, xs: &[T]) {
    let n = xs.len();
    page.list(&xs[..n.min(MOST)]);
    if MOST < n {
        write!(page, " .. of {n}");
    }
}

// The same of cells, and the last cell of a longer list.
pub fn cells(page: &mut Page, xs: &[u32]) {
    list(page, xs);
    if let Some(last) = xs[xs.len().min(MOST)..].last() {
        write!(page, ", last {last}");
    }
}

// The cells that a call left in its output.
pub fn output(page: &mut Page, out: &[u32]) {
    write!(page, ", output");
    cells(page, out);
}

// The 64 bits of a double in hexadecimal; any NaN is told as such.
pub fn bits(page: &mut Page, x: f64) {
    if x.is_nan() {
        write!(page, ": not a number");
    } else {
        let bits = x.to_bits();
        write!(page, ": 0x{bits:016x}");
    }
}

// Lists: their entries one after the other on a line, or in rows of ten with the first one's number in front.
use super::page::{Form, Page};
use std::fmt::Display;

// The letter of a code. (A code, since the C interface has letters as bytes.)
fn letter(code: u8) -> char {
    match code {
        0 => 'W',
        1 => 'L',
        _ => 'D',
    }
}

impl Page {
    // What stands before entry i of a list whose first entry has the number `first`.
    fn before(&mut self, i: usize, first: usize) {
        if self.form() == Form::Lines {
            write!(self, " ");
        } else if i % 10 == 0 {
            if i != 0 {
                writeln!(self);
            }
            let number = i.wrapping_add(first);
            write!(self, "{number:>6}:");
        }
    }

    // A list whose first entry has the number `first`; on a page of text each entry in its column.
    fn entries<T: Display + Copy, F: Fn(&mut Page, T) + Drop>(
        &mut self,
        first: usize,
        entries: &[T],
        in_column: F,
    )
        requires { F.IsAlwaysCallable in_column }
    {
        for (i, entry) in entries.iter().enumerate() {
            self.before(i, first);
            match self.form() {
                Form::Lines => write!(self, "{entry}"),
                Form::Text => in_column(self, *entry),
            }
        }
        if self.form() == Form::Text {
            writeln!(self);
        }
    }

    // Numbers of cells, from cell 1 on.
    pub fn list<T: Display + Copy>(&mut self, numbers: &[T]) {
        self.entries(1, numbers, |page, n| write!(page, "{n:>9}"));
    }

    // The letters of faces by their codes, from face 0 on; on a line the codes themselves.
    pub fn letters(&mut self, codes: &[u8]) {
        self.entries(0, codes, |page, code| {
            let letter = letter(code);
            write!(page, "  {letter}")
        });
    }

    // The numerators of cells, from cell 1 on.
    pub fn numerators(&mut self, xs: &[i64]) {
        self.entries(1, xs, |page, x| page.signed(x, 11));
    }

    // A number in a column that has so many places for its digits, and in front of them one for its sign.
    pub fn signed(&mut self, n: i64, places: usize) {
        if n < 0 {
            let width = places.saturating_add(1);
            write!(self, "  {n:>width$}");
        } else {
            write!(self, "   {n:>places$}");
        }
    }
}

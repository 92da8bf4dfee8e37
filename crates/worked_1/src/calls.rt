// The calls of Level 1, each on its input, and what is said of their answers.
use forecast::Record;
use printing::Page;
use refusal::Refusal;
use road::Road;
use scheme::Totals;
use worked::{lists, print};

// No units since commissioning.
pub const NONE: Totals = Totals {
    entered: 0,
    left: 0,
};

// A forecast: its name, its input, and the places of its output.
#[derive(Clone, Copy)]
pub struct Forecast<'a> {
    pub name: &'a str,
    pub road: Road,
    pub cells: &'a [u32],
    pub ups: &'a [u32],
    pub downs: &'a [u32],
    pub horizon: u32,
    pub caps: &'a [u32],
    pub totals: Totals,
    pub places: usize,
}

impl Forecast<'_> {
    // Its line, with an output of 7s before it.
    pub fn show(self, page: &mut Page) {
        write!(page, "{}", self.name);
        self.tell(page, lists::first(&mut lists::cells(7), self.places));
    }

    pub fn made(self, out: &mut [u32]) -> Result<Record, Refusal> {
        forecast::forecast(
            self.road,
            self.cells,
            self.ups,
            self.downs,
            self.horizon,
            self.caps,
            self.totals,
            out,
        )
    }

    // What entered and left, or the refusal, and what the forecast left in the output.
    pub fn tell(self, page: &mut Page, out: &mut [u32]) {
        match self.made(out) {
            Ok(d) => {
                let own = d.own;
                write!(page, ": entered {}, left {}", own.entered, own.left);
            }
            Err(refusal) => print::refusal(page, refusal),
        }
        print::output(page, out);
        writeln!(page);
    }
}

// A settling run: the same, with one end pair in every step.
#[derive(Clone, Copy)]
pub struct Settling<'a> {
    pub name: &'a str,
    pub road: Road,
    pub cells: &'a [u32],
    pub up: u32,
    pub down: u32,
    pub horizon: u32,
    pub caps: &'a [u32],
    pub places: usize,
}

impl<'a> Settling<'a> {
    // Its line, with an output of 7s before it.
    pub fn show(self, page: &mut Page) {
        write!(page, "{}", self.name);
        self.tell(page, lists::first(&mut lists::cells(7), self.places));
        writeln!(page);
    }

    // The forecast of the same input, with an end of each list in every step.
    pub fn forecast(self, ups: &'a [u32], downs: &'a [u32]) -> Forecast<'a> {
        let steps = self.horizon as usize;
        Forecast {
            name: self.name,
            road: self.road,
            cells: self.cells,
            ups: &ups[..steps.min(ups.len())],
            downs: &downs[..steps.min(downs.len())],
            horizon: self.horizon,
            caps: self.caps,
            totals: NONE,
            places: self.places,
        }
    }

    // The input by its numbers.
    pub fn list(self, page: &mut Page) {
        print::cells(page, self.cells);
        write!(
            page,
            " between {} and {}, T {}, caps",
            self.up, self.down, self.horizon
        );
        print::cells(page, self.caps);
    }

    // Whether it settled and after how many steps, or the refusal, and what the run left in the output.
    pub fn tell(self, page: &mut Page, out: &mut [u32]) {
        match forecast::settle(
            self.road,
            self.cells,
            self.up,
            self.down,
            self.horizon,
            self.caps,
            out,
        ) {
            Ok(s) => {
                if s.settled {
                    write!(page, ": settled after {}", s.steps);
                } else {
                    write!(page, ": unsettled after {}", s.steps);
                }
            }
            Err(refusal) => print::refusal(page, refusal),
        }
        print::output(page, out);
    }
}

// Whether two lists are the same, in words that end a line.
pub fn compare(page: &mut Page, xs: &[u32], ys: &[u32]) {
    if xs == ys {
        writeln!(page, "the same cells");
    } else {
        writeln!(page, "other cells");
    }
}

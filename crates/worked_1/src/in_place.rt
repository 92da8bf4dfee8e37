// One step in the one list that is lent: cells that a step would get wrong if it read new densities, the same step by a
// forecast and by a settling run, and the output that 19 leaves as it was.
use super::calls;
use super::calls::{Forecast, Settling};
use printing::Page;
use road::Road;
use scheme::{OPEN, Totals};
use std::array;
use worked::roads;

// As many cells as a road can have.
const MOST: usize = Road::CELLS as usize;

// One cell between empty ends.
const ONE: Settling = Settling {
    name: "settling one cell 101, ends 0, T 1",
    road: roads::A,
    cells: &[101],
    up: 0,
    down: 0,
    horizon: 1,
    caps: &[OPEN; 2],
    places: 1,
};

// One step by a forecast of a name and by a settling run, each in an output of its own.
fn both(page: &mut Page, name: &str, settling: Settling, out: &mut [u32], other: &mut [u32]) {
    write!(page, "{name}");
    settling
        .forecast(&[settling.up], &[settling.down])
        .tell(page, out);
    write!(page, "{}", settling.name);
    settling.tell(page, other);
    writeln!(page);
    calls::compare(page, out, other);
}

// Cells that change places: with an inflow from the new left cell all would be 0.
fn alternate(page: &mut Page) {
    Forecast {
        name: "cells 1 0 1 0 of the road with D p q 1, ends 0",
        road: roads::NARROWEST,
        cells: &[1, 0, 1, 0],
        ups: &[0],
        downs: &[0],
        horizon: 1,
        caps: &[OPEN; 5],
        totals: calls::NONE,
        places: 4,
    }
    .show(page);
}

// The most cells there can be, by both calls, and a forecast of them with a total that has no room for a unit: its output,
// of 7s, is compared with 7s.
fn most(page: &mut Page) {
    let cells: [u32; MOST] = array::from_fn(|i| [7, 2, 9][i % 3]);
    let many = Settling {
        name: "settling 256 cells 7 2 9 in turn between 1 and 0, T 1",
        cells: &cells,
        up: 1,
        caps: &[OPEN; MOST + 1],
        places: MOST,
        ..ONE
    };
    let mut out = [7; MOST];
    let mut other = [7; MOST];
    both(
        page,
        "256 cells 7 2 9 in turn between 1 and 0, T 1",
        many,
        &mut out,
        &mut other,
    );
    let mut out = [7; MOST];
    write!(page, "256 cells 7 2 9 in turn, total entered the largest");
    let full = Forecast {
        totals: Totals {
            entered: u64::MAX,
            left: 0,
        },
        ..many.forecast(&[1], &[0])
    };
    full.tell(page, &mut out);
    calls::compare(page, &[7; MOST], &out);
}

// Four cells, one cell, and the most.
pub fn cases(page: &mut Page) {
    alternate(page);
    both(page, "one cell 101, ends 0, T 1", ONE, &mut [7], &mut [7]);
    most(page);
}

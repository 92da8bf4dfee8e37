// Readings: the worked case, refusals with their places, and the edges.
use printing::Page;
use road::Road;
use worked::roads::{A, C_201};
use worked::{lists, print};

// A state: the road, the cells, the upstream and the downstream end.
#[derive(Clone, Copy)]
pub struct State<'a>(pub Road, pub &'a [u32], pub u32, pub u32);

impl State<'_> {
    // Its reading, and what that left in two outputs of 7s, of so many letters and of so many modes.
    pub fn read(self, page: &mut Page, letters: usize, modes: usize) {
        let State(road, cells, up, down) = self;
        let mut letters_out = lists::codes();
        let letters = lists::first(&mut letters_out, letters);
        let mut modes_out = lists::codes();
        let codes = lists::first(&mut modes_out, modes);
        match modes::read(road, cells, up, down, letters, codes) {
            Ok(counts) => {
                write!(page, ": counts");
                page.list(&counts.modes);
                write!(page, ", queued {}", counts.queued);
            }
            Err(refusal) => print::refusal(page, refusal),
        }
        write!(page, ", letters");
        print::list(page, letters);
        write!(page, ", modes");
        print::list(page, codes);
        writeln!(page);
    }
}

// A name, a state, and the places of the two outputs.
#[derive(Clone, Copy)]
struct Case(&'static str, State<'static>, usize, usize);

// The worked case and the refusals; then as few cells as a road can have, as many, and one beyond.
static CASES: [Case; 10] = [
    Case(
        "cells 300 150 700 between 100 and 0",
        State(A, &[300, 150, 700], 100, 0),
        4,
        3,
    ),
    Case("C 201", State(C_201, &[300, 150, 700], 100, 0), 4, 3),
    Case("no cells", State(A, &[], 100, 0), 4, 3),
    Case(
        "four modes for three cells",
        State(A, &[300, 150, 700], 100, 0),
        4,
        4,
    ),
    Case("cell 3 above J", State(A, &[300, 150, 1001], 1001, 0), 4, 3),
    Case(
        "upstream above J",
        State(A, &[300, 150, 700], 1001, 1001),
        4,
        3,
    ),
    Case(
        "downstream above J",
        State(A, &[300, 150, 700], 1000, 1001),
        4,
        3,
    ),
    Case("n 1", State(A, &[1000], 0, 0), 2, 1),
    Case("n 256", State(A, &[1000; 256], 0, 0), 257, 256),
    Case("n 257", State(A, &[1000; 257], 0, 0), 258, 257),
];

// All of them.
pub fn cases(page: &mut Page) {
    for case in &CASES {
        let Case(name, state, letters, modes) = *case;
        write!(page, "reading {name}");
        state.read(page, letters, modes);
    }
}

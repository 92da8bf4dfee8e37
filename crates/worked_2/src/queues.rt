// Readings of cells below, at and above critical, which is 200 on road A: how many are queued.
use super::readings::State;
use printing::Page;
use worked::roads::A;

// The two cells that the request names, in modes 6 and 3; one at critical, just above it and at it again, in modes 3, 6
// and 7; one above and one below it, both in mode 5; then two just above it, in modes 5 and 2, and three at it, in modes 4,
// 7 and 5.
static STATES: [State<'static>; 9] = [
    State(A, &[300], 100, 150),
    State(A, &[150], 300, 700),
    State(A, &[200], 300, 700),
    State(A, &[201], 100, 150),
    State(A, &[200], 100, 150),
    State(A, &[300], 100, 700),
    State(A, &[150], 100, 900),
    State(A, &[201, 201], 0, 0),
    State(A, &[200, 200, 200], 1000, 1000),
];

// The states by their numbers, and their readings.
pub fn cases(page: &mut Page) {
    for state in &STATES {
        let State(_, cells, up, down) = *state;
        write!(page, "reading cells");
        page.list(cells);
        write!(page, " between {up} and {down}");
        state.read(page, cells.len() + 1, cells.len());
    }
}

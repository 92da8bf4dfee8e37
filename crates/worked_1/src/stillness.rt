// Still steps: a settling run stops where a step would keep every density, and so has the cells of a forecast over its
// whole horizon. Each case by both calls, in one line.
use super::calls;
use super::calls::Settling;
use super::roads::{A, NARROWEST, Named, SLOWEST};
use printing::Page;
use scheme::OPEN;
use worked::lists;

// A road, the cells, the upstream end, the steps and the caps. The downstream end is empty.
#[derive(Clone, Copy)]
struct Case(Named, &'static [u32], u32, u32, &'static [u32]);

static CASES: [Case; 10] = [
    Case(NARROWEST, &[1, 0], 0, 9, &[OPEN; 3]),
    Case(NARROWEST, &[1, 0], 0, 1, &[OPEN; 3]),
    Case(NARROWEST, &[1, 0], 0, 2, &[OPEN; 3]),
    Case(NARROWEST, &[1, 0], 0, 3, &[OPEN; 3]),
    Case(A, &[2], 0, 9, &[OPEN; 2]),
    Case(A, &[34, 39], 39, 50, &[OPEN; 3]),
    Case(A, &[300, 300], 1000, 9, &[50, 49, 50]),
    Case(A, &[300, 300], 1000, 9, &[50, 50, 50]),
    Case(A, &[0; 256], 1000, 1440, &[OPEN; 257]),
    Case(SLOWEST, &[500_000], 0, 1440, &[OPEN; 2]),
];

// All cases: a settling run by its numbers, and whether a forecast leaves the same cells. A refused one leaves the 7s that
// it found, which no case comes to.
pub fn cases(page: &mut Page) {
    for case in &CASES {
        let Case(Named(name, road), cells, up, horizon, caps) = *case;
        let settling = Settling {
            name,
            road,
            cells,
            up,
            down: 0,
            horizon,
            caps,
            places: cells.len(),
        };
        write!(page, "{name}, cells");
        settling.list(page);
        let mut settled = lists::cells(7);
        let settled = lists::first(&mut settled, cells.len());
        settling.tell(page, settled);
        let mut forecast = lists::cells(7);
        let forecast = lists::first(&mut forecast, cells.len());
        // What it answers is left aside: the cells tell.
        let _ = settling
            .forecast(&lists::ends(up), &lists::ends(0))
            .made(forecast);
        write!(page, ", the forecast over T copies of the pair: ");
        calls::compare(page, settled, forecast);
    }
}

// The units that single faces move: the edges of the rounding to the nearest unit, an exact half up.
use super::calls;
use super::calls::Forecast;
use super::roads::{A, D_2177, HALVES, NARROWEST, Named, ONE_HALF, WIDEST};
use printing::Page;
use scheme::OPEN;
use worked::print;

// A road and the densities before and after a face.
#[derive(Clone, Copy)]
struct Face(Named, u32, u32);

static CASES: [Face; 18] = [
    Face(A, 1, 0),
    Face(A, 2, 0),
    Face(A, 3, 0),
    Face(A, 4, 0),
    Face(A, 200, 201),
    Face(A, 100, 601),
    Face(A, 200, 997),
    Face(A, 200, 998),
    Face(HALVES, 1, 0),
    Face(HALVES, 3, 0),
    Face(HALVES, 5, 0),
    Face(ONE_HALF, 1, 0),
    Face(ONE_HALF, 2, 0),
    Face(D_2177, 991_456, 0),
    Face(NARROWEST, 0, 0),
    Face(NARROWEST, 1, 0),
    Face(NARROWEST, 1, 2),
    Face(WIDEST, 499_999, 0),
];

// The faces, one by one. A face is that before the one cell of a forecast over one step: what enters is what it moves.
pub fn cases(page: &mut Page) {
    for case in &CASES {
        let Face(Named(name, road), before, after) = *case;
        write!(page, "{name}, face ({before}, {after})");
        let one_step = Forecast {
            name,
            road,
            cells: &[after],
            ups: &[before],
            downs: &[0],
            horizon: 1,
            caps: &[OPEN; 2],
            totals: calls::NONE,
            places: 1,
        };
        match one_step.made(&mut [7]) {
            Ok(d) => {
                let own = d.own;
                write!(page, ": moves {}", own.entered);
            }
            Err(refusal) => print::refusal(page, refusal),
        }
        writeln!(page);
    }
}

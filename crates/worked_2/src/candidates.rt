// Candidate predictions: numerators above, at and below zero, and refusals with their places.
use printing::Page;
use road::Road;
use std::num::f64_to_bits_with_nan;
use worked::print;
use worked::roads::{A, P_6};

// A name, a road, a mode, the left, own and right estimate, and the numerator that they should give, 0 where they are
// refused.
#[derive(Clone, Copy)]
struct Case(&'static str, Road, u8, f64, f64, f64, f64);

static CASES: [Case; 11] = [
    Case(
        "mode 6 on 100 300 150: 1100",
        A,
        6,
        100.0,
        300.0,
        150.0,
        1100.0,
    ),
    Case("mode 5 on 0 0 0: -1000", A, 5, 0.0, 0.0, 0.0, -1000.0),
    Case("mode 7 on a half unit: 2", A, 7, 0.5, 0.0, 0.0, 2.0),
    Case("mode 7 on -0.0 -0.0 -0.0: 0", A, 7, -0.0, -0.0, -0.0, 0.0),
    Case("mode 0", A, 0, 0.0, 0.0, 0.0, 0.0),
    Case("mode 8", A, 8, 0.0, 0.0, 0.0, 0.0),
    Case("left below 0", A, 1, -1.0, 2000.0, 0.0, 0.0),
    Case("own above J", A, 1, 1000.0, 1000.5, -1.0, 0.0),
    Case("right infinite", A, 1, 1000.0, 1000.0, f64::INFINITY, 0.0),
    Case("right not a number", A, 1, 1000.0, 1000.0, f64::NAN, 0.0),
    Case("on a road with p 6", P_6, 9, -1.0, 0.0, 0.0, 0.0),
];

// Whether two floats are the same, the sign of a zero counted.
fn same(x: f64, expected: f64) -> bool {
    f64_to_bits_with_nan(x) == f64_to_bits_with_nan(expected)
}

// Numerators, and the refusals of modes, of estimates and of a road, which goes before the rest.
pub fn cases(page: &mut Page) {
    for case in &CASES {
        let Case(name, road, mode, left, own, right, expected) = *case;
        write!(page, "candidate {name}");
        match candidate::candidate(road, mode, left, own, right) {
            Ok(p) if same(p.numerator, expected) => {
                write!(page, ": as expected");
            }
            Ok(_) => write!(page, ": another value"),
            Err(refusal) => print::refusal(page, refusal),
        }
        writeln!(page);
    }
}

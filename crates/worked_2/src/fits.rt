// Fit tests: the state's own word, foreign words, and refusals with their places.
use super::letters::{D, L, W, X, Y};
use printing::Page;
use road::Road;
use worked::print;
use worked::roads::{A, P_6};

// A name, a road, cells, the upstream end, and the word that the state is held to. The downstream end is empty.
#[derive(Clone, Copy)]
struct Case(&'static str, Road, &'static [u32], u32, &'static [u8]);

static CASES: [Case; 9] = [
    Case(
        "D L W L, the state's own",
        A,
        &[300, 150, 700],
        100,
        &[D, L, W, L],
    ),
    Case("D L W W", A, &[300, 150, 700], 100, &[D, L, W, W]),
    Case("W L W W", A, &[300, 150, 700], 100, &[W, L, W, W]),
    Case(
        "of three letters for three cells",
        A,
        &[300, 150, 700],
        100,
        &[D, L, W],
    ),
    Case(
        "with an unknown code at face 2",
        A,
        &[300, 150, 700],
        100,
        &[D, L, X, L],
    ),
    Case(
        "D W D L, an illegal pair",
        A,
        &[300, 150, 700],
        100,
        &[D, W, D, L],
    ),
    Case(
        "L L W L, an illegal pair",
        A,
        &[300, 150, 700],
        100,
        &[L, L, W, L],
    ),
    Case("on a road with p 6", P_6, &[300], 0, &[D]),
    Case("of a cell above J and a bad word", A, &[1001], 0, &[Y]),
];

// The own word, foreign words, refusals.
pub fn cases(page: &mut Page) {
    for case in &CASES {
        let Case(name, road, cells, up, word) = *case;
        write!(page, "fit {name}");
        match modes::fit(road, cells, up, 0, word) {
            Ok(None) => write!(page, ": all faces hold"),
            Ok(Some(face)) => write!(page, ": does not hold at face {face}"),
            Err(refusal) => print::refusal(page, refusal),
        }
        writeln!(page);
    }
}

// How near the next mode is: the worked cases, a tie, roundings, the smallest road, and refusals with their places.
use printing::Page;
use road::Road;
use worked::roads::{A, D_0, J_5, J_9, NARROWEST};
use worked::{lists, print};

// A name, a road, cells, the upstream and the downstream end, and the places of the two outputs.
#[derive(Clone, Copy)]
struct Case(&'static str, Road, &'static [u32], u32, u32, usize, usize);

static CASES: [Case; 15] = [
    Case(
        "of 300 150 700 between 100 and 0",
        A,
        &[300, 150, 700],
        100,
        0,
        3,
        3,
    ),
    Case(
        "of 400 between 100 and 204, a tie",
        A,
        &[400],
        100,
        204,
        1,
        1,
    ),
    Case("of 200 201 between 0 and 0", A, &[200, 201], 0, 0, 2, 2),
    Case(
        "of 6 9 9 between 1 and 0 on D 2, p 1, q 2, J 9, C 6",
        J_9,
        &[6, 9, 9],
        1,
        0,
        3,
        3,
    ),
    Case(
        "of 200 201 1000 0 400 between 100 and 204",
        A,
        &[200, 201, 1000, 0, 400],
        100,
        204,
        5,
        5,
    ),
    Case(
        "of 3 between 1 and 5 on D 5, p 2, q 3, J 5, C 3",
        J_5,
        &[3],
        1,
        5,
        1,
        1,
    ),
    Case(
        "of 0 between 0 and 0 on D p q 1, J 2",
        NARROWEST,
        &[0],
        0,
        0,
        1,
        1,
    ),
    Case("on D 0", D_0, &[300, 150, 700], 100, 0, 3, 3),
    Case("of no cells", A, &[], 100, 0, 0, 0),
    Case(
        "with two places for three numbers",
        A,
        &[300, 150, 700],
        100,
        0,
        2,
        3,
    ),
    Case(
        "with four places for three changes",
        A,
        &[300, 150, 700],
        100,
        0,
        3,
        4,
    ),
    Case(
        "with cells 2 and 3 above J",
        A,
        &[300, 1001, 1002],
        100,
        0,
        3,
        3,
    ),
    Case("with upstream above J", A, &[300, 150, 700], 1001, 0, 3, 3),
    Case(
        "with downstream above J",
        A,
        &[300, 150, 700],
        100,
        1001,
        3,
        3,
    ),
    Case(
        "with two places for three numbers and cell 2 above J",
        A,
        &[300, 1001, 700],
        100,
        0,
        2,
        3,
    ),
];

// All cases, one line each: the ranking and what it left in two outputs of 7s.
pub fn cases(page: &mut Page) {
    for case in &CASES {
        let Case(name, road, cells, up, down, numbers, changes) = *case;
        let mut numbers_out = [7; 5];
        let numbers = lists::first(&mut numbers_out, numbers);
        let mut changes_out = [7; 5];
        let changes = lists::first(&mut changes_out, changes);
        write!(page, "nearest {name}");
        match nearest::nearest(road, cells, up, down, numbers, changes) {
            Ok(()) => write!(page, ": done"),
            Err(refusal) => print::refusal(page, refusal),
        }
        write!(page, ", cells");
        page.list(numbers);
        write!(page, ", changes");
        page.list(changes);
        writeln!(page);
    }
}

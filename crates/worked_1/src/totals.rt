// Totals since commissioning: increased beside the own counts, at the largest and one unit past it, and carried along a
// chain.
use super::calls::Forecast;
use forecast::Record;
use printing::Page;
use scheme::{OPEN, Totals};
use worked::{print, roads};

// The starred cell between empty ends over one step, with totals so far.
const STARRED: Forecast = Forecast {
    name: "one cell 101, ends 0, totals 7 and 5",
    road: roads::A,
    cells: &[101],
    ups: &[0],
    downs: &[0],
    horizon: 1,
    caps: &[OPEN; 2],
    totals: Totals {
        entered: 7,
        left: 5,
    },
    places: 1,
};

// The same with both totals the largest.
pub const LARGEST: Forecast = Forecast {
    name: "T 1, both totals the largest",
    totals: Totals {
        entered: u64::MAX,
        left: u64::MAX,
    },
    ..STARRED
};

static CASES: [Forecast<'static>; 8] = [
    STARRED,
    Forecast {
        name: "total left that comes to the largest",
        totals: Totals {
            entered: 7,
            left: u64::MAX - 81,
        },
        ..STARRED
    },
    Forecast {
        name: "total left one unit past it",
        totals: Totals {
            entered: 7,
            left: u64::MAX - 80,
        },
        ..STARRED
    },
    Forecast {
        name: "upstream 1000, total entered that comes to the largest",
        ups: &[1000],
        totals: Totals {
            entered: u64::MAX - 160,
            left: 5,
        },
        ..STARRED
    },
    Forecast {
        name: "total entered one unit past it",
        ups: &[1000],
        totals: Totals {
            entered: u64::MAX - 159,
            left: 5,
        },
        ..STARRED
    },
    Forecast {
        name: "T 0, both totals the largest",
        ups: &[],
        downs: &[],
        horizon: 0,
        ..LARGEST
    },
    LARGEST,
    Forecast {
        name: "downstream above J, both totals the largest",
        downs: &[1001],
        ..LARGEST
    },
];

// The units of a forecast and the totals after it.
fn count(page: &mut Page, d: Record) {
    let own = d.own;
    let totals = d.totals;
    write!(
        page,
        ": entered {}, left {}, totals {} {}",
        own.entered, own.left, totals.entered, totals.left
    );
}

// The increase, the largest total, and one unit past it.
pub fn cases(page: &mut Page) {
    for forecast in &CASES {
        let mut out = [7];
        write!(page, "{}", forecast.name);
        match forecast.made(&mut out) {
            Ok(d) => count(page, d),
            Err(refusal) => print::refusal(page, refusal),
        }
        print::output(page, &out);
        writeln!(page);
    }
}

// The upstream and the downstream end of each call of a chain: the third is refused.
static CHAIN: [(u32, u32); 5] = [(100, 0), (100, 0), (1001, 0), (120, 0), (150, 900)];

// A site's cells and totals go through the calls, from the worked case's cells on, which have 1150 units: at every line 1150
// and the total entered are the units of the cells and the total left. A refused call leaves both as they were.
pub fn chain(page: &mut Page) {
    let mut cells = [300, 150, 700];
    let mut totals = Totals {
        entered: 0,
        left: 0,
    };
    for (up, down) in &CHAIN {
        write!(page, "chain, ends {up} and {down}");
        let mut out = [7; 3];
        let step = Forecast {
            cells: &cells,
            ups: &[*up],
            downs: &[*down],
            caps: &[OPEN; 4],
            totals,
            ..STARRED
        };
        match step.made(&mut out) {
            Ok(d) => {
                count(page, d);
                cells = out;
                totals = d.totals;
            }
            Err(refusal) => print::refusal(page, refusal),
        }
        write!(page, ", cells");
        print::cells(page, &cells);
        writeln!(page);
    }
}

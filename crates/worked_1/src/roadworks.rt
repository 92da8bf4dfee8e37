// Roadworks: caps below, at and above what a face would move, closed faces, caps past 2^31, and 20 among the other refusals.
// Each case by a forecast and by a settling run.
use super::calls::{Forecast, Settling};
use super::totals;
use printing::Page;
use scheme::OPEN;
use worked::{lists, roads};

// One cell between empty ends, and the worked case, over one step.
const ONE: Settling = Settling {
    name: "roadworks on cells",
    road: roads::A,
    cells: &[101],
    up: 0,
    down: 0,
    horizon: 1,
    caps: &[9, 30],
    places: 1,
};

const THREE: Settling = Settling {
    cells: &[300, 150, 700],
    up: 100,
    caps: &[80, 160, 60, 160],
    places: 3,
    ..ONE
};

static CASES: [Settling<'static>; 17] = [
    ONE,
    Settling {
        caps: &[9, 80],
        ..ONE
    },
    Settling {
        caps: &[9, 81],
        ..ONE
    },
    THREE,
    Settling {
        caps: &[79, 160, 60, 160],
        ..THREE
    },
    Settling {
        caps: &[OPEN, 50, OPEN, 100],
        ..THREE
    },
    Settling {
        horizon: 3,
        caps: &[OPEN, 50, OPEN, 100],
        ..THREE
    },
    Settling {
        horizon: 2,
        caps: &[0; 4],
        ..THREE
    },
    Settling {
        cells: &[300, 300],
        up: 1000,
        horizon: 9,
        caps: &[50; 3],
        places: 2,
        ..ONE
    },
    Settling {
        cells: &[300],
        horizon: 20,
        caps: &[0, 30],
        ..ONE
    },
    Settling {
        cells: &[300],
        up: 1000,
        caps: &[2_147_483_648, 2_147_483_653],
        ..ONE
    },
    Settling { caps: &[], ..ONE },
    Settling {
        caps: &[OPEN],
        ..ONE
    },
    Settling {
        caps: &[OPEN; 3],
        ..ONE
    },
    Settling {
        cells: &[1001],
        caps: &[OPEN],
        ..ONE
    },
    Settling {
        cells: &[1001],
        caps: &[OPEN],
        places: 2,
        ..ONE
    },
    Settling {
        cells: &[1001],
        caps: &[OPEN; 2],
        ..ONE
    },
];

// All cases, two lines each: a state by its numbers, and what each of the two calls makes of it.
pub fn cases(page: &mut Page) {
    for settling in &CASES {
        let ups = lists::ends(settling.up);
        let downs = lists::ends(settling.down);
        let mut out = lists::cells(7);
        write!(page, "{}", settling.name);
        settling.list(page);
        settling
            .forecast(&ups, &downs)
            .tell(page, lists::first(&mut out, settling.places));
        let settling = Settling {
            name: "settling the same",
            ..*settling
        };
        settling.show(page);
    }
}

// What is checked before 19, and that a closed face leaves a total as it is.
static FULL: [Forecast<'static>; 3] = [
    Forecast {
        name: "both totals the largest, a cell above J and two caps",
        cells: &[1001],
        ..totals::LARGEST
    },
    Forecast {
        name: "both totals the largest, one cap for one cell",
        caps: &[OPEN],
        ..totals::LARGEST
    },
    Forecast {
        name: "both totals the largest, the last face closed",
        caps: &[OPEN, 0],
        ..totals::LARGEST
    },
];

pub fn full_totals(page: &mut Page) {
    for forecast in &FULL {
        forecast.show(page);
    }
}

// Settling runs: the worked case, a unit that stays, a road that does not settle, refusals with their places, and the edges.
use super::calls::Settling;
use printing::Page;
use scheme::OPEN;
use worked::roads;

// One cell between empty ends, and two full ones between ends above J. All faces are open.
const ONE: Settling = Settling {
    name: "",
    road: roads::A,
    cells: &[2],
    up: 0,
    down: 0,
    horizon: 9,
    caps: &[OPEN; 2],
    places: 1,
};

const TWO: Settling = Settling {
    cells: &[1000, 1000],
    up: 1001,
    down: 1001,
    caps: &[OPEN; 3],
    places: 2,
    ..ONE
};

static CASES: [Settling<'static>; 14] = [
    Settling {
        name: "settling one cell 2, ends 0, T 9",
        ..ONE
    },
    Settling {
        name: "settling one cell 1 of the road with D 4, ends 0, T 9",
        road: roads::QUARTERS,
        cells: &[1],
        ..ONE
    },
    Settling {
        name: "settling one cell 1000, ends 0, T 3",
        cells: &[1000],
        horizon: 3,
        ..ONE
    },
    Settling {
        name: "settling one cell 1000, ends 0, T 1440",
        cells: &[1000],
        horizon: 1440,
        ..ONE
    },
    Settling {
        name: "settling one cell 2, T 0",
        horizon: 0,
        ..ONE
    },
    Settling {
        name: "settling C 201",
        road: roads::C_201,
        ..ONE
    },
    Settling {
        name: "settling T 1441",
        horizon: 1441,
        ..ONE
    },
    Settling {
        name: "settling T 1441, output of 2 for 1 cell",
        horizon: 1441,
        places: 2,
        ..ONE
    },
    Settling {
        name: "settling output of 2 for 1 cell",
        places: 2,
        ..ONE
    },
    Settling {
        name: "settling cell 2 above J",
        cells: &[1000, 1001],
        ..TWO
    },
    Settling {
        name: "settling upstream above J, T 0",
        horizon: 0,
        ..TWO
    },
    Settling {
        name: "settling downstream above J",
        up: 1000,
        ..TWO
    },
    Settling {
        name: "settling n 256, T 1440, a jam that dissolves",
        cells: &[1000; 256],
        horizon: 1440,
        caps: &[OPEN; 257],
        places: 256,
        ..ONE
    },
    Settling {
        name: "settling n 257",
        cells: &[1000; 257],
        caps: &[OPEN; 258],
        places: 257,
        ..ONE
    },
];

pub fn cases(page: &mut Page) {
    for settling in &CASES {
        settling.show(page);
    }
}

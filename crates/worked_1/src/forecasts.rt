// Forecasts: the worked cases, a refusal of each number with its place, and the edges with the refusal one beyond.
use super::calls;
use super::calls::Forecast;
use printing::Page;
use scheme::OPEN;
use worked::roads;

// The worked case of the document, of which most others tell what they have in its place. All faces are open.
const WORKED: Forecast = Forecast {
    name: "cells 300 150 700 between 100 and 0",
    road: roads::A,
    cells: &[300, 150, 700],
    ups: &[100],
    downs: &[0],
    horizon: 1,
    caps: &[OPEN; 4],
    totals: calls::NONE,
    places: 3,
};

// An empty cell between empty ends.
const ONE: Forecast = Forecast {
    cells: &[0],
    ups: &[0],
    caps: &[OPEN; 2],
    places: 1,
    ..WORKED
};

// As many full cells and steps as there can be, between empty ends.
const JAM: Forecast = Forecast {
    cells: &[1000; 256],
    ups: &[0; 1440],
    downs: &[0; 1440],
    horizon: 1440,
    caps: &[OPEN; 257],
    places: 256,
    ..WORKED
};

static CASES: [Forecast<'static>; 17] = [
    Forecast {
        name: "one cell 101, ends 0",
        cells: &[101],
        ..ONE
    },
    WORKED,
    Forecast {
        name: "cells 7 2 9 between 1 and 0",
        cells: &[7, 2, 9],
        ups: &[1],
        ..WORKED
    },
    Forecast {
        name: "cells 1 0 of the road with D p q 1, ends 0",
        road: roads::NARROWEST,
        cells: &[1, 0],
        caps: &[OPEN; 3],
        places: 2,
        ..ONE
    },
    Forecast {
        name: "D 0",
        road: roads::D_0,
        ..WORKED
    },
    Forecast {
        name: "p 6",
        road: roads::P_6,
        ..WORKED
    },
    Forecast {
        name: "C 1000",
        road: roads::C_1000,
        ..WORKED
    },
    Forecast {
        name: "C 201",
        road: roads::C_201,
        ..WORKED
    },
    Forecast {
        name: "no cells",
        cells: &[],
        caps: &[OPEN],
        ..WORKED
    },
    Forecast {
        name: "T 1441 with ends of 1",
        horizon: 1441,
        ..WORKED
    },
    Forecast {
        name: "two upstream ends for T 1",
        ups: &[100, 100],
        ..WORKED
    },
    Forecast {
        name: "no downstream end for T 1",
        downs: &[],
        ..WORKED
    },
    Forecast {
        name: "output of 2 for 3 cells",
        places: 2,
        ..WORKED
    },
    Forecast {
        name: "output of 2 and a cell above J",
        cells: &[300, 1001, 700],
        places: 2,
        ..WORKED
    },
    Forecast {
        name: "cells 2 and 3 above J",
        cells: &[1000, 1001, u32::MAX],
        ..WORKED
    },
    Forecast {
        name: "upstream above J at step 1",
        ups: &[1000, 1001],
        downs: &[1001, 0],
        horizon: 2,
        ..WORKED
    },
    Forecast {
        name: "downstream above J at step 0",
        ups: &[1000, 1000],
        downs: &[1001, 1001],
        horizon: 2,
        ..WORKED
    },
];

static EDGES: [Forecast<'static>; 13] = [
    Forecast {
        name: "n 3, T 0",
        cells: &[300; 3],
        ups: &[],
        downs: &[],
        horizon: 0,
        ..WORKED
    },
    Forecast {
        name: "n 1, T 1440, an empty road",
        ups: &[0; 1440],
        downs: &[0; 1440],
        horizon: 1440,
        ..ONE
    },
    Forecast {
        name: "n 1, T 1440",
        cells: &[1000],
        ups: &[1000; 1440],
        downs: &[0; 1440],
        horizon: 1440,
        ..ONE
    },
    Forecast {
        name: "n 256, T 1440, a jam that dissolves",
        ..JAM
    },
    Forecast {
        name: "n 256, T 1440, a jam that stays",
        ups: &[1000; 1440],
        downs: &[1000; 1440],
        ..JAM
    },
    Forecast {
        name: "D and J at their ceilings",
        road: roads::WIDEST,
        cells: &[1_000_000; 256],
        ups: &[1_000_000; 1440],
        ..JAM
    },
    Forecast {
        name: "D and J at their ceilings, one empty cell",
        road: roads::WIDEST,
        ups: &[1_000_000; 1440],
        downs: &[0; 1440],
        horizon: 1440,
        ..ONE
    },
    Forecast {
        name: "n 257",
        cells: &[300; 257],
        ups: &[1000],
        caps: &[OPEN; 258],
        places: 257,
        ..WORKED
    },
    Forecast {
        name: "no cells, T 1441",
        cells: &[],
        ups: &[0; 1441],
        downs: &[0; 1441],
        horizon: 1441,
        caps: &[OPEN],
        places: 0,
        ..ONE
    },
    Forecast {
        name: "T 1441",
        ups: &[0; 1441],
        downs: &[0; 1441],
        horizon: 1441,
        ..ONE
    },
    Forecast {
        name: "T 1441 with ends of 1440",
        ups: &[0; 1440],
        downs: &[0; 1440],
        horizon: 1441,
        ..ONE
    },
    Forecast {
        name: "T 4096 with ends of 1441",
        ups: &[0; 1441],
        downs: &[0; 1441],
        horizon: 4096,
        ..ONE
    },
    Forecast {
        name: "T 1440 with ends of 1439",
        ups: &[0; 1439],
        downs: &[0; 1439],
        horizon: 1440,
        ..ONE
    },
];

// The worked cases, and a refusal for each number of a forecast.
pub fn cases(page: &mut Page) {
    for forecast in &CASES {
        forecast.show(page);
    }
}

// The accepted edges, and one beyond each.
pub fn edges(page: &mut Page) {
    for forecast in &EDGES {
        forecast.show(page);
    }
}

// Station readings: the three kinds, their roundings, the edges of each refusal, and bad numbers in every place.
use printing::Page;
use road::Road;
use station::StationReading;
use station::StationReading::{Density, FlowAndSpeed, Speed};
use worked::print;
use worked::roads::{A, OTHER_WAVE, P_6, THIRDS};

// A name, a reading and its road.
#[derive(Clone, Copy)]
struct Case(&'static str, StationReading, Road);

static CASES: [Case; 18] = [
    Case("density 1000", Density(1000.0), A),
    Case("density just above 1000", Density(1000.0000000000001), A),
    Case("density -0.0", Density(-0.0), A),
    Case(
        "flow 80, speed 0.8 (100)",
        FlowAndSpeed {
            flow: 80.0,
            speed: 0.8,
        },
        A,
    ),
    Case(
        "flow 10, speed 0.3",
        FlowAndSpeed {
            flow: 10.0,
            speed: 0.3,
        },
        A,
    ),
    Case(
        "flow 1, speed 5e-324",
        FlowAndSpeed {
            flow: 1.0,
            speed: 5e-324,
        },
        A,
    ),
    Case(
        "flow 1e-300, speed 1e300 (0)",
        FlowAndSpeed {
            flow: 1e-300,
            speed: 1e300,
        },
        A,
    ),
    Case(
        "flow -0.0, speed 1",
        FlowAndSpeed {
            flow: -0.0,
            speed: 1.0,
        },
        A,
    ),
    Case(
        "flow 0, speed 0",
        FlowAndSpeed {
            flow: 0.0,
            speed: 0.0,
        },
        A,
    ),
    Case(
        "flow 0, speed -0.0",
        FlowAndSpeed {
            flow: 0.0,
            speed: -0.0,
        },
        A,
    ),
    Case("speed 0 (1000)", Speed(0.0), A),
    Case("speed -0.0 (1000)", Speed(-0.0), A),
    Case("speed 0.2 (500)", Speed(0.2), A),
    Case("speed 0.6 (250)", Speed(0.6), A),
    Case("speed just below 0.8 (200)", Speed(0.7999999999999999), A),
    Case("speed 0.8", Speed(0.8), A),
    Case("speed 1.7e308", Speed(1.7e308), A),
    Case("speed 0.1", Speed(0.1), A),
];

// Speeds on other roads, the last of which is refused.
static OTHER_ROADS: [Case; 3] = [
    Case("speed 0.3 on D 5, p 2, q 3, C 600", Speed(0.3), OTHER_WAVE),
    Case(
        "speed just below 1/3 on D 3, p q 1, J 2",
        Speed(0.3333333333333333),
        THIRDS,
    ),
    Case("speed not a number on p 6", Speed(f64::NAN), P_6),
];

// The numbers that no place takes.
static BAD: [(&str, f64); 5] = [
    ("not a number", f64::NAN),
    ("-1", -1.0),
    ("-5e-324", -5e-324),
    ("infinite", f64::INFINITY),
    ("minus infinite", f64::NEG_INFINITY),
];

// One reading: the bits of its estimate, or the refusal.
fn show(page: &mut Page, reading: StationReading, road: Road) {
    match station::station(road, reading) {
        Ok(e) => print::bits(page, e.density),
        Err(refusal) => print::refusal(page, refusal),
    }
    writeln!(page);
}

// The cases of a list.
fn all(page: &mut Page, cases: &[Case]) {
    for case in cases {
        let Case(name, reading, road) = *case;
        write!(page, "station {name}");
        show(page, reading, road);
    }
}

// A bad number in each place of each kind.
fn bad(page: &mut Page, name: &str, x: f64) {
    write!(page, "station density {name}");
    show(page, Density(x), A);
    write!(page, "station flow {name}");
    show(
        page,
        FlowAndSpeed {
            flow: x,
            speed: 1.0,
        },
        A,
    );
    write!(page, "station flow 1, speed {name}");
    show(
        page,
        FlowAndSpeed {
            flow: 1.0,
            speed: x,
        },
        A,
    );
    write!(page, "station speed {name}");
    show(page, Speed(x), A);
}

// Readings on road A, bad numbers, and readings on other roads.
pub fn cases(page: &mut Page) {
    all(page, &CASES);
    for (name, x) in &BAD {
        bad(page, name, *x);
    }
    all(page, &OTHER_ROADS);
}

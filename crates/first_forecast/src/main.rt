// The README's first forecast: one step of road A, printed.
#![tactic(auto)]

use road::Road;
use scheme::{OPEN, Totals};
use std::io;

fn main(rt: HostRuntime) -> io::Result<()> {
    let road = Road {
        divisor: 5,
        free: 4,
        wave: 1,
        jam: 1000,
        critical: 200,
    };
    let mut out = [0; 3];
    let totals = Totals {
        entered: 0,
        left: 0,
    };
    // A cap for each face, face 0 first: the most units that it moves in a step. All four are open.
    let caps = [OPEN; 4];
    match forecast::forecast(
        road,
        &[300, 150, 700],
        &[100],
        &[0],
        1,
        &caps,
        totals,
        &mut out,
    ) {
        Ok(record) => {
            let own = record.own;
            print!(rt; "entered {}, left {}, cells", own.entered, own.left)?;
            for x in &out {
                print!(rt; " {x}")?;
            }
            println!(rt)
        }
        Err(refusal) => println!(rt; "refused {} at {}", refusal.number(), refusal.place()),
    }
}

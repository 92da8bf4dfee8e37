// The worked cases of Level 1, run: roads, faces, forecasts, settling runs, still steps, totals, the step in its one list,
// roadworks. One line a case and a comparison, held to stdout.
#![tactic(auto)]

mod calls;
mod faces;
mod forecasts;
mod in_place;
mod roads;
mod roadworks;
mod settlings;
mod stillness;
mod totals;

use printing::{Form, Page, Stream, Streams};

fn main(rt: HostRuntime) {
    let streams = Streams {
        output: rt.stdout(),
        errors: rt.stderr(),
    };
    let mut page = Page::open(streams, Stream::Output, Form::Lines);
    roads::cases(&mut page);
    faces::cases(&mut page);
    forecasts::cases(&mut page);
    forecasts::edges(&mut page);
    settlings::cases(&mut page);
    stillness::cases(&mut page);
    totals::cases(&mut page);
    totals::chain(&mut page);
    in_place::cases(&mut page);
    roadworks::cases(&mut page);
    roadworks::full_totals(&mut page);
    page.send();
}

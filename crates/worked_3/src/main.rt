// The worked cases of Level 3, run: station readings, and how near the next mode is. One line a case, held to stdout.
#![tactic(auto)]

mod rankings;
mod stations;

use printing::{Form, Page, Stream, Streams};

fn main(rt: HostRuntime) {
    let streams = Streams {
        output: rt.stdout(),
        errors: rt.stderr(),
    };
    let mut page = Page::open(streams, Stream::Output, Form::Lines);
    stations::cases(&mut page);
    rankings::cases(&mut page);
    page.send();
}

// The worked cases of Level 2, run: readings, queues, fits, predictions, candidates, counts. One line a case, held to stdout.
#![tactic(auto)]

mod candidates;
mod counts;
mod fits;
mod letters;
mod predictions;
mod queues;
mod readings;

use printing::{Form, Page, Stream, Streams};

fn main(rt: HostRuntime) {
    let streams = Streams {
        output: rt.stdout(),
        errors: rt.stderr(),
    };
    let mut page = Page::open(streams, Stream::Output, Form::Lines);
    readings::cases(&mut page);
    queues::cases(&mut page);
    fits::cases(&mut page);
    predictions::cases(&mut page);
    candidates::cases(&mut page);
    counts::cases(&mut page);
    page.send();
}

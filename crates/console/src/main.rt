// The command line: reads a scenario, judges it, and then does what its keys ask. What it did is its status (status.rt).
#![tactic(auto)]

mod actions;

use cli_arguments::options::{About, Options, Picture};
use cli_arguments::usage;
use cli_intake::{errors, input, needs};
use cli_request::Status;
use printing::{Page, Stream, Streams};
use std::io::Input;
use std::rt::{Env, Files};

// A good text whose actions have all that they need is acted on; anything else gets one message and no result.
fn work<R: Env + Files>(rt: &R, page: &mut Page, o: Options, text: &[u8]) -> Status {
    if let Err(verdict) = cli_scenario::judge(text) {
        errors::wrong_text(rt, page.streams(), o.source, text, verdict);
        return Status::Text;
    }
    if let Err(unmet) = needs::met(text, o.picture.is_some()) {
        errors::unmet(rt, page.streams(), o.source, text, unmet);
        return Status::Text;
    }
    actions::all(rt, page, o, text)
}

// A text without the byte order mark that some editors put before it.
fn unmarked(text: &[u8]) -> &[u8] {
    text.strip_prefix(b"\xef\xbb\xbf").unwrap_or(text)
}

fn read_and_work<R: Env + Files + Input>(rt: &R, page: &mut Page, o: Options) -> Status {
    let mut room = [0; input::ROOM];
    match input::read(rt, page.streams(), o.source, &mut room) {
        Ok(text) => work(rt, page, o, unmarked(text)),
        Err(status) => status,
    }
}

// What the arguments ask for; the status.
fn asked<R: Env + Files + Input>(rt: &R, page: &mut Page, o: Options) -> Status {
    match (o.about, o.wrong) {
        (Some(About::Help), _) => {
            usage::help(page);
            Status::Done
        }
        (Some(About::Version), _) => {
            usage::version(page);
            Status::Done
        }
        (None, Some(wrong)) => {
            usage::refused(rt, page.streams(), wrong);
            Status::Text
        }
        (None, None) => read_and_work(rt, page, o),
    }
}

// Where the results go: where a picture goes to standard output, they do not.
fn results(o: Options) -> Stream {
    match o.picture {
        Some(Picture::StandardOutput) => Stream::Errors,
        _ => Stream::Output,
    }
}

// The status of the whole run, lost output included.
fn run<R: Env + Files + Input>(rt: &R, streams: Streams, o: Options) -> Status {
    let mut page = Page::open(streams, results(o), o.form);
    let status = asked(rt, &mut page, o);
    if page.send() {
        status
    } else {
        status.worst(Status::File)
    }
}

fn main(rt: HostRuntime) {
    let streams = Streams {
        output: rt.stdout(),
        errors: rt.stderr(),
    };
    let o = Options::parsed(&rt);
    let status = run(&rt, streams, o);
    if o.reports {
        status.report(&rt);
    }
}

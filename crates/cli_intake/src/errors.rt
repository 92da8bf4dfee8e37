// Messages on a text that is not acted on: its name, the line, what was expected there and what was found.
use super::needs::{Unmet, lacks, needed};
use super::pointing;
use cli_arguments::options::Source;
use cli_arguments::words;
use cli_request::{Action, keys};
use cli_scenario::{Verdict, line_of};
use cli_vocabulary::{Fault, Key, Values};
use printing::{Form, NAME, Page, Stream, Streams, WORD, plural};
use std::rt::Env;

// A message that begins with the text's name and a line, as compilers say it.
fn started(rt: &impl Env, streams: Streams, source: Source, line: u64) -> Page {
    let mut page = Page::open(streams, Stream::Errors, Form::Text);
    match source {
        Source::StandardInput => write!(page, "standard input"),
        Source::File(place) => words::show(rt, &mut page, place, NAME),
    }
    write!(page, ":{line}: error: ");
    page
}

// What the values of a key are: only lists take runs, and only a word letters.
fn kind(page: &mut Page, key: Key) {
    match key {
        Key::Word => write!(page, "letters W, L, D or codes"),
        _ => write!(page, "whole decimal numbers"),
    }
    if let Values::Many = key.values() {
        write!(page, ", each N or N^K (N, K times),");
    }
}

// The largest number of a key, and of a run's count where that is another one.
fn most(page: &mut Page, key: Key) {
    write!(page, "numbers up to {}", key.most());
    if let Key::Word = key {
        write!(page, ", counts up to 4294967295,");
    }
}

// What the values of a key are called, where they have names.
fn called(key: Key) -> &'static str {
    match key {
        Key::Road => " (D p q J C)",
        Key::Pair => " (upstream downstream)",
        Key::Totals => " (entered left)",
        Key::Density | Key::Flow | Key::Speed => " (A B, for A / B)",
        Key::Estimates | Key::Bits => " (left own right)",
        _ => "",
    }
}

// How many values a key takes.
fn count(page: &mut Page, key: Key) {
    match key.values() {
        Values::Many => write!(page, "1 or more values"),
        Values::Exactly(0) => write!(page, "nothing"),
        Values::Exactly(n) => write!(page, "{n} number{}{}", plural(n as u64), called(key)),
    }
}

// A word as it was found.
fn found(page: &mut Page, word: &[u8]) {
    write!(page, ", found ");
    page.show(word, WORD);
}

// What was expected of a key's line, and what was found.
fn of_key(page: &mut Page, text: &[u8], v: Verdict, key: Key) {
    match v.fault {
        Fault::NotANumber => kind(page, key),
        Fault::TooLarge => most(page, key),
        Fault::WrongCount => count(page, key),
        _ => write!(page, "only one line of "),
    }
    if v.fault != Fault::GivenAgain {
        write!(page, " after ");
    }
    keys::name(page, key);
    match v.fault {
        Fault::WrongCount => {
            let values = pointing::values(text, v.line);
            write!(page, ", found {values} value{}", plural(values as u64));
        }
        Fault::GivenAgain => {
            let line = line_of(text, key).unwrap_or_default();
            write!(page, ", found one before in line {line}");
        }
        _ => found(page, pointing::wrong_value(text, v.line, key)),
    }
}

// What was expected of a line, and what was found in its place.
fn of_line(page: &mut Page, text: &[u8], v: Verdict) {
    match v.fault {
        Fault::LongLine => write!(page, "a line of at most 4096 bytes"),
        Fault::NoEnd => write!(page, "a line of end; the text stops before it"),
        Fault::EmptyText => write!(page, "lines of keywords; there is nothing in the text"),
        Fault::AfterEnd => {
            write!(page, "nothing after end");
            found(page, pointing::keyword(text, v.line));
        }
        _ => {
            write!(page, "a keyword (--help has them)");
            found(page, pointing::keyword(text, v.line));
        }
    }
}

// What is wrong with a text.
pub fn wrong_text(rt: &impl Env, streams: Streams, source: Source, text: &[u8], v: Verdict) {
    let mut page = started(rt, streams, source, v.line);
    write!(page, "expected ");
    match (v.fault, v.key) {
        (Fault::NotANumber | Fault::TooLarge | Fault::WrongCount | Fault::GivenAgain, Some(key)) =>
            of_key(&mut page, text, v, key),
        _ => of_line(&mut page, text, v),
    }
    writeln!(page);
    page.send();
}

// The keys that an action needs and the text lacks.
fn lacking(page: &mut Page, text: &[u8], action: Action) {
    keys::name(page, action.key());
    write!(page, " needs");
    for key in needed(action) {
        if lacks(text, *key) {
            write!(page, " ");
            keys::name(page, *key);
        }
    }
}

// The key in whose first line it shows that a text is not acted on.
fn pointed(unmet: Unmet) -> Key {
    match unmet {
        Unmet::Keys(action) => action.key(),
        Unmet::NoAction | Unmet::NoForecast => Key::End,
        Unmet::BothEstimates | Unmet::NoEstimates => Key::Candidate,
        Unmet::MixedReading | Unmet::NoReading => Key::Station,
    }
}

// Why a text is not acted on.
pub fn unmet(rt: &impl Env, streams: Streams, source: Source, text: &[u8], unmet: Unmet) {
    let line = line_of(text, pointed(unmet)).unwrap_or_default();
    let mut page = started(rt, streams, source, line);
    match unmet {
        Unmet::NoAction => write!(
            page,
            "expected an action: forecast, settle, read, readlast, fit, rows, candidate, count, station or nearest"
        ),
        Unmet::NoForecast => write!(page, "--picture needs forecast"),
        Unmet::Keys(action) => lacking(&mut page, text, action),
        Unmet::BothEstimates => write!(page, "candidate takes estimates or bits, not both"),
        Unmet::NoEstimates => write!(page, "candidate needs estimates or bits"),
        Unmet::MixedReading => write!(
            page,
            "station takes density, or flow and speed, or speed alone"
        ),
        Unmet::NoReading => write!(page, "station needs density, or flow and speed, or speed"),
    }
    writeln!(page);
    page.send();
}

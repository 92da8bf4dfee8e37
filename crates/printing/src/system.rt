// What the system says of a call that failed.
use std::fmt::InlineText;
use std::io::{Error, Print};
use std::rt::Stderr;

// The room for the words of an error; the longest of the system's has some fifty bytes.
const ROOM: usize = 128;

// The words of an error, without the number that may stand behind them.
pub fn words(error: Error) -> InlineText<ROOM> {
    let words = InlineText::<ROOM>::of(error);
    let numberless = words.as_str().split_once(" (os error ");
    match numberless {
        Some((before, _)) => InlineText::of(before),
        None => words,
    }
}

// Standard output was lost.
pub fn tell(errors: Stderr, error: Error) {
    let words = words(error);
    let said = words.as_str();
    let _ = errors.println(format_args!("standard output: {said}"));
}

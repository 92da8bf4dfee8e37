// The words of the arguments, each read into a buffer: it need not be text, which is all that std's `args` gives.
ghost use Rattle.io.specs.Counts.{IsPrefixLen};

use printing::Page;
use std::env::FillError;
use std::io::{Error, ErrorKind};
use std::rt::Env;
use std::str;

// Whether the argument at a place is this word.
pub fn is_argument(rt: &impl Env, place: usize, wanted: &[u8]) -> bool {
    let mut word = io::buffer();
    match rt.arg(place, &mut word) {
        Ok(n) => &word[..n] == wanted,
        Err(_) => false,
    }
}

// The argument at a place, at the start of a buffer; how many bytes. None where there is none, or where it is too long.
pub fn copied(rt: &impl Env, place: usize, buf: &mut [u8]) -> usize
    ensures { IsPrefixLen result buf.new }
{
    rt.arg(place, buf).unwrap_or(0)
}

// A word as the path of a file. The system's calls take text, so a name that is none is refused.
pub fn path(word: &[u8]) -> Result<&str, Error> {
    str::from_utf8(word).or(Err(Error::from(ErrorKind::InvalidFilename)))
}

// The argument at a place, up to so many bytes. One that is too long for a path has its start in the buffer.
pub fn show(rt: &impl Env, page: &mut Page, place: usize, most: usize) {
    let mut word = io::buffer();
    match rt.arg(place, &mut word) {
        Ok(n) => page.show(&word[..n], most),
        Err(FillError::TooLong) => page.show(&word, most),
        Err(FillError::NotPresent) => {}
    }
}

// Words: the s of a plural, and somebody's words, in which no control character is shown.
ghost use Rattle.std.specs.Prelude.{◌≡◌, ◌≢◌, [], ◌∷◌};
ghost use Rattle.printing.specs.Visible.{Visible};

use super::page::{Form, Page, Stream, Streams};
use super::system;
use std::io::Error;

// The s of a word that a number counts.
pub fn plural(n: u64) -> &'static str
    ensures one { n ≡ 1 → result.now ≡ [] }
    ensures more { n ≢ 1 → result.now ≡ 115 ∷ [] }
{
    if n == 1 { "" } else { "s" }
}

// A byte as it is shown: no control character of ASCII.
fn visible(b: u8) -> u8
    ensures { Visible result }
{
    match b {
        0..=31 | 127 => b'?',
        _ => b,
    }
}

// How much of a word of a text, or of a wrong argument, is shown.
pub const WORD: usize = 80;

// As much of a file's name is shown as a path can have.
pub const NAME: usize = 4096;

impl Page {
    // The start of somebody's words, and dots where there is more.
    pub fn show(&mut self, word: &[u8], most: usize) {
        for b in word.iter().take(most) {
            self.put(visible(*b));
        }
        if most < word.len() {
            write!(self, "...");
        }
    }
}

impl Streams {
    // What the system says of a call on the file of a name that failed, on standard error.
    pub fn tell(self, name: &[u8], error: Error) {
        let mut page = Page::open(self, Stream::Errors, Form::Text);
        page.show(name, NAME);
        let words = system::words(error);
        let said = words.as_str();
        writeln!(page, ": {said}");
        page.send();
    }
}

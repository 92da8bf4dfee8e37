// A page: what is to be written to a stream, gathered until the page is full or is sent, and whether all of it went out.
ghost use Rattle.std.specs.Prelude.{◌≡◌, ◌<◌, [], ◌∷◌, ◌++◌};
ghost use Rattle.arrayvec.specs.ArrayVec.{array_vec_len};

use super::system;
use arrayvec::ArrayVec;
use std::fmt;
use std::io::{Error, Print};
use std::rt::{Stderr, Stdout};

// The streams that a program writes to.
#[derive(Clone, Copy)]
pub struct Streams {
    pub output: Stdout,
    pub errors: Stderr,
}

impl Streams {
    fn write(self, to: Stream, bytes: &[u8]) -> Result<(), Error> {
        match to {
            Stream::Output => self.output.write_all(bytes),
            Stream::Errors => self.errors.write_all(bytes),
        }
    }
}

// One of them.
#[derive(Clone, Copy, PartialEq, Eq)]
pub enum Stream {
    Output,
    Errors,
}

// How a page is laid out: in lines for a program to read, or as text for people.
#[derive(Clone, Copy, Default, PartialEq, Eq)]
pub enum Form {
    Lines,
    #[default]
    Text,
}

const SIZE: usize = 4092;

// A page for one of the streams.
#[derive(Drop)]
pub struct Page {
    streams: Streams,
    to: Stream,
    form: Form,
    // whether something was lost
    lost: bool,
    bytes: ArrayVec<u8, SIZE>,
}

impl Page {
    // An empty page.
    pub fn open(streams: Streams, to: Stream, form: Form) -> Page
        ensures empty { array_vec_len result.bytes ≡ 0 }
        ensures form { result.form ≡ form }
        ensures to { result.to ≡ to }
    {
        Page {
            streams,
            to,
            form,
            lost: false,
            bytes: ArrayVec::new(),
        }
    }

    pub fn streams(&self) -> Streams
        ensures { result ≡ self.now.streams }
    {
        self.streams
    }

    pub fn form(&self) -> Form
        ensures { result ≡ self.now.form }
    {
        self.form
    }

    // Writes what the page holds; whether nothing of it was ever lost. The first loss of standard output is said, and
    // after a loss nothing is tried. (What standard error loses cannot be said anywhere.)
    pub fn send(&mut self) -> bool
        ensures emptied { array_vec_len self.new.bytes ≡ 0 }
    {
        if !self.lost {
            if let Err(e) = self.streams.write(self.to, self.bytes.as_slice()) {
                if self.to == Stream::Output {
                    system::tell(self.streams.errors, e);
                }
                self.lost = true;
            }
        }
        self.bytes.clear();
        !self.lost
    }

    // One byte more, for which a full page is sent.
    pub fn put(&mut self, b: u8)
        ensures room { array_vec_len self.old.bytes < 4092 → self.new.bytes.items ≡ self.old.bytes.items ++ b ∷ [] }
        ensures full { array_vec_len self.old.bytes ≡ 4092 → self.new.bytes.items ≡ b ∷ [] }
    {
        if self.bytes.is_full() {
            self.send();
        }
        self.bytes.push(b);
    }

    // What `write!` and `writeln!` call. A page remembers what it lost, so that there is no result to look at.
    pub fn write_fmt<D: fmt::Display + Drop>(&mut self, text: D) {
        let _ = fmt::Write::write_fmt(self, text);
    }
}

impl fmt::Write for Page {
    fn write_str(&mut self, s: &str) -> fmt::Result {
        for b in s.as_bytes() {
            self.put(*b);
        }
        Ok(())
    }
}

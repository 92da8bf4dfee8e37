// The text: from a file or from standard input, whole or not at all.
ghost use Rattle.std.specs.Prelude.{◌≡◌, ◌<◌, IfOk, length};

use cli_arguments::options::Source;
use cli_arguments::words;
use cli_request::Status;
use printing::{Form, NAME, Page, Stream, Streams};
use std::fs::File;
use std::io::{Error, Input, Read};
use std::rt::{Env, Files};

// The longest text, and the room for it: one byte more, by which a longer one is noticed.
const MOST: usize = 262_144;

pub const ROOM: usize = MOST + 1;

// That room, with its equation, so that a moved one is refused here.
pub fn room() -> usize
    ensures { result ≡ 262145 }
{
    ROOM
}

// Why a text is not there: it is too long, or the system refused something.
enum Unread {
    TooLong,
    Failed(Error),
}

impl From<Error> for Unread {
    fn from(error: Error) -> Unread {
        Unread::Failed(error)
    }
}

impl Unread {
    // What is said of the text's name; the status.
    fn tell(self, streams: Streams, name: &[u8]) -> Status {
        match self {
            Unread::TooLong => {
                let mut page = Page::open(streams, Stream::Errors, Form::Text);
                page.show(name, NAME);
                writeln!(page, ": longer than {MOST} bytes, the most that is read");
                page.send();
                Status::Text
            }
            Unread::Failed(error) => {
                streams.tell(name, error);
                Status::File
            }
        }
    }
}

// All that a reader gives, where it leaves room. A read brings as many bytes as it likes: no `for` steps through them.
fn filled<'a, R: Read>(from: &mut R, room: &'a mut [u8]) -> Result<&'a [u8], Unread>
    ensures { IfOk result (λ text. length text.now < length room.old) }
{
    let mut end = 0;
    while end < room.len() {
        match from.read(&mut room[end..])? {
            0 => return Ok(&room[..end]),
            count => end += count,
        }
    }
    Err(Unread::TooLong)
}

fn of_file<'a, R: Files>(rt: &R, path: &[u8], room: &'a mut [u8]) -> Result<&'a [u8], Unread>
    ensures { IfOk result (λ text. length text.now < length room.old) }
{
    let mut file = File::open(rt, words::path(path)?)?;
    filled(&mut file, room)
}

// The text of a source, at the start of the room, or the status where it is not there.
pub fn read<'a, R: Env + Files + Input>(
    rt: &R,
    streams: Streams,
    source: Source,
    room: &'a mut [u8],
) -> Result<&'a [u8], Status>
    ensures { IfOk result (λ text. length text.now < length room.old) }
{
    match source {
        Source::StandardInput => filled(&mut rt.reader(), room).map_err(|unread| unread.tell(
            streams,
            b"standard input",
        )),
        Source::File(place) => {
            let mut path = io::buffer();
            let n = words::copied(rt, place, &mut path);
            of_file(rt, &path[..n], room).map_err(|unread| unread.tell(streams, &path[..n]))
        }
    }
}

// The status of a run: of several the largest. 4, a run that was cut off, is the script's to say.
ghost use Rattle.cli_request.specs.Status.{Worst, WorstOf};

use std::fs::OpenOptions;
use std::io::Write;
use std::rt::Files;

#[derive(Clone, Copy, Debug, PartialEq, Eq, PartialOrd, Ord)]
pub enum Status {
    // All was done.
    Done,
    // The library refused an action.
    Refused,
    // The arguments or the scenario's text were not understood.
    Text,
    // A file could not be read or written.
    File,
}

// Where the script reads a status: what the program was given as its descriptor 3, by the name that the system has for it.
const DESCRIPTOR: &str = "/dev/fd/3";

impl Status {
    // The larger one.
    pub fn worst(self, other: Status) -> Status
        ensures { Worst self other result }
    {
        self.max(other)
    }

    // The status as one digit, for the script: behind what stands there, should it be a file.
    pub fn report(self, rt: &impl Files) {
        if let Ok(mut file) = OpenOptions::new().append(true).open(rt, DESCRIPTOR) {
            let _ = file.write_all(&[b'0' + self as u8]);
        }
    }
}

// The larger of two statuses by their digits, which are any bytes.
pub fn worst(a: u8, b: u8) -> u8
    ensures { WorstOf a b result }
{
    a.max(b)
}

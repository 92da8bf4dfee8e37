// What a refusal means, in words, with its place.
use super::{Action, keys};
use printing::{Form, Page, plural};
use refusal::Refusal;
use road::Road;

// The most faces.
const FACES: usize = Road::CELLS as usize + 1;

// How many ends a forecast is given, and its steps.
#[derive(Clone, Copy)]
pub struct Lengths {
    pub upstream: usize,
    pub downstream: usize,
    pub horizon: u32,
}

impl Lengths {
    // Which list of ends is at fault, or that both are.
    fn tell(self, page: &mut Page) {
        let steps = self.horizon as usize;
        if self.upstream != steps {
            of_ends(page, "upstream", self.upstream, self.horizon);
        }
        if self.upstream != steps && self.downstream != steps {
            write!(page, "; ");
        }
        if self.downstream != steps {
            of_ends(page, "downstream", self.downstream, self.horizon);
        }
    }
}

// A list of ends that has not one for each step. One that is too long was clipped, to one more than the most steps.
fn of_ends(page: &mut Page, list: &str, ends: usize, horizon: u32) {
    let most = Road::HORIZON;
    if ends > most as usize {
        write!(page, "the {list} list has more than {most} ends");
    } else {
        write!(
            page,
            "the {list} list has {ends} end{}",
            plural(ends as u64)
        );
    }
    write!(
        page,
        ", the horizon is {horizon} step{}",
        plural(horizon as u64)
    );
}

// A list of caps that has not one for each face. One that is too long was clipped, to one more than the most faces.
fn of_caps(page: &mut Page, caps: usize, cells: usize) {
    if caps > FACES {
        write!(page, "the cap list has more than {FACES} caps");
    } else {
        write!(page, "the cap list has {caps} cap{}", plural(caps as u64));
    }
    write!(
        page,
        ", the road has {} faces",
        cells.saturating_add(1).min(FACES)
    );
}

// An action that was refused: why, and what a message tells of its input besides. A forecast has lengths, since each of its
// steps has ends of its own.
#[derive(Clone, Copy)]
pub struct Refused {
    pub refusal: Refusal,
    pub cells: usize,
    pub caps: usize,
    pub lengths: Option<Lengths>,
}

// A refusal of what has neither cells nor caps.
impl From<Refusal> for Refused {
    fn from(refusal: Refusal) -> Refused {
        Refused {
            refusal,
            cells: 0,
            caps: 0,
            lengths: None,
        }
    }
}

impl Refused {
    // An end, with its step where each step has its own.
    fn of_end(self, page: &mut Page, side: &str, step: u32) {
        match self.lengths {
            Some(_) => write!(
                page,
                "the {side} end of step {step} (from 0) is above the jam density"
            ),
            None => write!(page, "the {side} end of pair is above the jam density"),
        }
    }

    // A word: a place beyond the last face says that the length is wrong.
    fn of_word(self, page: &mut Page, face: u32) {
        if face as usize > self.cells {
            write!(
                page,
                "the word does not have one letter more than there are cells"
            );
        } else {
            write!(
                page,
                "face {face} of the word has an unknown letter, or one that may not follow the letter before"
            );
        }
    }

    fn meaning(self, page: &mut Page) {
        match self.refusal {
            Refusal::Divisor => write!(page, "the divisor D is not from 1 to {}", Road::DIVISOR),
            Refusal::Speeds => write!(page, "the speed p or q is not from 1 to D"),
            Refusal::Densities => write!(
                page,
                "the jam density J is not from 2 to {}, or the critical density C not from 1 to J - 1",
                Road::JAM
            ),
            Refusal::Balance => write!(page, "p times C differs from q times (J - C)"),
            Refusal::Cells => write!(page, "the number of cells is not from 1 to {}", Road::CELLS),
            Refusal::Horizon => write!(page, "the horizon is above {} steps", Road::HORIZON),
            Refusal::Ends => {
                if let Some(lengths) = self.lengths {
                    lengths.tell(page);
                }
            }
            Refusal::Output => write!(page, "an output has another length than the call fills"),
            Refusal::Cell(cell) => write!(page, "cell {cell} is above the jam density"),
            Refusal::Upstream(step) => self.of_end(page, "upstream", step),
            Refusal::Downstream(step) => self.of_end(page, "downstream", step),
            Refusal::Word(face) => self.of_word(page, face),
            Refusal::Mode => write!(page, "the mode is not from 1 to 7"),
            Refusal::Estimate(place) => of_estimate(page, place),
            Refusal::WordCount => write!(
                page,
                "words are counted for at most {} cells",
                Road::COUNT
            ),
            Refusal::StationNumber => write!(
                page,
                "a station's number is not a number, below 0 or infinite, or a speed beside a flow is 0"
            ),
            Refusal::StationSpeed => write!(
                page,
                "a station's lone speed times D, rounded, is not below p: no single density"
            ),
            Refusal::StationDensity => write!(
                page,
                "a station's estimate is not from 0 to the jam density"
            ),
            Refusal::Totals => write!(
                page,
                "a total since commissioning would pass 18446744073709551615"
            ),
            Refusal::Caps => of_caps(page, self.caps, self.cells),
        }
    }

    // What is said of the action.
    pub fn tell(self, page: &mut Page, action: Action) {
        let number = self.refusal.number();
        let place = self.refusal.place();
        match page.form() {
            Form::Lines => {
                write!(page, "refused {number} {place} ");
                keys::name(page, action.key());
            }
            Form::Text => {
                keys::name(page, action.key());
                write!(page, "\n  refused {number} {place}: ");
                self.meaning(page);
            }
        }
        writeln!(page);
    }
}

// An estimate, of which the place says which it is: 1, 2 or 3 in the refusal table, which C reads too.
fn of_estimate(page: &mut Page, place: u32) {
    let which = match place {
        1 => "left",
        2 => "own",
        _ => "right",
    };
    write!(
        page,
        "the {which} estimate is not a number, or not from 0 to the jam density"
    );
}

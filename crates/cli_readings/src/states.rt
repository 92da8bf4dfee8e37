// The reading of a state: the one at the start, or the forecast's last one.
use arrayvec::ArrayVec;
use cli_request::numbers::{CELLS, FACES};
use cli_request::{Action, Forecast, Refused, State, caps, is_given, keys, numbers};
use cli_vocabulary::Key;
use modes::Counts;
use printing::{Form, Page, plural};

// Which state is read.
#[derive(Clone, Copy)]
enum Moment {
    // the one at the start, beside a forecast or alone
    Start { is_told: bool },
    // the one after so many steps of a forecast, with how many caps that are not open
    Last { steps: u32, narrowed: usize },
}

impl Moment {
    fn action(self) -> Action {
        match self {
            Moment::Start { is_told: _ } => Action::Read,
            Moment::Last {
                steps: _,
                narrowed: _,
            } => Action::Readlast,
        }
    }

    // Which state it is, where a forecast stands beside it, and with which caps that forecast was made.
    fn tell(self, page: &mut Page, faces: usize) {
        match self {
            Moment::Last { steps, narrowed } => {
                write!(page, " after {steps} step{}", plural(u64::from(steps)));
                caps::tell(page, narrowed, faces);
            }
            Moment::Start { is_told: true } => write!(page, " at the start"),
            Moment::Start { is_told: false } => {}
        }
    }
}

// The seven counts, mode 1 first.
fn tell_counts(page: &mut Page, counts: Counts) {
    let [a, b, c, d, e, f, g] = counts.modes;
    write!(page, "{a} {b} {c} {d} {e} {f} {g}");
}

fn report(page: &mut Page, moment: Moment, counts: Counts, letters: &[u8], modes: &[u8]) {
    let n = modes.len();
    let queued = counts.queued;
    let key = moment.action().key();
    match page.form() {
        Form::Lines => {
            write!(page, "done ");
            keys::name(page, key);
            write!(page, " {queued} ");
            tell_counts(page, counts);
            write!(page, " {n}");
            page.letters(letters);
            page.list(modes);
            writeln!(page);
        }
        Form::Text => {
            keys::name(page, key);
            write!(page, " of {n} cell{}", plural(n as u64));
            moment.tell(page, letters.len());
            write!(page, "\n  cells in mode 1 to 7: ");
            tell_counts(page, counts);
            writeln!(page, "\n  queued (above C) {queued}");
            writeln!(page, "  letters of the faces");
            page.letters(letters);
            writeln!(page, "  modes of the cells");
            page.list(modes);
        }
    }
}

// The reading of a state at a moment.
fn read(page: &mut Page, moment: Moment, state: &State) -> Result<(), Refused> {
    let n = state.cells.len();
    let mut letters: ArrayVec<u8, FACES> = numbers::filled(0, n + 1);
    let mut modes: ArrayVec<u8, FACES> = numbers::filled(0, n);
    let counts = modes::read(
        state.road,
        &state.cells,
        state.up,
        state.down,
        &mut letters,
        &mut modes,
    )
    .map_err(|refusal| state.refused(refusal))?;
    report(page, moment, counts, &letters, &modes);
    Ok(())
}

// The reading of a text's cells.
pub fn act(page: &mut Page, text: &[u8]) -> Result<(), Refused> {
    let is_told = is_given(text, Key::Forecast) || is_given(text, Key::Readlast);
    read(page, Moment::Start { is_told }, &State::of(text))
}

// The reading of the forecast's last state. What the forecast refuses is refused here too.
pub fn act_on_last(page: &mut Page, text: &[u8]) -> Result<(), Refused> {
    let run = Forecast::of(text);
    let (_, cells) = run.made()?;
    let moment = Moment::Last {
        steps: run.horizon,
        narrowed: caps::narrowed(&run.caps),
    };
    read(page, moment, &State::at(text, cells))
}

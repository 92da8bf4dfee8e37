// What --help and --version print, and what a wrong argument gets.
use super::options::Wrong;
use super::words;
use printing::{Form, Page, Stream, Streams, WORD};
use std::rt::Env;
use version::{MAJOR, MINOR, PATCH};

fn synopsis(page: &mut Page) {
    write!(
        page,
        "usage: welgadou [--lines] [--picture OUT.bmp] [FILE]
Reads a scenario from FILE, or from standard input where FILE is missing or -,
and does what it asks. Bad input is refused with a number and a place.

  --lines            one line for each action: done .., or refused N P ACTION
  --picture OUT.bmp  also draw the forecast: steps across, cells upward; with -
                     to standard output, and the results to standard error
  --help, -h         print this
  --version          print the version
  --                 what follows is FILE

Status: 0 all done, 1 an action was refused, 2 usage or scenario text, 3 a file
could not be read or written, 4 the run was cut off or could not begin; of
several the largest.

",
    );
}

fn given(page: &mut Page) {
    write!(
        page,
        "A scenario has a keyword and its values on each line; # starts a comment.
A value is N; in lists also N^K for N, K times: cells 20^40 is 40 cells of
density 20. The last keyword is end.

  road D p q J C     divisor, free speed, wave speed, jam and critical density
  cells N ..         densities, cell 1 first; several lines are joined
  upstream N ..      the upstream end at each step; joined
  downstream N ..    the downstream end at each step; joined
  pair UP DOWN       the end pair of settle, read, readlast, fit, rows, nearest
  horizon T          steps
  totals E L         units entered and left since commissioning; 0 0 without it
  caps N ..          the most that each face moves a step, face 0 first; joined;
                     all open without it
  word X ..          letters W, L, D or codes 0, 1, 2, face 0 first; joined
  mode M             1 to 7
  estimates L O R    left, own and right, whole
  bits L O R         the same, each as the 64 bits of a double
  density A B        a station's density, A / B
  flow A B           its flow in units a step, A / B
  speed A B          its speed in cells a step, A / B

",
    );
}

fn asked(page: &mut Page) {
    write!(
        page,
        "  forecast           needs road cells upstream downstream horizon; takes totals
                     and caps
  settle             needs road cells pair horizon; takes caps
  read               needs road cells pair; the state at the start
  readlast           needs what forecast does, and pair; the state at the end
  fit                needs road cells pair word
  rows               needs road cells pair word
  candidate          needs road mode, and estimates or bits
  count N            legal words for N cells
  station            needs road, and density, or flow and speed, or speed
  nearest            needs road cells pair; how near each cell's next mode is
  end                the last keyword
",
    );
}

// What --help prints.
pub fn help(page: &mut Page) {
    synopsis(page);
    given(page);
    asked(page);
}

// What --version prints.
pub fn version(page: &mut Page) {
    writeln!(page, "welgadou {MAJOR}.{MINOR}.{PATCH}");
}

// What is wrong with the arguments.
pub fn refused(rt: &impl Env, streams: Streams, wrong: Wrong) {
    let mut page = Page::open(streams, Stream::Errors, Form::Text);
    match wrong {
        Wrong::Argument(place) => {
            write!(page, "unexpected argument: ");
            if words::is_argument(rt, place, b"") {
                write!(page, "(an empty one)");
            } else {
                words::show(rt, &mut page, place, WORD);
            }
        }
        Wrong::NoPath => write!(page, "--picture needs the path of a file"),
    }
    writeln!(
        page,
        "\nusage: welgadou [--lines] [--picture OUT.bmp] [FILE], or --help"
    );
    page.send();
}

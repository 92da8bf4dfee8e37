// The picture of a forecast: every step is worked before the file is opened.
#![tactic(auto)]

mod files;
mod rows;
mod steps;

use cli_arguments::options::Picture as Target;
use cli_arguments::words;
use cli_request::{Forecast, Refused, Status};
use printing::{Form, Page, Streams};
use rows::Picture;
use std::io::Error;
use std::rt::{Env, Files};

fn report(page: &mut Page, picture: &Picture) {
    let width = picture.width;
    let height = picture.height;
    match page.form() {
        Form::Lines => writeln!(page, "done picture {width} {height}"),
        Form::Text => writeln!(
            page,
            "picture\n  {width} by {height} pixels; a step is {} wide, a cell {} high",
            picture.across, picture.upward
        ),
    }
}

// The picture at a path, by way of the temporary name that the argument at a place is, where there is one.
fn saved_at<R: Env + Files>(
    rt: &R,
    through: Option<usize>,
    path: &[u8],
    picture: &Picture,
) -> Result<(), Error> {
    let Some(place) = through else {
        return files::overwrite(rt, path, picture);
    };
    let mut temporary = io::buffer();
    let n = words::copied(rt, place, &mut temporary);
    files::replace(rt, &temporary[..n], path, picture)
}

// What came of a name; why it failed is said of it.
fn told(streams: Streams, name: &[u8], done: Result<(), Error>) -> Status {
    match done {
        Ok(()) => Status::Done,
        Err(e) => {
            streams.tell(name, e);
            Status::File
        }
    }
}

fn saved<R: Env + Files>(
    rt: &R,
    streams: Streams,
    through: Option<usize>,
    to: Target,
    picture: &Picture,
) -> Status {
    match to {
        Target::StandardOutput => {
            let mut output = streams.output;
            told(streams, b"standard output", picture.write(&mut output))
        }
        Target::Path { place, from } => {
            let mut word = io::buffer();
            let n = words::copied(rt, place, &mut word);
            let path = word[..n].get(from..).unwrap_or(&[]);
            told(streams, path, saved_at(rt, through, path, picture))
        }
    }
}

// The picture of a forecast that was made. What was said before goes out first.
pub fn act<R: Env + Files>(
    rt: &R,
    page: &mut Page,
    through: Option<usize>,
    to: Target,
    run: &mut Forecast,
) -> Result<Status, Refused> {
    let mut shades = steps::blank();
    steps::work(run, &mut shades).map_err(|refusal| run.refused(refusal))?;
    let picture = Picture::of(&shades, run.cells.len(), run.upstream.len() + 1);
    page.send();
    let status = saved(rt, page.streams(), through, to, &picture);
    if status == Status::Done {
        report(page, &picture);
    }
    Ok(status)
}

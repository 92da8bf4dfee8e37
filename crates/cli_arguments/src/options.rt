// The arguments: [--lines] [--picture OUT.bmp] [FILE], after those of the script `welgadou`, if it starts the program.
// What is read later is told by its place: without a heap there is nothing to keep its words in.
use super::words;
use printing::Form;
use std::env::FillError;
use std::rt::Env;

// What there is to be told about the program, and nothing else done.
#[derive(Clone, Copy)]
pub enum About {
    Help,
    Version,
}

// What is wrong with the arguments: the first that is not understood, by its place, or a picture without a path.
#[derive(Clone, Copy)]
pub enum Wrong {
    Argument(usize),
    NoPath,
}

// Where the scenario comes from: the file that the argument at a place names, or standard input.
#[derive(Clone, Copy, Default)]
pub enum Source {
    #[default]
    StandardInput,
    File(usize),
}

// Where the picture goes: to the path that the argument at a place has from one of its bytes on, or to standard output,
// and then the results to standard error.
#[derive(Clone, Copy)]
pub enum Picture {
    StandardOutput,
    Path { place: usize, from: usize },
}

// What the next argument is: the picture's path, FILE whatever it starts with, or anything.
#[derive(Clone, Copy, Default)]
enum Next {
    #[default]
    Anything,
    Path,
    File,
}

// What the arguments ask for.
#[derive(Clone, Copy, Default)]
pub struct Options {
    // whether the script asks for the status
    pub reports: bool,
    // the place of the picture's temporary name among the arguments, where the script gives one
    pub through: Option<usize>,
    pub form: Form,
    pub about: Option<About>,
    pub wrong: Option<Wrong>,
    pub picture: Option<Picture>,
    pub source: Source,
    // whether FILE was given
    named: bool,
    next: Next,
}

impl Options {
    // Argument i is not understood.
    fn refuse(&mut self, i: usize) {
        if !matches!(self.wrong, Some(Wrong::Argument(_))) {
            self.wrong = Some(Wrong::Argument(i));
        }
    }

    // A picture has no path, which is said where each argument is understood.
    fn miss_path(&mut self) {
        self.wrong = self.wrong.or(Some(Wrong::NoPath));
    }

    // Argument i, from a byte on, as the picture's path; `-` is standard output.
    fn take_picture(&mut self, i: usize, from: usize, path: &[u8]) {
        self.next = Next::Anything;
        if path.is_empty() {
            self.miss_path();
        }
        if self.picture.is_some() {
            self.refuse(i);
        } else {
            self.picture = match path {
                b"-" => Some(Picture::StandardOutput),
                _ => Some(Picture::Path { place: i, from }),
            };
        }
    }

    // Argument i as FILE; `-` is standard input.
    fn take_file(&mut self, i: usize, word: &[u8]) {
        if self.named || word.is_empty() {
            return self.refuse(i);
        }
        self.named = true;
        self.source = match word {
            b"-" => Source::StandardInput,
            _ => Source::File(i),
        };
    }

    // Argument i where it starts like an option.
    fn take_option(&mut self, i: usize, word: &[u8]) {
        match word {
            b"--lines" => self.form = Form::Lines,
            b"--picture" => self.next = Next::Path,
            b"--" => self.next = Next::File,
            b"--help" | b"-h" => self.about = Some(About::Help),
            b"--version" => self.about = self.about.or(Some(About::Version)),
            _ => match word.strip_prefix(b"--picture=") {
                Some(path) => self.take_picture(i, word.len() - path.len(), path),
                None => self.refuse(i),
            },
        }
    }

    fn take(&mut self, i: usize, word: &[u8]) {
        match self.next {
            Next::Path => self.take_picture(i, 0, word),
            Next::Anything if 1 < word.len() && word[0] == b'-' => self.take_option(i, word),
            _ => self.take_file(i, word),
        }
    }

    // The script's own arguments: --for-script and the picture's temporary name, which may be empty.
    fn of_script(rt: &impl Env) -> Options {
        let reports = words::is_argument(rt, 1, b"--for-script");
        let names = reports && !words::is_argument(rt, 2, b"");
        Options {
            reports,
            through: names.then_some(2),
            ..Options::default()
        }
    }

    // All arguments, from first to last.
    pub fn parsed(rt: &impl Env) -> Options {
        let mut o = Options::of_script(rt);
        let first = if o.reports { 3 } else { 1 };
        for i in first..usize::MAX {
            let mut word = io::buffer();
            match rt.arg(i, &mut word) {
                Ok(n) => o.take(i, &word[..n]),
                Err(FillError::TooLong) => o.refuse(i),
                Err(FillError::NotPresent) => break,
            }
        }
        if matches!(o.next, Next::Path) {
            o.miss_path();
        }
        o
    }
}

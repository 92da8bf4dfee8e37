// The actions of a scenario.
ghost use Rattle.std.specs.Prelude.{◌≡◌};
ghost use Rattle.cli_request.specs.Actions.{key_of};

use cli_vocabulary::Key;

#[derive(Clone, Copy)]
pub enum Action {
    Forecast,
    Settle,
    Read,
    Readlast,
    Fit,
    Rows,
    Candidate,
    Count,
    Station,
    Nearest,
}

impl Action {
    // All of them, in the order in which they are done.
    pub const ALL: [Action; 10] = [
        Action::Forecast,
        Action::Settle,
        Action::Read,
        Action::Readlast,
        Action::Fit,
        Action::Rows,
        Action::Candidate,
        Action::Count,
        Action::Station,
        Action::Nearest,
    ];

    // The key that asks for it.
    pub fn key(self) -> Key
        ensures { result ≡ key_of self }
    {
        match self {
            Action::Forecast => Key::Forecast,
            Action::Settle => Key::Settle,
            Action::Read => Key::Read,
            Action::Readlast => Key::Readlast,
            Action::Fit => Key::Fit,
            Action::Rows => Key::Rows,
            Action::Candidate => Key::Candidate,
            Action::Count => Key::Count,
            Action::Station => Key::Station,
            Action::Nearest => Key::Nearest,
        }
    }
}

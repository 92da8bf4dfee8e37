// The actions of a text, in a fixed order.
use cli_arguments::options::Options;
use cli_predictions::{candidates, counts, predictions};
use cli_readings::{fits, states};
use cli_request::{Action, Refused, Status, is_given};
use cli_runs::{forecasts, settlings};
use cli_site::{rankings, stations};
use printing::Page;
use std::rt::{Env, Files};

// One action of the text; the status. Each takes what it needs: a table of functions, all of one type, would be no plainer.
fn done<R: Env + Files>(
    rt: &R,
    page: &mut Page,
    o: Options,
    text: &[u8],
    action: Action,
) -> Result<Status, Refused> {
    match action {
        Action::Forecast => return forecasts::act(rt, page, o, text),
        Action::Settle => settlings::act(page, text)?,
        Action::Read => states::act(page, text)?,
        Action::Readlast => states::act_on_last(page, text)?,
        Action::Fit => fits::act(page, text)?,
        Action::Rows => predictions::act(page, text)?,
        Action::Candidate => candidates::act(page, text)?,
        Action::Count => counts::act(page, text)?,
        Action::Station => stations::act(page, text)?,
        Action::Nearest => rankings::act(page, text)?,
    }
    Ok(Status::Done)
}

// The same, and what is said where it was refused. What it wrote goes out before the next one begins.
fn told<R: Env + Files>(
    rt: &R,
    page: &mut Page,
    o: Options,
    text: &[u8],
    action: Action,
) -> Status {
    let status = match done(rt, page, o, text, action) {
        Ok(status) => status,
        Err(refused) => {
            refused.tell(page, action);
            Status::Refused
        }
    };
    page.send();
    status
}

// All actions that the text asks for; the worst status.
pub fn all<R: Env + Files>(rt: &R, page: &mut Page, o: Options, text: &[u8]) -> Status {
    let mut status = Status::Done;
    for action in Action::ALL {
        if is_given(text, action.key()) {
            status = status.worst(told(rt, page, o, text, action));
        }
    }
    status
}

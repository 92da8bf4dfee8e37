// What each action needs: all of it is checked before anything is done.
use cli_request::{Action, is_given, numbers};
use cli_vocabulary::Key;

// Why a text is not acted on.
#[derive(Clone, Copy)]
pub enum Unmet {
    // it asks for no action
    NoAction,
    // a picture is asked for, but no forecast
    NoForecast,
    // an action lacks some of its keys
    Keys(Action),
    // a candidate has both estimates and bits, or neither
    BothEstimates,
    NoEstimates,
    // a station has a density beside a flow or a speed, or no reading
    MixedReading,
    NoReading,
}

// The keys that an action needs. A candidate and a station need more, of which they leave a choice.
pub(crate) fn needed(action: Action) -> &'static [Key] {
    match action {
        Action::Forecast => &[
            Key::Road,
            Key::Cells,
            Key::Upstream,
            Key::Downstream,
            Key::Horizon,
        ],
        Action::Settle => &[Key::Road, Key::Cells, Key::Pair, Key::Horizon],
        Action::Read | Action::Nearest => &[Key::Road, Key::Cells, Key::Pair],
        Action::Readlast => &[
            Key::Road,
            Key::Cells,
            Key::Upstream,
            Key::Downstream,
            Key::Horizon,
            Key::Pair,
        ],
        Action::Fit | Action::Rows => &[Key::Road, Key::Cells, Key::Pair, Key::Word],
        Action::Candidate => &[Key::Road, Key::Mode],
        Action::Count => &[],
        Action::Station => &[Key::Road],
    }
}

// Whether the horizon is given as 0.
fn goes_nowhere(text: &[u8]) -> bool {
    if !is_given(text, Key::Horizon) {
        return false;
    }
    let [horizon]: [u32; 1] = numbers::numbers(text, Key::Horizon);
    horizon == 0
}

// Whether a text lacks a key that it needs. Only a forecast of no step goes without ends.
pub(crate) fn lacks(text: &[u8], key: Key) -> bool {
    if is_given(text, key) {
        return false;
    }
    match key {
        Key::Upstream | Key::Downstream => !goes_nowhere(text),
        _ => true,
    }
}

// Exactly one of estimates and bits.
fn estimates(text: &[u8]) -> Result<(), Unmet> {
    match (is_given(text, Key::Estimates), is_given(text, Key::Bits)) {
        (true, true) => Err(Unmet::BothEstimates),
        (false, false) => Err(Unmet::NoEstimates),
        _ => Ok(()),
    }
}

// A density alone, a flow and a speed, or a speed alone.
fn reading(text: &[u8]) -> Result<(), Unmet> {
    match is_given(text, Key::Density) {
        true if is_given(text, Key::Flow) || is_given(text, Key::Speed) => Err(Unmet::MixedReading),
        false if !is_given(text, Key::Speed) => Err(Unmet::NoReading),
        _ => Ok(()),
    }
}

// What an action that is asked for needs.
fn has(text: &[u8], action: Action) -> Result<(), Unmet> {
    if needed(action).iter().any(|key| lacks(text, *key)) {
        return Err(Unmet::Keys(action));
    }
    match action {
        Action::Candidate => estimates(text),
        Action::Station => reading(text),
        _ => Ok(()),
    }
}

// That a text can be acted on: it asks for something, and for nothing that it does not give what it needs.
pub fn met(text: &[u8], draws: bool) -> Result<(), Unmet> {
    if !Action::ALL
        .iter()
        .any(|action| is_given(text, action.key()))
    {
        return Err(Unmet::NoAction);
    }
    if draws && !is_given(text, Key::Forecast) {
        return Err(Unmet::NoForecast);
    }
    for action in Action::ALL {
        if is_given(text, action.key()) {
            has(text, action)?;
        }
    }
    Ok(())
}

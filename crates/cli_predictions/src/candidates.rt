// The candidate prediction.
use cli_request::{Refused, is_given, numbers};
use cli_vocabulary::Key;
use printing::{Form, Page, doubles};

// The estimates, left, own and right: by their bits, or whole decimals.
fn estimates(text: &[u8]) -> [f64; 3] {
    if is_given(text, Key::Bits) {
        numbers::numbers(text, Key::Bits).map(doubles::of_bits)
    } else {
        let whole: [u32; 3] = numbers::numbers(text, Key::Estimates);
        whole.map(f64::from)
    }
}

// The candidate prediction of a text.
pub fn act(page: &mut Page, text: &[u8]) -> Result<(), Refused> {
    let [mode]: [u8; 1] = numbers::numbers(text, Key::Mode);
    let [left, own, right] = estimates(text);
    let prediction = candidate::candidate(numbers::road(text), mode, left, own, right)?;
    match page.form() {
        Form::Lines => write!(page, "done candidate "),
        Form::Text => writeln!(page, "candidate of mode {mode}"),
    }
    page.double("numerator", prediction.numerator);
    Ok(())
}

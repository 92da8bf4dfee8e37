// The density estimate of a station's reading.
use cli_request::{Refused, is_given, numbers};
use cli_vocabulary::Key;
use printing::{Form, Page, doubles};
use station::StationReading;

// The reading of a text, which is one of the three kinds.
fn reading(text: &[u8]) -> StationReading {
    if is_given(text, Key::Density) {
        return StationReading::Density(numbers::quotient(text, Key::Density));
    }
    let speed = numbers::quotient(text, Key::Speed);
    if is_given(text, Key::Flow) {
        let flow = numbers::quotient(text, Key::Flow);
        StationReading::FlowAndSpeed { flow, speed }
    } else {
        StationReading::Speed(speed)
    }
}

// For a person, an estimate that is not whole, to three decimals.
fn about(page: &mut Page, x: f64) {
    if doubles::whole(x).is_some() {
        return;
    }
    if let Some(n) = doubles::truncated(x * 1000.0 + 0.5) {
        let thousandths = n.unsigned_abs();
        let whole = thousandths / 1000;
        writeln!(page, "  estimate about {whole}.{:03}", thousandths % 1000);
    }
}

// The station of a text.
pub fn act(page: &mut Page, text: &[u8]) -> Result<(), Refused> {
    let estimate = station::station(numbers::road(text), reading(text))?.density;
    match page.form() {
        Form::Lines => {
            write!(page, "done station ");
            page.double("estimate", estimate);
        }
        Form::Text => {
            writeln!(page, "station");
            page.double("estimate", estimate);
            about(page, estimate);
        }
    }
    Ok(())
}

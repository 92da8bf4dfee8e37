// The word count.
use cli_request::{Refused, numbers};
use cli_vocabulary::Key;
use printing::{Form, Page, plural};

// The word count of a text.
pub fn act(page: &mut Page, text: &[u8]) -> Result<(), Refused> {
    let [cells]: [u32; 1] = numbers::numbers(text, Key::Count);
    let words = counting::count(cells)?.words;
    match page.form() {
        Form::Lines => writeln!(page, "done count {cells} {words}"),
        Form::Text => {
            writeln!(page, "count for {cells} cell{}", plural(u64::from(cells)));
            writeln!(page, "  legal words {words}");
        }
    }
    Ok(())
}

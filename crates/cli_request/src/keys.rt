// The names of the keys, and which of them are given.
ghost use Rattle.std.specs.Prelude.{◌≡◌, is_some};
ghost use Rattle.cli_scenario.specs.Values.{line_of};

use cli_vocabulary::Key;
use printing::Page;

// A key's name, without the blanks that pad it.
pub fn name(page: &mut Page, key: Key) {
    for b in key.keyword() {
        if b != b' ' {
            page.put(b);
        }
    }
}

// Whether a text has a line of a key.
pub fn is_given(text: &[u8], key: Key) -> bool
    ensures { result ≡ is_some (line_of key text.now) }
{
    cli_scenario::line_of(text, key).is_some()
}

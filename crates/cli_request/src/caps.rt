// The caps of the faces: the text's, or open ones where it has none, and what is said of them.
ghost use Rattle.std.specs.Prelude.{◌≡◌, ◌+◌, IsSome, IsNone, length, min};
ghost use Rattle.arrayvec.specs.ArrayVec.{array_vec_len};
ghost use Rattle.road.specs.Ceilings.{cells_ceiling};
ghost use Rattle.cli_scenario.specs.Values.{line_of, values_of};

use super::numbers::FACES;
use super::{is_given, numbers};
use arrayvec::ArrayVec;
use cli_vocabulary::Key;
use printing::Page;
use scheme::OPEN;

// The caps of a text, clipped to the room, or an open one for each face of its cells where it has no line of them. Lines that
// list none are no open caps: the library refuses them.
pub fn of(text: &[u8], cells: &[u32]) -> ArrayVec<u32, FACES>
    ensures given { IsSome (line_of Key.Caps text.now) → array_vec_len result ≡ min (length (values_of Key.Caps text.now)) (cells_ceiling + 2) }
    ensures open { IsNone (line_of Key.Caps text.now) → array_vec_len result ≡ min (length cells.now + 1) (cells_ceiling + 2) }
{
    if is_given(text, Key::Caps) {
        numbers::list(text, Key::Caps)
    } else {
        numbers::filled(OPEN, cells.len() + 1)
    }
}

// How many caps are not open.
pub fn narrowed(caps: &[u32]) -> usize {
    caps.iter().filter(|cap| **cap != OPEN).count()
}

// Behind what a report begins with: that all caps are open, or how many of the faces have one that is not.
pub fn tell(page: &mut Page, narrowed: usize, faces: usize) {
    match narrowed {
        0 => write!(page, ", caps open"),
        _ => write!(page, ", caps on {narrowed} of {faces} faces"),
    }
}

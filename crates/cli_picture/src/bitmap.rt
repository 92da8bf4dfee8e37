// The start of a bitmap file, before its rows: two letters, thirteen numbers of four bytes each, and the palette.
ghost use Rattle.std.specs.Prelude.{◌≡◌, ◌<◌, length};
ghost use Rattle.cli_picture.specs.Listed.{listed};
ghost use Rattle.cli_picture.specs.Bitmap.{byte_of, header_word, palette_byte, start_byte};

use super::palette::channel;
use super::sizes::row_bytes;

// Byte i of a number, the lowest first.
pub fn byte_of(n: u32, i: usize) -> u8
    requires { i < 4 }
    ensures { result ≡ byte_of n i }
{
    n.to_le_bytes()[i]
}

// Number k of the thirteen that follow the two letters.
#[tactic(auto, unfolding(crate::specs::Bitmap::header_word))]
fn header_word(k: usize, width: u16, height: u16) -> u32
    requires { k < 13 }
    ensures { result ≡ header_word width height k }
{
    let pixels = row_bytes(width) * u32::from(height);
    let words = [
        pixels + 1078,
        0,
        1078,
        40,
        u32::from(width),
        u32::from(height),
        524289,
        0,
        pixels,
        2835,
        2835,
        256,
        0,
    ];
    words[k]
}

// Byte k of the palette: blue, green, red and a zero for each shade.
#[tactic(auto, unfolding(crate::specs::Bitmap::palette_byte))]
fn palette_byte(k: usize) -> u8
    requires { k < 1024 }
    ensures { result ≡ palette_byte k }
{
    let shade = (k / 4) as u8;
    [
        channel(0, shade),
        channel(85, shade),
        channel(170, shade),
        0,
    ][k % 4]
}

// Byte `at` of a file of width times height pixels, up to its first row.
#[tactic(auto, unfolding(crate::specs::Bitmap::start_byte))]
pub fn start_byte(width: u16, height: u16, at: usize) -> u8
    ensures { result ≡ start_byte width height at }
{
    match at {
        0..2 => b"BM"[at],
        2..54 => byte_of(header_word((at - 2) / 4, width, height), (at - 2) % 4),
        54..1078 => palette_byte(at - 54),
        _ => 0,
    }
}

// The output then holds the file's bytes from its first one on; 1,078 of them come before the rows. (`stretch` fills a list
// too: one function for both would take the byte as a closure, and each is one line as it is.)
#[tactic(auto, using(crate::proofs::Listing::begins, crate::proofs::Listing::turns, crate::proofs::Listing::ends))]
pub fn write_start(width: u16, height: u16, out: &mut [u8])
    ensures { out.new ≡ listed (length out.old) (start_byte width height) }
{
    for (i, b) in out.iter_mut().enumerate() {
        *b = start_byte(width, height, i);
    }
}

// The sizes of a picture: a cell's block of pixels, and a row's bytes.
ghost use Rattle.std.specs.Prelude.{◌≡◌, ℕ};
ghost use Rattle.cli_picture.specs.Bitmap.{scale_of, row_bytes};

// How many pixels each of `count` steps or cells takes, so that all of them come to about `target`: from 1 to 32.
pub fn scale(count: u32, target: u32) -> u32
    ensures { result ≡ scale_of count target }
{
    if count == 0 {
        return 1;
    }
    (target / count).clamp(1, 32)
}

// A row's bytes: one a pixel, filled up to a multiple of four.
pub fn row_bytes(width: u16) -> u32
    ensures { result ≡ row_bytes width }
{
    (u32::from(width) + 3) / 4 * 4
}

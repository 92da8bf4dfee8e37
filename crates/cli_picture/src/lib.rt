// What a space-time diagram is made of: the shade of a density, the colour of a shade, the size of a cell's block of
// pixels, and the bytes of a bitmap file (BMP, 8 bits a pixel, with a palette). Steps run across, cells upward.
#![tactic(auto)]

mod bitmap;
mod palette;
mod rows;
mod sizes;

pub use bitmap::write_start;
pub use palette::shade;
pub use rows::stretch;
pub use sizes::{row_bytes, scale};

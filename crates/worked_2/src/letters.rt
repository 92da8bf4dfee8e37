// The codes of the letters, and two codes that are no letters, the first and another. A word is bytes, as C gives it, and
// the cases hand over what no letter is.
pub const W: u8 = 0;

pub const L: u8 = 1;

pub const D: u8 = 2;

pub const X: u8 = 3;

pub const Y: u8 = 9;

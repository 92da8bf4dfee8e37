// Doubles: one of given bits, and one on a page, by its bits and, where it is whole, its decimals.
ghost use Rattle.std.specs.Prelude.{◌≡◌, from_bits};
ghost use lib.Ieee.{binary64};

use super::page::{Form, Page};
use std::num::{
    f64_from_bits_with_nan, f64_to_bits_with_nan, nearest_i64_to_f64, truncating_f64_to_i64,
};

// The double of 64 bits. The bits of a NaN, of whatever kind, give a NaN.
pub fn of_bits(n: u64) -> f64
    ensures { result ≡ from_bits binary64 n }
{
    f64_from_bits_with_nan(n)
}

// The double without its fraction, where 64 bits with a sign hold it.
pub fn truncated(x: f64) -> Option<i64> {
    if x >= -9223372036854775808.0 && x < 9223372036854775808.0 {
        Some(truncating_f64_to_i64(x))
    } else {
        None
    }
}

// The double itself where it is whole.
pub fn whole(x: f64) -> Option<i64> {
    truncated(x).filter(|n| nearest_i64_to_f64(*n) == x)
}

impl Page {
    // A double under its name, up to the end of its last line.
    pub fn double(&mut self, name: &str, x: f64) {
        let bits = f64_to_bits_with_nan(x);
        match self.form() {
            Form::Lines => write!(self, "{bits}"),
            Form::Text => write!(
                self,
                "  bits of the {name} {bits} (hexadecimal {bits:016x})"
            ),
        }
        if let Some(n) = whole(x) {
            match self.form() {
                Form::Lines => write!(self, " {n}"),
                Form::Text => write!(self, "\n  {name} {n}"),
            }
        }
        writeln!(self);
    }
}

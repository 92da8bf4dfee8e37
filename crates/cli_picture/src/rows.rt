// A row of the picture: the shades of one cell, step by step, each over a block's width of pixels.
ghost use Rattle.std.specs.Prelude.{◌≡◌, length};
ghost use Rattle.cli_picture.specs.Listed.{listed};
ghost use Rattle.cli_picture.specs.Bitmap.{pixel_of};

// The shade at pixel x, and 0 past the last step.
#[tactic(auto, unfolding(crate::specs::Bitmap::pixel_of))]
fn pixel(shades: &[u8], across: u32, x: usize) -> u8
    ensures { result ≡ pixel_of shades.now across x }
{
    if across == 0 {
        return 0;
    }
    let step = x / across as usize;
    shades.get(step).copied().unwrap_or(0)
}

// The output then holds a row's bytes, each shade `across` times.
#[tactic(auto, using(crate::proofs::Listing::begins, crate::proofs::Listing::turns, crate::proofs::Listing::ends))]
pub fn stretch(shades: &[u8], across: u32, out: &mut [u8])
    ensures { out.new ≡ listed (length out.old) (pixel_of shades.now across) }
{
    for (x, b) in out.iter_mut().enumerate() {
        *b = pixel(shades, across, x);
    }
}

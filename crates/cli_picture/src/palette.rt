// The shade of a density and the colour of a shade: light for an empty cell, dark for a jam.
ghost use Rattle.std.specs.Prelude.{◌≡◌, ℕ};
ghost use Rattle.cli_picture.specs.Colours.{shade_of, channel_of};

// 255 times the density over jam, rounded down: 0 for an empty cell, 255 at jam and above.
pub fn shade(density: u32, jam: u32) -> u8
    ensures { result ≡ shade_of density jam }
{
    if density < jam {
        (255 * u64::from(density) / u64::from(jam)) as u8
    } else {
        255
    }
}

// A colour's part that is full up to a shade and then falls by 3 a shade: blue from shade 0 on, green from 85, red from
// 170, so that the colours go from white by yellow and red to black.
pub fn channel(start: u8, shade: u8) -> u8
    ensures { result ≡ channel_of start shade }
{
    let fall = 3 * u32::from(shade.saturating_sub(start));
    255u32.saturating_sub(fall) as u8
}

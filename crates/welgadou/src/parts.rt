// What the C calls share: the number and place of a refusal, and the byte of a mode.
ghost use Rattle.std.specs.Prelude.{◌≡◌};
ghost use Rattle.refusal.specs.Answer.{number_of, place_of};
ghost use Rattle.welgadou.specs.Parts.{ModeByte};

use refusal::Refusal;

// Internal: the number of a refusal, with its place behind the reference.
pub fn refused(refusal: Refusal, place: &mut u32) -> u32
    ensures number { result ≡ number_of refusal }
    ensures placed { place.new ≡ place_of refusal }
{
    *place = refusal.place();
    refusal.number()
}

// Internal: the byte of a mode that C gives as a whole number: the number, or 255, which is no mode, where it is larger.
pub fn mode_byte(mode: u32) -> u8
    ensures { ModeByte mode result }
{
    u8::try_from(mode).unwrap_or(u8::MAX)
}

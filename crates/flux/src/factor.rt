// A speed as a factor: a product with it is a multiplication and a shift, and divides nothing.
ghost use Rattle.std.specs.Prelude.{◌≡◌, ◌≤◌, ◌<◌};
ghost use Rattle.road.specs.Ceilings.{divisor_ceiling, jam_ceiling};
ghost use Rattle.flux.specs.Factor.{multiplier, factor_of, part};

// A speed as a fraction of 2^32, and what the rounding adds, in the same parts. The multiplier is 32 bits wide, so that a
// vector multiplication takes two of them.
#[derive(Clone, Copy)]
pub struct Factor {
    pub times: u32,
    pub offset: u32,
}

// Internal: x/divisor, below one, in parts of 1/2^32, rounded up.
#[tactic(auto, unfolding(crate::specs::Factor::multiplier))]
fn multiplier(x: u32, divisor: u32) -> u32
    requires divisor_le_divisor_ceiling { divisor ≤ divisor_ceiling }
    requires x_lt_divisor { x < divisor }
    ensures { result ≡ multiplier x divisor }
{
    let d = divisor as u64;
    (((x as u64) * 4_294_967_296 + (d - 1)) / d) as u32
}

impl Factor {
    // Internal: the factor of speed/divisor.
    #[tactic(auto, unfolding(crate::specs::Factor::factor_of, crate::specs::Factor::slow_factor, crate::specs::Factor::whole_factor))]
    pub fn of(speed: u32, divisor: u32) -> Factor
        requires divisor_nonzero { 0 < divisor }
        requires divisor_le_divisor_ceiling { divisor ≤ divisor_ceiling }
        ensures { result ≡ factor_of speed divisor }
    {
        if speed < divisor {
            Factor {
                times: multiplier(speed, divisor),
                offset: multiplier(divisor / 2, divisor),
            }
        } else {
            Factor {
                times: 4_294_967_295,
                offset: 2_147_483_648,
            }
        }
    }

    // Internal: a density's part.
    #[tactic(auto, unfolding(crate::specs::Factor::part))]
    pub fn part(self, a: u32) -> u32
        requires { a ≤ jam_ceiling }
        ensures { result ≡ part self a }
    {
        (((a as u64) * (self.times as u64) + (self.offset as u64)) >> 32) as u32
    }
}

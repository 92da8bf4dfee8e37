// The judgement of a road: numbers 1 to 4 of the refusal table, lowest first, for any five 32-bit numbers.
ghost use Rattle.std.specs.Prelude.{◌≡◌, IfOk};
ghost use Rattle.refusal.specs.Answer.{judged_of};
ghost use Rattle.road.specs.Judgement.{outside, bad_divisor, bad_speeds, bad_densities, unbalanced, road_refusal};

use super::{AcceptedRoad, Road};
use refusal::Refusal;

// Internal: whether x lies outside low..high.
fn is_outside(low: u32, high: u32, x: u32) -> bool
    ensures { result ≡ outside low high x }
{
    x < low || high < x
}

impl Road {
    fn has_bad_divisor(self) -> bool
        ensures { result ≡ bad_divisor self }
    {
        is_outside(1, Road::DIVISOR, self.divisor)
    }

    fn has_bad_speeds(self) -> bool
        ensures { result ≡ bad_speeds self }
    {
        is_outside(1, self.divisor, self.free) || is_outside(1, self.divisor, self.wave)
    }

    fn has_bad_densities(self) -> bool
        ensures { result ≡ bad_densities self }
    {
        is_outside(2, Road::JAM, self.jam)
            || is_outside(1, self.jam.saturating_sub(1), self.critical)
    }

    // The products are 64 bits wide, so that no five numbers overflow.
    fn is_unbalanced(self) -> bool
        ensures { result ≡ unbalanced self }
    {
        let sent = self.free as u64 * self.critical as u64;
        let received = self.wave as u64 * self.jam.saturating_sub(self.critical) as u64;
        sent != received
    }

    // Internal: the accepted road, or the first check that it does not pass.
    #[tactic(auto, unfolding(crate::specs::Judgement::road_refusal, refusal::specs::Table::or_if))]
    pub fn judged(self) -> Result<AcceptedRoad, Refusal>
        ensures refusal { judged_of result ≡ road_refusal self }
        ensures road { IfOk result (λ accepted. accepted.road ≡ self) }
    {
        if self.has_bad_divisor() {
            return Err(Refusal::Divisor);
        }
        if self.has_bad_speeds() {
            return Err(Refusal::Speeds);
        }
        if self.has_bad_densities() {
            return Err(Refusal::Densities);
        }
        if self.is_unbalanced() {
            return Err(Refusal::Balance);
        }
        Ok(AcceptedRoad { road: self })
    }
}

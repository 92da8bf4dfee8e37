// Station readings: a detector gives a density, or a flow with a speed, or a speed alone; a filter gets a density.
ghost use Rattle.std.specs.Prelude.{◌≡◌, IfOk};
ghost use Rattle.refusal.specs.Answer.{answer_of, judged_of};
ghost use Rattle.station.specs.Station.{bad_number, bad_given, times_divisor, too_fast, speed_density, estimate_of, station_refusal, Stations};

use candidate::bad_estimate;
use refusal::Refusal;
use road::Road;

// What a station gives. A density in units a cell, a flow in units a step, a speed in cells a step.
#[derive(Clone, Copy)]
pub enum StationReading {
    Density(f64),
    FlowAndSpeed { flow: f64, speed: f64 },
    Speed(f64),
}

// What an accepted reading gives: the density estimate. Candidate prediction accepts it on the same road, in each of its
// three places.
#[derive(Clone, Copy)]
pub struct Estimate {
    pub density: f64,
}

// Internal: not a number, below 0 or infinite. The sign of a zero does not count.
#[tactic(auto, using(crate::proofs::Tests::not_finite_bad, crate::proofs::Tests::finite_low))]
fn is_bad_number(x: f64) -> bool
    ensures { result ≡ bad_number x }
{
    !x.is_finite() || x < 0.0
}

// Internal: a speed in cells a step times the divisor, rounded once.
fn times_divisor(road: Road, speed: f64) -> f64
    ensures { result ≡ times_divisor road speed }
{
    speed * f64::from(road.divisor)
}

// Internal: the density that moves at a lone speed, each operation rounded once.
#[tactic(auto, unfolding(crate::specs::Station::speed_density))]
fn speed_density(road: Road, speed: f64) -> f64
    ensures { result ≡ speed_density road speed }
{
    let wave = f64::from(road.wave);
    wave * f64::from(road.jam) / (times_divisor(road, speed) + wave)
}

impl StationReading {
    // Internal: 16, some number that was given is bad, or the speed beside a flow is zero.
    #[tactic(auto, unfolding(crate::specs::Station::bad_given))]
    fn is_bad(self) -> bool
        ensures { result ≡ bad_given self }
    {
        match self {
            StationReading::Density(density) => is_bad_number(density),
            StationReading::FlowAndSpeed { flow, speed } => {
                is_bad_number(flow) || is_bad_number(speed) || speed == 0.0
            }
            StationReading::Speed(speed) => is_bad_number(speed),
        }
    }

    // Internal: 17, a lone speed whose product with the divisor, rounded, is at or above the free speed's: no single
    // density moves so fast.
    #[tactic(auto, unfolding(crate::specs::Station::too_fast))]
    fn is_too_fast(self, road: Road) -> bool
        ensures { result ≡ too_fast road self }
    {
        match self {
            StationReading::Speed(speed) => times_divisor(road, speed) >= f64::from(road.free),
            _ => false,
        }
    }

    // Internal: the estimate, judged or not.
    #[tactic(auto, unfolding(crate::specs::Station::estimate_of))]
    fn density(self, road: Road) -> f64
        ensures { result ≡ estimate_of road self }
    {
        match self {
            StationReading::Density(density) => density,
            StationReading::FlowAndSpeed { flow, speed } => flow / speed,
            StationReading::Speed(speed) => speed_density(road, speed),
        }
    }

    // Internal: the estimate, or the first of checks 1 to 4 and 16 to 18 that refuses it.
    #[tactic(auto, using(crate::proofs::StationAnswers::bad_result_lem), unfolding(crate::specs::Station::station_refusal, refusal::specs::Table::or_if))]
    fn judged(self, road: Road) -> Result<Estimate, Refusal>
        ensures refusal { judged_of result ≡ station_refusal road self }
        ensures estimate { IfOk result (λ e. e.density ≡ estimate_of road self) }
    {
        road.judged()?;
        if self.is_bad() {
            return Err(Refusal::StationNumber);
        }
        if self.is_too_fast(road) {
            return Err(Refusal::StationSpeed);
        }
        let density = self.density(road);
        if bad_estimate(road.jam, density) {
            return Err(Refusal::StationDensity);
        }
        Ok(Estimate { density })
    }
}

// The density estimate of a station's reading: a density unchanged, a flow divided by its speed, or the one density that
// moves at a lone speed below the free speed, up to the rounding of each operation.
pub fn station(road: Road, reading: StationReading) -> Result<Estimate, Refusal>
    ensures { Stations road reading (answer_of result) }
{
    reading.judged(road)
}

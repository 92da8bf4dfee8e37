// Station readings for C, Level 3: one call a kind, so that no code of a kind can be wrong.
ghost use Rattle.station.specs.declared.stations.StationReading.TheVariants.{Density, FlowAndSpeed, Speed};
ghost use Rattle.welgadou.specs.Parts.{road_of};
ghost use Rattle.welgadou.specs.Stations.{StationEstimated};

use super::parts::refused;
use road::Road;
use station::StationReading;

// Internal: what the three calls do with their reading.
fn estimated(road: Road, reading: StationReading, estimate: &mut f64, place: &mut u32) -> u32
    ensures { StationEstimated road reading estimate.old estimate.new place.new result }
{
    match station::station(road, reading) {
        Ok(found) => {
            *estimate = found.density;
            *place = 0;
            0
        }
        Err(refusal) => refused(refusal, place),
    }
}

// 0, with the density itself in `estimate` and 0 in `place`; or the refusal's number with its place, and every
// other output as it was.
pub fn welgadou_station_density(
    divisor: u32,
    free: u32,
    wave: u32,
    jam: u32,
    critical: u32,
    density: f64,
    estimate: &mut f64,
    place: &mut u32,
) -> u32
    ensures { StationEstimated (road_of divisor free wave jam critical) (Density density) estimate.old estimate.new place.new result }
{
    let road = Road {
        divisor,
        free,
        wave,
        jam,
        critical,
    };
    estimated(road, StationReading::Density(density), estimate, place)
}

// 0, with the flow divided by the speed in `estimate` and 0 in `place`; or the refusal's number with its place, and every
// other output as it was.
pub fn welgadou_station_flow(
    divisor: u32,
    free: u32,
    wave: u32,
    jam: u32,
    critical: u32,
    flow: f64,
    speed: f64,
    estimate: &mut f64,
    place: &mut u32,
) -> u32
    ensures { StationEstimated (road_of divisor free wave jam critical) (FlowAndSpeed flow speed) estimate.old estimate.new place.new result }
{
    let road = Road {
        divisor,
        free,
        wave,
        jam,
        critical,
    };
    estimated(
        road,
        StationReading::FlowAndSpeed { flow, speed },
        estimate,
        place,
    )
}

// 0, with the density worked from the speed in `estimate` and 0 in `place`; or the refusal's number with its place, and every
// other output as it was.
pub fn welgadou_station_speed(
    divisor: u32,
    free: u32,
    wave: u32,
    jam: u32,
    critical: u32,
    speed: f64,
    estimate: &mut f64,
    place: &mut u32,
) -> u32
    ensures { StationEstimated (road_of divisor free wave jam critical) (Speed speed) estimate.old estimate.new place.new result }
{
    let road = Road {
        divisor,
        free,
        wave,
        jam,
        critical,
    };
    estimated(road, StationReading::Speed(speed), estimate, place)
}

// Station readings for C, Level 3: one call a kind, so that no code of a kind can be wrong.
ghost use Rattle.station.specs.declared.stations.StationReading.TheVariants.{Density, FlowAndSpeed, Speed};
ghost use Rattle.welgadou.specs.Parts.{road_of};
ghost use Rattle.welgadou.specs.Stations.{StationEstimated};

// 0, with the density itself in `estimate` and 0 in `place`; or the refusal's number with its place, and every
// other output as it was.
#[unsafe(no_mangle)]
pub extern "C" fn welgadou_station_density(
    divisor: u32,
    free: u32,
    wave: u32,
    jam: u32,
    critical: u32,
    density: f64,
    estimate: &mut f64,
    place: &mut u32,
) -> u32
    ensures { StationEstimated (road_of divisor free wave jam critical) (Density density) estimate.old estimate.new place.new result }
{
    welgadou::welgadou_station_density(divisor, free, wave, jam, critical, density, estimate, place)
}

// 0, with the flow divided by the speed in `estimate` and 0 in `place`; or the refusal's number with its place, and every
// other output as it was.
#[unsafe(no_mangle)]
pub extern "C" fn welgadou_station_flow(
    divisor: u32,
    free: u32,
    wave: u32,
    jam: u32,
    critical: u32,
    flow: f64,
    speed: f64,
    estimate: &mut f64,
    place: &mut u32,
) -> u32
    ensures { StationEstimated (road_of divisor free wave jam critical) (FlowAndSpeed flow speed) estimate.old estimate.new place.new result }
{
    welgadou::welgadou_station_flow(
        divisor, free, wave, jam, critical, flow, speed, estimate, place,
    )
}

// 0, with the density worked from the speed in `estimate` and 0 in `place`; or the refusal's number with its place, and every
// other output as it was.
#[unsafe(no_mangle)]
pub extern "C" fn welgadou_station_speed(
    divisor: u32,
    free: u32,
    wave: u32,
    jam: u32,
    critical: u32,
    speed: f64,
    estimate: &mut f64,
    place: &mut u32,
) -> u32
    ensures { StationEstimated (road_of divisor free wave jam critical) (Speed speed) estimate.old estimate.new place.new result }
{
    welgadou::welgadou_station_speed(divisor, free, wave, jam, critical, speed, estimate, place)
}

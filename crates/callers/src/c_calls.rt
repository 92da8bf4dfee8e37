// A caller of each public call of C: it asks nothing, only calls, and promises the call's record.
ghost use Rattle.station.specs.declared.stations.StationReading.TheVariants.{Density, FlowAndSpeed, Speed};
ghost use Rattle.welgadou.specs.Parts.{road_of, totals_of};
ghost use Rattle.welgadou.specs.Level1.{Forecasted, SettledRun};
ghost use Rattle.welgadou.specs.Level2.{StateRead, WordFitted, RowsPredicted, CandidatePredicted, WordsCounted};
ghost use Rattle.welgadou.specs.Stations.{StationEstimated};
ghost use Rattle.welgadou.specs.Rankings.{NearestRanked};

// The forecast.
pub fn c_forecast(
    divisor: u32,
    free: u32,
    wave: u32,
    jam: u32,
    critical: u32,
    cells: &[u32],
    upstream: &[u32],
    downstream: &[u32],
    horizon: u32,
    caps: &[u32],
    out: &mut [u32],
    entered: &mut u64,
    left: &mut u64,
    total_entered: &mut u64,
    total_left: &mut u64,
    place: &mut u32,
) -> u32
    ensures { Forecasted (road_of divisor free wave jam critical) caps.now cells.now upstream.now downstream.now horizon out.old out.new entered.old entered.new left.old left.new (totals_of total_entered.old total_left.old) (totals_of total_entered.new total_left.new) place.new result }
{
    welgadou::welgadou_forecast_3(
        divisor,
        free,
        wave,
        jam,
        critical,
        cells,
        upstream,
        downstream,
        horizon,
        caps,
        out,
        entered,
        left,
        total_entered,
        total_left,
        place,
    )
}

// The settling run.
pub fn c_settle(
    divisor: u32,
    free: u32,
    wave: u32,
    jam: u32,
    critical: u32,
    cells: &[u32],
    upstream: u32,
    downstream: u32,
    horizon: u32,
    caps: &[u32],
    out: &mut [u32],
    settled: &mut u32,
    steps: &mut u32,
    place: &mut u32,
) -> u32
    ensures { SettledRun (road_of divisor free wave jam critical) caps.now cells.now upstream downstream horizon out.old out.new settled.old settled.new steps.old steps.new place.new result }
{
    welgadou::welgadou_settle_2(
        divisor, free, wave, jam, critical, cells, upstream, downstream, horizon, caps, out,
        settled, steps, place,
    )
}

// The reading.
pub fn c_read(
    divisor: u32,
    free: u32,
    wave: u32,
    jam: u32,
    critical: u32,
    cells: &[u32],
    upstream: u32,
    downstream: u32,
    letters: &mut [u8],
    modes: &mut [u8],
    counts: &mut [u32; 7],
    queued: &mut u32,
    place: &mut u32,
) -> u32
    ensures { StateRead (road_of divisor free wave jam critical) cells.now upstream downstream letters.old letters.new modes.old modes.new counts.old counts.new queued.old queued.new place.new result }
{
    welgadou::welgadou_read(
        divisor, free, wave, jam, critical, cells, upstream, downstream, letters, modes, counts,
        queued, place,
    )
}

// The fit test.
pub fn c_fit(
    divisor: u32,
    free: u32,
    wave: u32,
    jam: u32,
    critical: u32,
    cells: &[u32],
    upstream: u32,
    downstream: u32,
    word: &[u8],
    holds: &mut u32,
    face: &mut u32,
    place: &mut u32,
) -> u32
    ensures { WordFitted (road_of divisor free wave jam critical) cells.now upstream downstream word.now holds.old holds.new face.old face.new place.new result }
{
    welgadou::welgadou_fit(
        divisor, free, wave, jam, critical, cells, upstream, downstream, word, holds, face, place,
    )
}

// The row prediction.
pub fn c_rows(
    divisor: u32,
    free: u32,
    wave: u32,
    jam: u32,
    critical: u32,
    cells: &[u32],
    upstream: u32,
    downstream: u32,
    word: &[u8],
    out: &mut [i64],
    place: &mut u32,
) -> u32
    ensures { RowsPredicted (road_of divisor free wave jam critical) cells.now upstream downstream word.now out.old out.new place.new result }
{
    welgadou::welgadou_rows(
        divisor, free, wave, jam, critical, cells, upstream, downstream, word, out, place,
    )
}

// The candidate prediction.
pub fn c_candidate(
    divisor: u32,
    free: u32,
    wave: u32,
    jam: u32,
    critical: u32,
    mode: u32,
    left: f64,
    own: f64,
    right: f64,
    numerator: &mut f64,
    place: &mut u32,
) -> u32
    ensures { CandidatePredicted (road_of divisor free wave jam critical) mode left own right numerator.old numerator.new place.new result }
{
    welgadou::welgadou_candidate_2(
        divisor, free, wave, jam, critical, mode, left, own, right, numerator, place,
    )
}

// The word count.
pub fn c_count(cells: u32, words: &mut u64, place: &mut u32) -> u32
    ensures { WordsCounted cells words.old words.new place.new result }
{
    welgadou::welgadou_count(cells, words, place)
}

// The ranking of the next modes.
pub fn c_nearest(
    divisor: u32,
    free: u32,
    wave: u32,
    jam: u32,
    critical: u32,
    cells: &[u32],
    upstream: u32,
    downstream: u32,
    numbers: &mut [u32],
    changes: &mut [i32],
    place: &mut u32,
) -> u32
    ensures { NearestRanked (road_of divisor free wave jam critical) cells.now upstream downstream numbers.old numbers.new changes.old changes.new place.new result }
{
    welgadou::welgadou_nearest(
        divisor, free, wave, jam, critical, cells, upstream, downstream, numbers, changes, place,
    )
}

// A density.
pub fn c_station_density(
    divisor: u32,
    free: u32,
    wave: u32,
    jam: u32,
    critical: u32,
    density: f64,
    estimate: &mut f64,
    place: &mut u32,
) -> u32
    ensures { StationEstimated (road_of divisor free wave jam critical) (Density density) estimate.old estimate.new place.new result }
{
    welgadou::welgadou_station_density(divisor, free, wave, jam, critical, density, estimate, place)
}

// A flow with a speed.
pub fn c_station_flow(
    divisor: u32,
    free: u32,
    wave: u32,
    jam: u32,
    critical: u32,
    flow: f64,
    speed: f64,
    estimate: &mut f64,
    place: &mut u32,
) -> u32
    ensures { StationEstimated (road_of divisor free wave jam critical) (FlowAndSpeed flow speed) estimate.old estimate.new place.new result }
{
    welgadou::welgadou_station_flow(
        divisor, free, wave, jam, critical, flow, speed, estimate, place,
    )
}

// A lone speed.
pub fn c_station_speed(
    divisor: u32,
    free: u32,
    wave: u32,
    jam: u32,
    critical: u32,
    speed: f64,
    estimate: &mut f64,
    place: &mut u32,
) -> u32
    ensures { StationEstimated (road_of divisor free wave jam critical) (Speed speed) estimate.old estimate.new place.new result }
{
    welgadou::welgadou_station_speed(divisor, free, wave, jam, critical, speed, estimate, place)
}

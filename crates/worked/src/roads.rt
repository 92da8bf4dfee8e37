// The roads of the worked cases.
use road::Road;

// Road A of the document.
pub const A: Road = Road {
    divisor: 5,
    free: 4,
    wave: 1,
    jam: 1000,
    critical: 200,
};

// Road A with one of its numbers changed, so that it is refused.
pub const D_0: Road = Road { divisor: 0, ..A };

pub const P_6: Road = Road { free: 6, ..A };

pub const C_1000: Road = Road {
    critical: 1000,
    ..A
};

pub const C_201: Road = Road { critical: 201, ..A };

// Road A with two of its numbers changed: the first of them refuses it.
pub const D_0_J_1: Road = Road {
    divisor: 0,
    jam: 1,
    ..A
};

// The road with D and J at their ceilings, where every speed is a whole cell a step, and one beyond each.
pub const WIDEST: Road = Road {
    divisor: 4096,
    free: 4096,
    wave: 4096,
    jam: 1_000_000,
    critical: 500_000,
};

pub const D_4097: Road = Road {
    divisor: 4097,
    ..WIDEST
};

pub const J_1000001: Road = Road {
    jam: 1_000_001,
    ..WIDEST
};

// The road with the smallest numbers.
pub const NARROWEST: Road = Road {
    divisor: 1,
    free: 1,
    wave: 1,
    jam: 2,
    critical: 1,
};

// A road with another wave speed than road A.
pub const OTHER_WAVE: Road = Road {
    divisor: 5,
    free: 2,
    wave: 3,
    jam: 1000,
    critical: 600,
};

// A road where a speed just below p/D is p once it is multiplied by D.
pub const THIRDS: Road = Road {
    divisor: 3,
    free: 1,
    wave: 1,
    jam: 2,
    critical: 1,
};

// Roads where a free cell sends half of its units, or a quarter of them.
pub const HALVES: Road = Road {
    divisor: 2,
    free: 1,
    wave: 1,
    jam: 12,
    critical: 6,
};

pub const ONE_HALF: Road = Road {
    divisor: 2,
    free: 1,
    wave: 1,
    jam: 2,
    critical: 1,
};

pub const QUARTERS: Road = Road {
    divisor: 4,
    free: 1,
    wave: 1,
    jam: 4,
    critical: 2,
};

// A road with an odd D whose half, over D in parts of 2^32, has to be worked out: 2^31 is too much.
pub const D_2177: Road = Road {
    divisor: 2177,
    free: 13,
    wave: 2177,
    jam: 998_640,
    critical: 992_712,
};

// Roads whose waves are faster than free traffic, with few units in a cell.
pub const J_9: Road = Road {
    divisor: 2,
    free: 1,
    wave: 2,
    jam: 9,
    critical: 6,
};

pub const J_5: Road = Road {
    divisor: 5,
    free: 2,
    wave: 3,
    jam: 5,
    critical: 3,
};

// The road with D and J at their ceilings and the least speeds.
pub const SLOWEST: Road = Road {
    divisor: 4096,
    free: 1,
    wave: 1,
    jam: 1_000_000,
    critical: 500_000,
};

// The road of five largest numbers.
pub const LARGEST: Road = Road {
    divisor: u32::MAX,
    free: u32::MAX,
    wave: u32::MAX,
    jam: u32::MAX,
    critical: u32::MAX,
};

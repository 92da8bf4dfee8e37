// The road cases: which roads are accepted, and which number refuses the others.
use printing::Page;
use road::Road;
use worked::{print, roads};

// A road, with its name.
#[derive(Clone, Copy)]
pub struct Named(pub &'static str, pub Road);

pub const A: Named = Named("road A", roads::A);

pub const NARROWEST: Named = Named("road J 2, C 1, D p q all 1", roads::NARROWEST);

pub const WIDEST: Named = Named("road D p q 4096, J 1000000, C 500000", roads::WIDEST);

pub const HALVES: Named = Named("road D 2, p q 1, J 12, C 6", roads::HALVES);

pub const ONE_HALF: Named = Named("road D 2, p q 1, J 2, C 1", roads::ONE_HALF);

pub const D_2177: Named = Named(
    "road D 2177, p 13, q 2177, J 998640, C 992712",
    roads::D_2177,
);

pub const SLOWEST: Named = Named("road D 4096, p q 1, J 1000000, C 500000", roads::SLOWEST);

static CASES: [Named; 15] = [
    A,
    NARROWEST,
    Named("road A with p 6", roads::P_6),
    Named("road A with C 1000", roads::C_1000),
    Named("road A with C 201", roads::C_201),
    Named("road A with D 0 and J 1", roads::D_0_J_1),
    WIDEST,
    Named("road D 4097", roads::D_4097),
    Named("road J 1000001", roads::J_1000001),
    Named("road of five largest numbers", roads::LARGEST),
    HALVES,
    ONE_HALF,
    Named("road D 4, p q 1, J 4, C 2", roads::QUARTERS),
    D_2177,
    SLOWEST,
];

// Roads that are accepted and roads that are refused.
pub fn cases(page: &mut Page) {
    for Named(name, road) in &CASES {
        write!(page, "{name}");
        match road.judged() {
            Ok(_) => write!(page, ": accepted"),
            Err(refusal) => print::refusal(page, refusal),
        }
        writeln!(page);
    }
}

// The letter of a face.
ghost use Rattle.std.specs.Prelude.{◌≡◌, ◌≤◌};
ghost use Rattle.flux.specs.Face.{letter};
ghost use Rattle.flux.specs.Codes.{code_of};

use road::AcceptedRoad;

// What a face's flow follows (document 01): W, the jam downstream; L, the capacity; D, what arrives.
#[derive(Clone, Copy, PartialEq, Eq)]
pub enum Letter {
    W,
    L,
    D,
}

impl Letter {
    // Internal: the letter's code in a list of letters.
    pub const fn code(self) -> u8
        ensures { result ≡ code_of self }
    {
        match self {
            Letter::W => 0,
            Letter::L => 1,
            Letter::D => 2,
        }
    }

    // Internal: the letter of the face between densities a and b.
    #[tactic(auto, using(crate::proofs::Letters::full_w, crate::proofs::Letters::full_d, crate::proofs::Letters::free_l, crate::proofs::Letters::free_d))]
    pub fn between(road: AcceptedRoad, a: u32, b: u32) -> Letter
        requires a_le_jam { a ≤ road.road.jam }
        requires b_le_jam { b ≤ road.road.jam }
        ensures { code_of result ≡ letter road.road a b }
    {
        let road = road.road;
        if road.critical < b {
            let room = road.wave * (road.jam - b);
            let sent = road.free * a;
            if room < sent { Letter::W } else { Letter::D }
        } else if road.critical < a {
            Letter::L
        } else {
            Letter::D
        }
    }
}

// The values of a text's keys, as the library takes them.
ghost use Rattle.std.specs.Prelude.{◌≡◌, ◌+◌, ◌<◌, ◌^◌, length, min, take, replicate};
ghost use Rattle.arrayvec.specs.ArrayVec.{array_vec_len};
ghost use Rattle.road.specs.Ceilings.{cells_ceiling, horizon_ceiling};
ghost use Rattle.cli_scenario.specs.Values.{values_of};

use arrayvec::ArrayVec;
use cli_vocabulary::Key;
use road::Road;
use scheme::Totals;
use std::num::TryFromIntError;

// The room of each list is one longer than its ceiling, so that the library itself refuses one that is too long.
pub const CELLS: usize = Road::CELLS as usize + 1;

pub const ENDS: usize = Road::HORIZON as usize + 1;

pub const FACES: usize = Road::CELLS as usize + 2;

// The room for cells. Each room has such a function, with the equation to its ceiling, so that a moved room is refused here.
pub fn cells_room() -> usize
    ensures { result ≡ cells_ceiling + 1 }
{
    CELLS
}

// The room for the ends of one side.
pub fn ends_room() -> usize
    ensures { result ≡ horizon_ceiling + 1 }
{
    ENDS
}

// The room for a word's letters, or for the caps of the faces.
pub fn faces_room() -> usize
    ensures { result ≡ cells_ceiling + 2 }
{
    FACES
}

// Numbers as the library takes them. A judged text has none that does not fit.
fn narrowed<T, const N: usize>(values: [u64; N]) -> [T; N]
where
    T: TryFrom<u64, Error = TryFromIntError> + Default + Copy,
    requires { N < 2 ^ 60 }
{
    let mut numbers = [T::default(); N];
    for (number, value) in numbers.iter_mut().zip(values.iter()) {
        *number = T::try_from(*value).unwrap_or_default();
    }
    numbers
}

// A key's list, clipped to the room.
pub fn list<T, const N: usize>(text: &[u8], key: Key) -> ArrayVec<T, N>
where
    T: TryFrom<u64, Error = TryFromIntError> + Default + Copy + Drop,
    requires { N < 2 ^ 60 }
    ensures { array_vec_len result ≡ min (length (values_of key text.now)) N }
{
    let mut values = [0; N];
    let count = cli_scenario::values(text, key, &mut values);
    let mut list = ArrayVec::from(narrowed(values));
    list.truncate(count);
    list
}

// The word, clipped to the room.
pub fn word(text: &[u8]) -> ArrayVec<u8, FACES>
    ensures { array_vec_len result ≡ min (length (values_of Key.Word text.now)) (cells_ceiling + 2) }
{
    list(text, Key::Word)
}

// The numbers of a key that takes so many; 0 where the text has none.
pub fn numbers<T, const N: usize>(text: &[u8], key: Key) -> [T; N]
where
    T: TryFrom<u64, Error = TryFromIntError> + Default + Copy,
    requires { N < 2 ^ 60 }
{
    let mut values = [0; N];
    cli_scenario::values(text, key, &mut values);
    narrowed(values)
}

// A list of so many values, clipped to the room.
pub fn filled<T: Default + Copy + Drop, const N: usize>(value: T, count: usize) -> ArrayVec<T, N>
    ensures items { result.items ≡ take count (replicate N value) }
    ensures len { array_vec_len result ≡ min count N }
{
    let mut values = ArrayVec::from([value; N]);
    values.truncate(count);
    values
}

// The road of a text.
pub fn road(text: &[u8]) -> Road {
    let [divisor, free, wave, jam, critical]: [u32; 5] = numbers(text, Key::Road);
    Road {
        divisor,
        free,
        wave,
        jam,
        critical,
    }
}

// The totals so far; both are 0 where the text has none.
pub fn totals(text: &[u8]) -> Totals {
    let [entered, left]: [u64; 2] = numbers(text, Key::Totals);
    Totals { entered, left }
}

// A key of two numbers A and B, as the double nearest to A / B: both are doubles themselves, so that the division alone rounds.
// Where B is 0 it is infinite or not a number, which the library refuses.
pub fn quotient(text: &[u8], key: Key) -> f64 {
    let [a, b]: [u32; 2] = numbers(text, key);
    f64::from(a) / f64::from(b)
}

// A word that was judged beside its state and found right: what the calls that take a word work with.
ghost use Rattle.std.specs.Prelude.{◌≡◌, true, ◌+◌, length};
ghost use Rattle.words.specs.Words.{legal};

use checks::AcceptedState;

// A state and a legal word, which has a letter for each face of it.
#[derive(Clone, Copy)]
pub struct AcceptedWord<'a> {
    pub state: AcceptedState<'a>,
    pub word: &'a [u8],
    pub ghost long: { length word.now ≡ length state.cells.now + 1 },
    pub ghost allowed: { legal word.now ≡ true },
}

// Faults: what may be wrong with a text.

// Numbered from 1, as they were before they had names; messages go by the names.
#[derive(Clone, Copy, PartialEq, Eq)]
pub enum Fault {
    LongLine = 1,
    UnknownKey,
    NotANumber,
    TooLarge,
    WrongCount,
    GivenAgain,
    AfterEnd,
    NoEnd,
    EmptyText,
}

// Callers: for every public call, of Rattle and of C, a function that only calls it and promises its record, with no
// `requires` and no proof file. It is proved from the call's contract alone: a contract that asks something, exchanges two
// arguments of its record or no longer promises it breaks it. What the record says is `commission`'s to miss.
#![tactic(auto)]

mod c_calls;
mod calls;

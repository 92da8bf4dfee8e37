// The C interface: each function of `welgadou` exported under its name, with the same clauses. It is a static library, which no
// crate can depend on, and so apart from `welgadou`, which the crates above it call.
#![tactic(auto)]

mod ceilings;
mod level1;
mod level2;
mod rankings;
mod stations;
mod versions;

//! Programs of the first language, and in `specs/` the typed programs that they stand for.
#![tactic(auto)]

pub mod tree;

//! What every other crate of Eva speaks of: names, numbers of statements and objects, kinds of undefined steps, tokens,
//! integer types, and C's operators on numbers.
#![tactic(auto)]

pub mod format;
pub mod integer;
pub mod kind;
pub mod name;
pub mod number;
pub mod operators;
pub mod token;

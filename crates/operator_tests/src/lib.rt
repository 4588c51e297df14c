//! Tests of operators on two pointers, or a pointer and a number, in a crate of their own so that these are proved once.
#![tactic(auto)]

#[cfg(test)]
mod operators;
#[cfg(test)]
mod tables;

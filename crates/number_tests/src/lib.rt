//! Tests of C's operators, of the sets of integers and of the persistent map, in a crate of their own so that these are proved once.
#![tactic(auto)]

#[cfg(test)]
mod arithmetic;
#[cfg(test)]
mod bits;
#[cfg(test)]
mod maps;
#[cfg(test)]
mod operators;
#[cfg(test)]
mod sets;
#[cfg(test)]
mod traits;

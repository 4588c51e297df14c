//! Tests of values with addresses and of cells, in a crate of their own so that these are proved once.
#![tactic(auto)]

#[cfg(test)]
mod cells;
#[cfg(test)]
mod values;

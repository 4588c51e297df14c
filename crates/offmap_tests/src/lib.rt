//! Tests of maps with the cells of values: fixed ones, and random changes beside a plain list of bits; and what they and other tests draw and ask of cells.
#![tactic(auto)]

#[cfg(test)]
mod agreeing;
pub mod draw;
#[cfg(test)]
mod fixed;
#[cfg(test)]
mod random;
pub mod sample;

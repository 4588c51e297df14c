//! Programs of the small language of today among C's units: which unit is one, and which program it is.
#![tactic(auto)]

pub mod places;
mod programs;
mod statements;
mod sums;

pub use programs::program_in;

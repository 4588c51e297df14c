//! Writes to memories at places.
#![tactic(auto)]

pub mod writes;

pub use writes::write;

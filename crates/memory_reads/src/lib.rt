//! Reads of memories at places, and what they mean.
#![tactic(auto)]

pub mod laws;
pub mod reads;

pub use reads::read;

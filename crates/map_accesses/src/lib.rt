//! Loads and weak stores at all numbers of a set, and what they mean.
#![tactic(auto)]

pub mod accesses;
pub mod laws;
pub mod offsets;

pub use accesses::{load, store_weak};

//! Maps of an object's bits: which cells its elements have.
#![tactic(auto)]

mod access;
pub mod map;

pub use map::OffMap;

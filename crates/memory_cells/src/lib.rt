//! Memories of cells of values: births and deaths of objects in each layout.
#![tactic(auto)]

pub mod deaths;
pub mod laws;

pub use deaths::EachDeath;

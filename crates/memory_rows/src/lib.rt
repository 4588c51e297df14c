//! The row of a memory: the ranges of its objects as entries, object by object.
#![tactic(auto)]

pub mod laws;
pub mod rows;

pub use rows::row;

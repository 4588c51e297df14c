//! Memories in which the same objects live and the same slots are held: their joins, widenings and inclusion, and what these mean.
#![tactic(auto)]

pub mod inclusion;
pub mod laws;
pub mod merge;

pub use inclusion::included;
pub use merge::{join, widen};

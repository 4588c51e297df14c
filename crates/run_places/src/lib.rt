//! What the elements of one list of runs allow of the places of another, and the join of stretches that have no common cut inside.
#![tactic(auto)]

pub mod chunks;
pub mod merge;
pub mod places;
pub mod repeats;
pub mod spots;
pub mod stretches;
pub mod taking;

pub use merge::Merge;

//! What functions count for the work of an analysis.
#![tactic(auto)]

pub mod weights;

pub use weights::weight;

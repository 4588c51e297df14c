//! Slots of lists of runs, so many bits apart, each of which may have a cell or what it had; and offsets at which all is found that slots have.
#![tactic(auto)]

pub mod offsets;
pub mod slots;
mod stretch;
mod walk;

pub use offsets::{Steps, distinct_offsets};
pub use slots::{Slots, weaken};

//! Differences and comparisons of pointers, on values that may hold addresses (C11 6.5.6p9, 6.5.8, 6.5.9).
//!
//! No call takes memory.
#![tactic(auto)]

mod comparisons;
mod differences;
mod places;

pub use comparisons::{Verdict, compared};
pub use differences::differed;

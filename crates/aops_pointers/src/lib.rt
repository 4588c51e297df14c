//! C's operators on pointers, on values that may hold addresses (C11 6.5.6, 6.5.8, 6.5.9).
#![tactic(auto)]

mod moves;
mod singles;

pub use moves::moved;

#![tactic(auto)]

//! C's operators on the bits of integers, for sets of integers (C11 6.5.7 and 6.5.10 to 6.5.12), and parts of numbers.
//!
//! No call takes memory.

mod bits;
mod masks;
mod parts;
mod shifts;
mod spans;
mod wraps;

pub use bits::bitwise;
pub use parts::{concat, extract};
pub use shifts::shift;
pub use wraps::wrap;

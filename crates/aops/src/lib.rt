//! C's operators on values that may hold addresses: those on integer types, and conversions (C11 6.3, 6.5).
#![tactic(auto)]

mod convert;
mod integers;
mod numbers;

pub use convert::{converted, pointer_bits, wrapped};
pub use integers::{Computed, on_integers};
pub use numbers::{related, truth_set};

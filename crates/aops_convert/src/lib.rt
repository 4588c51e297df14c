//! Conversions of values that may hold addresses, by C's types (C11 6.3).
#![tactic(auto)]

mod types;

pub use types::{abs_convert, scalar_of};

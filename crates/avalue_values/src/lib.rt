//! Values that may hold addresses: sets of numbers, addresses by their bases with sets of byte offsets, and mixes of bases of which nothing else is
//! known.
//!
//! Contracts see them as the plain values of `avalue_base`.
#![tactic(auto)]

mod blends;
mod meets;
mod mix;
mod part;
mod value;
mod widens;

pub use part::Part;
pub use sorted_lists::Mem;
pub use value::{AVal, mixed};

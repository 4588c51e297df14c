//! Lists in ascending order of a key: their union, what they have in common, and whether one lies in another.
//!
//! Each call walks along both lists once.
#![tactic(auto)]

mod keyed;
mod lists;

pub use keyed::{ByKey, Compares, First, Keyed, Picks, Unites};
pub use lists::{common, copied, has_key, is_all_in, union, without};
use std::alloc::AllocError;

/// What a call gives that may run out of memory.
pub type Mem<T> = Result<T, AllocError>;

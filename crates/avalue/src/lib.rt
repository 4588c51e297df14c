//! The cells that stand in memory: values that may hold addresses, and the bits of elements of maps, which may be not written or dead too.
//!
//! Contracts see them as the plain cells of `avalue_base`.
#![tactic(auto)]

mod bits;
mod cell;
mod maps;
mod pieces;
mod row;
mod widens;

pub use avalue_parts::{Address, Sizes, is_near};
pub use avalue_values::{AVal, Mem, Part};
pub use cell::Cellv;
pub use maps::Hue;
pub use row::{Entry, Places, Row, Target};

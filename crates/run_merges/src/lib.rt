//! The join and the widening of cells that stand at the same bits.
#![tactic(auto)]

mod allowed;
pub mod join;
pub mod widen;

pub use join::Join;
pub use widen::{Widening, Widens};

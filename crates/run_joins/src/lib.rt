//! The join of two lists of runs, in steps along both.
#![tactic(auto)]

mod cursor;
mod each;
pub mod join;
mod periods;
mod step;

pub use cursor::Cursor;

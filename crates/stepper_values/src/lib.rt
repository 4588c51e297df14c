//! The values of runs: numbers with the bases from whose addresses they were made, what memory holds bit by bit, and what is held while
//! expressions are evaluated.
#![tactic(auto)]

pub mod layout;
pub mod number;
pub mod operators;
pub mod places;
pub mod pointers;
pub mod value;

pub use layout::{Layout, Object};

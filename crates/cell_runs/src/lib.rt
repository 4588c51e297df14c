//! Runs of equal elements: what maps of bits are made of.
#![tactic(auto)]

pub mod cells;
pub mod parts;
pub mod runs;

pub use cells::Cells;
pub use runs::Run;
use std::alloc::AllocError;

/// What a call gives that may run out of memory.
pub type Mem<T> = Result<T, AllocError>;

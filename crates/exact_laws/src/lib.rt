//! What operations make of maps that have one content: another such map, with the content that the same operation on contents gives. Each law
//! is the contract of a function that does nothing.
#![tactic(auto)]

pub mod laws;
pub mod sole;

pub use sole::Sole;

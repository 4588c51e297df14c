//! Memories: which bits live objects and held slots may have, each by a map of its own.
#![tactic(auto)]

mod leaving;
pub mod memory;

pub use memory::Memory;

//! Accesses of memories of runs: what loads and stores through an address do, and copies (C11 6.3.2.1, 6.5.16, 6.5.3.2).
#![tactic(auto)]

pub mod loads;
pub mod reached;
pub mod scopes;
pub mod stores;

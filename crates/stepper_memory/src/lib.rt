//! Memories of runs, where a store costs what it writes, and a birth or a death what it names.
#![tactic(auto)]

pub mod cells;
pub mod deaths;
pub mod memory;
pub mod stored;
pub mod table;

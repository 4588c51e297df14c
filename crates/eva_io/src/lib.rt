//! The outside of Eva: stores, which files are loaded from, and sinks, which texts are put to, with
//! their faults counted; each as a trait, in memory, and over the system.
#![tactic(auto)]

mod calls;
mod counts;
pub mod file_store;
pub mod mem_sink;
pub mod mem_store;
pub mod sink;
pub mod std_sink;
pub mod store;

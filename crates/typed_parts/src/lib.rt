//! Typed programs for tests, written as words that stand behind their operands.
#![tactic(auto)]

mod builder;
mod expressions;
mod objects;
mod places;
pub mod programs;
mod statements;
mod types;
mod words;

//! What the parsers of trees stand on: tests of the first token, the names that are declared, how deep trees are, and what a rule reads
//! its node's parts with.
#![tactic(auto)]

pub mod below;
pub mod expecting;
pub mod found;
pub mod height;
pub mod literals;
pub mod names;
pub mod purpose;
pub mod scope;
pub mod words;

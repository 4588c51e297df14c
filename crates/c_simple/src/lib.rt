//! Simple programs: expressions without effects, and edges between places, each with one act.
#![tactic(auto)]

mod copies;
pub mod edge;
pub mod expr;
pub mod program;

//! Typed expressions of C: names are bases, each conversion is a node, and each node has its type. `specs/` has the plain trees that
//! they stand for.
#![tactic(auto)]

mod copies;
pub mod expr;
pub mod nodes;

//! Typed terms, predicates and contracts of ACSL.
#![tactic(auto)]

pub mod contract;
mod nodes;
pub mod predicate;
mod predicate_copies;
pub mod term;
mod term_copies;

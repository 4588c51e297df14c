//! Reads declarators (C11 6.7.6 and 6.7.7): each rule is generic in what reads the parts of its node.
#![tactic(auto)]

mod declarators;
mod suffixes;

pub use declarators::declarator_rule;

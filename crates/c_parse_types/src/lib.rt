//! Reads specifiers and type names (C11 6.7.2 and 6.7.7): each rule is generic in what reads the parts of its node.
#![tactic(auto)]

mod specifiers;
mod type_names;

pub use specifiers::specifier_rule;
pub use type_names::type_rule;

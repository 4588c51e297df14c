//! Which statement it is, and statements without substatements (C11 6.8.3 and 6.8.6). Each rule is proved equal to its form in the grammar.
#![tactic(auto)]

pub mod picking;
pub mod simple;

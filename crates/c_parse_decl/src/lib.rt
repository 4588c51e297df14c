//! The parser of declarations (C11 6.7). Each rule is proved equal to its form in the grammar.
#![tactic(auto)]

pub mod declarations;

//! Typed statements of C, generic in what they hold: expressions, initialisers and predicates; and initialisers.
#![tactic(auto)]

mod copies;
pub mod init;
pub mod stmt;
pub mod weights;

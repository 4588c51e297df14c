//! The parser of initialisers (C11 6.7.9), and of the parts of declarations and statements that have no rule of their own. Each rule is proved equal to
//! its form in the grammar.
#![tactic(auto)]

mod initialisers;
pub mod parts;

pub use initialisers::initialiser_at;

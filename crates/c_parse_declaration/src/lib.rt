//! The public call that reads a declaration (C11 6.7).
#![tactic(auto)]

pub mod parse;

pub use parse::parse_declaration;

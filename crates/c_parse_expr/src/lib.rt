//! Reads C's expressions (C11 6.5), the type names that they reach, and the specifiers and declarators of declarations (C11 6.7.2 to
//! 6.7.6), at the front of a list of tokens.
#![tactic(auto)]

pub mod asking;
pub mod declaring;
pub mod fault;
pub mod parse;
mod reader;

pub use c_parse_base::{names, purpose, words};
pub use declaring::{declarator_within, specifiers_within};
pub use fault::ParseFault;
pub use names::TypeNames;
pub use parse::{expr_within, parse_expr, typing_within};
pub use purpose::{Before, Purpose};

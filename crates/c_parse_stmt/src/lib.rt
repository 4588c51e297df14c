//! The parser of statements (C11 6.8): the rules tied together. A statement is proved to be what the grammar reads.
#![tactic(auto)]

mod reader;
mod rules;

pub use reader::{items_within, statement_at};

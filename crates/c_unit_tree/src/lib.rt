//! Trees of declarations, statements and units (C11 6.7 to 6.9), which rule of the grammar each is, the words that they spell, and how deep they are.
#![tactic(auto)]

pub mod declaration;
pub mod statement;
pub mod unit;

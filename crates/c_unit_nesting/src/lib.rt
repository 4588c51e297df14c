//! How deep declarations, statements and units are (C11 6.7 to 6.9).
#![tactic(auto)]

mod depths;

pub use depths::nesting;

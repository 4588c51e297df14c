//! The parser of function definitions and units (C11 6.9), and the public call that reads units.
#![tactic(auto)]

mod externals;
mod functions;
mod nodes;
mod parse;

pub use parse::parse_unit;

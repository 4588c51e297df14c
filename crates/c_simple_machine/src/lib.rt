//! The meaning of simple programs, whose edges step over the functions of memory and values by which the machine of all of C goes (`specs/`).
#![tactic(auto)]

pub mod laws;

pub use laws::acts_once;

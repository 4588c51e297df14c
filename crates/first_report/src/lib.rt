//! The report of a program of the first language, from the places of its statements.
#![tactic(auto)]

mod build;
mod print;

pub use print::{Printed, print_report};

//! One level of a statement of a typed program, by reference (C11 6.8).
#![tactic(auto)]

pub mod loops;
pub mod stmt_shape;

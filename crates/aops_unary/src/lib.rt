//! C's operators with one operand on values that may hold addresses (C11 6.5.3.3).
#![tactic(auto)]

mod unary;

pub use unary::abs_unary;

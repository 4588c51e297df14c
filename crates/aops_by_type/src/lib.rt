//! C's operators with two operands on values that may hold addresses, by the types of the operands (C11 6.5.5 to 6.5.14).
#![tactic(auto)]

mod binary;

pub use binary::{Operand, abs_binary};

//! Reads expressions (C11 6.5.3 to 6.5.17), level by level. Each rule is generic in what reads the operands of its node.
#![tactic(auto)]

mod expression;
mod runs;
mod unary;

pub use expression::expr_rule;

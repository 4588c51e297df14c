//! Reads what expressions begin with: primary expressions and what stands behind them (C11 6.5.1 and 6.5.2).
#![tactic(auto)]

pub mod operands;
pub mod postfix;
pub mod primary;

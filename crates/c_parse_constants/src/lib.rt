//! The enumeration constants that trees declare for what stands behind them (C11 6.2.1p7).
#![tactic(auto)]

mod constants;

pub use constants::{declarator_where, specifiers};

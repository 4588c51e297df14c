//! Calls and returns (C11 6.5.2.2, 6.8.6.4, 6.9.1).
#![tactic(auto)]

pub mod arguments;
pub mod calls;
pub mod functions;
pub mod returns;

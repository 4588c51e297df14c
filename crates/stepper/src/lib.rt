//! A stepper that carries out the meaning of typed programs, one step after the other (C11 5.1.2.3, 6.5, 6.8).
#![tactic(auto)]

pub mod start;
pub mod steps;

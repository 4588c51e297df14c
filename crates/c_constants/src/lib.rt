//! The numbers of integer constant expressions (C11 6.6).
#![tactic(auto)]

pub mod known;

pub use known::Known;

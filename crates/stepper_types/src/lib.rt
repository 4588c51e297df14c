//! Sizes of a program's types, and what conversions and operators on pointers make of values of its types (C11 6.2.5, 6.3, 6.5.6).
#![tactic(auto)]

pub mod bases;
pub mod conversions;
pub mod pointers;
pub mod sizes;

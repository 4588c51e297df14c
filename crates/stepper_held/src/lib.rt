//! What is held while expressions are evaluated, as a place and as a value (C11 6.2.4p8, 6.5.2.1, 6.5.2.3, 6.8.6.4).
#![tactic(auto)]

pub mod places;
pub mod returns;
pub mod stack;

//! Expressions and lvalues unfold to the work of evaluating and finding them, from left to right (C11 5.1.2.3, 6.5).
#![tactic(auto)]

pub mod cells;
pub mod compounds;
pub mod evaluate;
pub mod pushes;
pub mod stepper;

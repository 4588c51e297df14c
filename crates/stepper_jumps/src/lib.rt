//! Where `goto` and `switch` lead (C11 6.8.4.2, 6.8.6.1).
#![tactic(auto)]

pub mod cases;
pub mod gotos;
pub mod labels;
pub mod parts;
pub mod queues;

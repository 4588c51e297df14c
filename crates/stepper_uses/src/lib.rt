//! The steps that use what is held: operators, conversions, loads, stores, places (C11 6.3, 6.5).
#![tactic(auto)]

pub mod accesses;
pub mod choices;
pub mod hold;
pub mod objects;
pub mod operators;
pub mod parts;

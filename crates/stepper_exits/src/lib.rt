//! Where a run is, and the ways out of functions, loops and switches (C11 6.8.6).
#![tactic(auto)]

pub mod exits;
pub mod marks;
pub mod stops;

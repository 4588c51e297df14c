//! Ends of scopes: what is left of a memory when objects have died, and slots that are let go.
#![tactic(auto)]

pub mod laws;
pub mod leaving;

pub use leaving::{Deaths, leave_scope, release};

//! Integer promotions, the types of operands and of constants.
#![tactic(auto)]

mod kinds;

pub use kinds::{common, kind_of_constant, promoted};

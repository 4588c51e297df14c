//! Reads the bodies of structs, unions and enumerations (C11 6.7.2.1 and 6.7.2.2), and lists of specifiers that stand one level deeper.
//! Each rule is generic in what reads the parts of its node.
#![tactic(auto)]

mod enums;
mod members;
mod specified;

pub use enums::enum_at;
pub use members::members_at;
pub use specified::{before_next, is_none, specifiers_below};

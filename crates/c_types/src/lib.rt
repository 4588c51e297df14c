//! C's types without qualifiers, structs and unions: copies, sizes, places of members, and which types are compatible.
#![tactic(auto)]

mod compatible;
mod copies;
pub mod count;
pub mod ctype;
pub mod duplicate;
pub mod sizes;

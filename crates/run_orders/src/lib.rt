//! Which lists of runs include others, which allow one content alone, and what is left of them when an object has died.
#![tactic(auto)]

pub mod deaths;
pub mod inclusion;
pub mod singles;

pub use deaths::{Death, leave_all};
pub use inclusion::included;
pub use singles::{Singles, are_single};

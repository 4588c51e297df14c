//! Cells of values as the laws of maps ask for them: their meaning in each layout, which of them have one content alone, and what is left of them
//! when a base has died.
#![tactic(auto)]

pub mod deaths;
pub mod growing;
pub mod laws;
pub mod meaning;
pub mod singles;
pub mod soles;

pub use deaths::DeathOf;
pub use growing::Growing;
pub use meaning::InLayouts;
pub use singles::OneContent;
pub use soles::OneAlone;

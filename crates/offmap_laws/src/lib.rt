//! What the operations of offset maps mean: each law is the contract of a function that does nothing, over lists of elements. The maps' calls are
//! equal to the functions that these laws speak of.
#![tactic(auto)]

pub mod concrete;
pub mod laws;

pub use concrete::Concrete;

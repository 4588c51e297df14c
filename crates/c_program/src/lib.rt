//! Typed programs: the code's trees, the plain programs that the meaning sees (`specs/Syntax.antt`), and what holds of every program whose
//! types were checked (`specs/Checked.antt`).
#![tactic(auto)]

pub mod answer;
pub mod base;
mod copies;
pub mod laws;
pub mod program;

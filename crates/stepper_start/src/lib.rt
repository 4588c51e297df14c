//! Where the objects of a program stand, and where its runs begin (C11 5.1.2, 6.7.9p10).
#![tactic(auto)]

pub mod layouts;
pub mod memories;

//! The names of a function definition's formals, which are declared in its body (C11 6.2.1p4 and 6.9.1).
#![tactic(auto)]

mod formals;

pub use formals::declare_formals;

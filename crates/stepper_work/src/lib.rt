//! What is still to do in a run, and states, which refer to the program (C11 5.1.2.3).
#![tactic(auto)]

pub mod work;

//! What is known of places before they are found: whether their loads are choices, whether they are parts of values, and what is called
//! at them (C11 6.7.3p7, 6.2.4p8, 6.5.2.2).
#![tactic(auto)]

pub mod natures;

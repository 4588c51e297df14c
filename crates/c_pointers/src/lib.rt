//! Conversions between scalar types and C's operators on pointers, as functions of values in a layout (`specs/`).
#![tactic(auto)]

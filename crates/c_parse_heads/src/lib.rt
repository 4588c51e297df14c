//! What statements have beside their substatements (C11 6.8.4 and 6.8.5): conditions, the parentheses of a `for`, the end of a `do`. Each is proved to be
//! what its part of the grammar reads.
#![tactic(auto)]

pub mod heads;

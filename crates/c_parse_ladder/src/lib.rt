//! `if`, the `else if` behind it, and the last `else` (C11 6.8.4.1). Each rule is proved equal to its form in the grammar.
#![tactic(auto)]

mod ladders;
mod nodes;

pub use ladders::if_inside;

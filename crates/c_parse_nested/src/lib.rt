//! Statements that have one statement in them (C11 6.8.1, 6.8.4.2 and 6.8.5), and what a rule reads that statement with. Each rule is proved equal to its
//! form in the grammar.
#![tactic(auto)]

pub mod below;
pub mod branches;
mod labels;
mod loops;
mod nodes;

pub use labels::{case_rule, default_rule, label_rule};
pub use loops::{do_inside, for_inside, switch_inside, while_inside};

//! When expressions and type names of C are well typed, and what they are then; in `specs/`.
#![tactic(auto)]

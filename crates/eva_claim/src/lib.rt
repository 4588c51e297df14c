//! What a report claims of a program, in `specs/`: definitions alone.
#![tactic(auto)]

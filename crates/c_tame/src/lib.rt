//! Runs in which pointers stay whole and are used as pointers alone (`specs/`).
#![tactic(auto)]

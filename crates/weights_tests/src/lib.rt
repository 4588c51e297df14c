//! Tests of typed programs: what functions count, and copies.
#![tactic(auto)]

#[cfg(test)]
mod weights;

//! In `proofs/`: the shapes that plain functions on sets of integers answer are sound, so that these functions can answer sets.
#![tactic(auto)]

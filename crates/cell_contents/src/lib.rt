//! What cells of values contain, in memory: definitions and lemmas alone.
#![tactic(auto)]

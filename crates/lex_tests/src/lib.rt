//! Tests of the lexer, in a crate of their own so that these are proved once.
#![tactic(auto)]

#[cfg(test)]
mod files;

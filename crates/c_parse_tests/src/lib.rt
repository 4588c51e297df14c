//! Tests of the trees and of their parser, in a crate of their own so that these are proved once.
#![tactic(auto)]

#[cfg(test)]
mod declaring;
#[cfg(test)]
mod tests;
#[cfg(test)]
mod trees;

//! Tests of operators with one operand, of conversions, and of the widening of values, in a crate of their own so that these are proved once; and
//! the bases that these tests and others are about.
#![tactic(auto)]

#[cfg(test)]
mod growth;
#[cfg(test)]
mod ones;
pub mod places;

//! The grammar of C's declarations, statements and units (C11 6.7 to 6.9) as data, in `specs/`, over the parser of expressions, specifiers and
//! declarators. In `proofs/` stands that what it reads is spelled, and that what is spelled it reads.
#![tactic(auto)]

pub mod rule;

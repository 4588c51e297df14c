//! The parser of C's expressions (C11 6.5) and of what their type names reach (C11 6.7.2 to 6.7.7) as functions on token lists, in `specs/`,
//! and the laws of what they find: definitions and proofs alone. The code of the parser is proved equal to them.
#![tactic(auto)]

//! Grammars as data, in `specs/`: a rule is a form, a tree is read or spelled by forms, and one function reads by every grammar. In `proofs/`
//! stands that what it reads is spelled and that what is spelled it reads, for each grammar whose choices are told by the tokens.
#![tactic(auto)]

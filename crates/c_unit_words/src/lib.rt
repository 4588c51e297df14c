//! The words that units spell, in `specs/`: one list each, whatever is in scope. In `proofs/` stands that the tokens which a unit is read from have just
//! these words.
#![tactic(auto)]

//! What maps of an object's bits ask of the cells that stand in them, and what they then are: definitions in `specs/`, and laws of these lists of
//! elements in `proofs/`. The maps' code is proved equal to the functions here.
#![tactic(auto)]

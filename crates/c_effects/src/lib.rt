//! What assignments of structs, initialisers and calls make of memories, as functions (`specs/`).
#![tactic(auto)]

//! What memory holds bit by bit, layouts, loads and stores, and what printed rows say of memories, all in `specs/`; scalar types.
#![tactic(auto)]

pub mod scalar;

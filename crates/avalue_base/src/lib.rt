//! Values with addresses and the cells that hold them, in `specs/`: what they mean in a layout, and the plain functions on them; in `proofs/` their laws.
#![tactic(auto)]

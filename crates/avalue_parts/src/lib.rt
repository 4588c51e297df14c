//! What values consist of: sets of numbers and of byte offsets, addresses, and the bases of mixes.
#![tactic(auto)]

mod bits;
mod element;
mod orders;
mod widening;

pub use bits::{bit_numbers, glued, has_residue, has_row, known_bit, number_of, part, word};
pub use element::{Address, ByOffsets, Member};
pub use orders::{NEAR, is_included, is_near, is_none, joined, meet_of, met_offsets};
pub use widening::{Sizes, Widening, widened};

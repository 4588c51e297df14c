//! Blocks, and what stands in them (C11 6.8.2). Each rule is proved equal to its form in the grammar.
#![tactic(auto)]

mod blocks;

pub use blocks::{block_inside, items_at};

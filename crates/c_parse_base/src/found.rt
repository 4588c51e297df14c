//! What a reader finds.

use c_base::token::Token;
use sqlite_items::Items;

/// A tree at the front of some tokens, how deep it is, and the tokens behind it.
#[derive(Drop)]
pub struct Found<'a, T> {
    pub tree: T,
    /// Counted up to `height::CAP`.
    pub height: u32,
    pub rest: &'a [Token],
}

/// Some trees at the front of some tokens, how deep the deepest is, and the tokens behind them.
#[derive(Drop)]
pub struct Several<'a, T> {
    pub trees: Items<T>,
    /// Counted up to `height::CAP`.
    pub height: u32,
    pub rest: &'a [Token],
}

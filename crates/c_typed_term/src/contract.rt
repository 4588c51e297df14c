//! Contracts of functions.

use crate::predicate::{TPointers, TPred};
use crate::term::TTerm;
use sqlite_items::Items;

/// One clause `assigns`.
#[derive(Drop)]
pub struct TAssigns {
    /// Whether it names `\result`.
    pub result: bool,
    /// What these point to is assigned; empty for `\nothing`.
    pub locations: Items<TPointers>,
    /// The terms behind `\from`; none where there is no `\from`.
    pub sources: Option<Items<TTerm>>,
}

/// A behaviour: what it assumes, asks and promises.
#[derive(Drop)]
pub struct TBehaviour {
    pub assumptions: Items<TPred>,
    pub preconditions: Items<TPred>,
    pub postconditions: Items<TPred>,
}

/// The contract of a function.
#[derive(Drop)]
pub struct TContract {
    pub preconditions: Items<TPred>,
    pub assigns: Items<TAssigns>,
    pub postconditions: Items<TPred>,
    pub behaviours: Items<TBehaviour>,
}

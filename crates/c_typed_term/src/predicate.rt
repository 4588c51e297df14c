//! Predicates.

use crate::term::{TTerm, TermSort};
use c_base::integer::IntKind;
use c_base::operators::Rel;
use c_types::ctype::CType;
use sqlite_items::{Boxed, Items};

/// Pointers: a term of pointer type, or, for each number of a range, that many elements behind it.
#[derive(Drop)]
pub struct TPointers {
    pub first: Boxed<TTerm>,
    /// What they point to.
    pub ctype: CType,
    pub range: Option<TRange>,
}

/// The numbers from `low` to `high`.
#[derive(Drop)]
pub struct TRange {
    pub low: Boxed<TTerm>,
    pub high: Boxed<TTerm>,
}

/// What a predicate asks of pointers.
#[derive(Clone, Copy, Debug, PartialEq, Eq)]
pub enum AccessSort {
    /// A store fits.
    Valid,
    /// A load fits.
    ValidRead,
    /// A load fits and reads nothing that isn't initialised.
    Initialized,
}

/// A relation of a run, and its term on the right.
#[derive(Drop)]
pub struct TRelation {
    pub relation: Rel,
    pub sort: TermSort,
    pub right: Boxed<TTerm>,
}

/// A predicate.
#[cycle(predicates)]
#[derive(Drop)]
pub enum TPred {
    Constant(bool),
    /// A run of relations, each between neighbouring terms.
    Relations(Boxed<TTerm>, Items<TRelation>),
    Not(Boxed<TPred>),
    /// `&&` of one level, from the left.
    All(Boxed<TPred>, Items<TPred>),
    /// `||` of one level, from the left.
    Any(Boxed<TPred>, Items<TPred>),
    Implies(Boxed<TPred>, Boxed<TPred>),
    /// `<==>`, from the left.
    Equivalent(Boxed<TPred>, Items<TPred>),
    /// `t ? p : q`.
    Choice(Boxed<TTerm>, Boxed<TPred>, Boxed<TPred>),
    Access(AccessSort, Boxed<TPointers>),
    Separated(Items<TPointers>),
    Quantified(Boxed<Quantified>),
}

/// `\forall` and `\exists` with the bounds of the variable.
#[cycle(predicates)]
#[derive(Drop)]
pub struct Quantified {
    pub for_all: bool,
    /// The variable's type; none where it is `integer`.
    pub kind: Option<IntKind>,
    pub low: Boxed<TTerm>,
    /// Whether the variable is above `low`, and not only at least `low`.
    pub above: bool,
    pub high: Boxed<TTerm>,
    /// Whether the variable is below `high`, and not only at most `high`.
    pub below: bool,
    pub body: Boxed<TPred>,
}

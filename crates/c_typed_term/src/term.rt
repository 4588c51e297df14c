//! Terms. Their numbers are integers without bound.

use c_base::integer::IntKind;
use c_base::number::BaseId;
use c_base::operators::BinOp;
use c_types::ctype::CType;
use sqlite_items::{Boxed, Items};

/// In which memory a term is read: that of the state, or that at the entry of the function (`\old`, `\at(.., Pre)`).
#[derive(Clone, Copy, Debug, PartialEq, Eq)]
pub enum When {
    Here,
    Entry,
}

/// A term.
#[cycle(terms)]
#[derive(Drop)]
pub enum TTerm {
    Number(u128),
    /// A bound variable, by how many quantifiers stand between it and its own.
    Bound(u32),
    Null,
    /// Unary `-`.
    Negate(Boxed<TTerm>),
    /// `+ - * / %` of one level, from the left.
    Run(Boxed<TTerm>, Items<TTermOperand>),
    /// What a place of the scalar type holds.
    Value(Boxed<TTermPlace>, CType),
    /// `&`, with the type of what is pointed to.
    Address(Boxed<TTermPlace>, CType),
    /// An array as a pointer to its first element, of the type. It isn't written.
    Decay(Boxed<TTermPlace>, CType),
    /// A cast to an integer type, which takes the residue.
    Cast(IntKind, Boxed<TTerm>),
    /// `\old` and `\at`.
    At(When, Boxed<TTerm>),
}

/// What the operands of an operator are.
#[derive(Drop)]
pub enum TermSort {
    Numbers,
    /// A pointer to the type and a number.
    Pointer(CType),
    /// A number and a pointer to the type.
    ToPointer(CType),
    /// Two pointers to the type.
    Pointers(CType),
}

/// An operator of a run, and its operand on the right.
#[cycle(terms)]
#[derive(Drop)]
pub struct TTermOperand {
    pub operator: BinOp,
    pub sort: TermSort,
    pub operand: TTerm,
}

/// A place: a root, and the steps from there.
#[cycle(terms)]
#[derive(Drop)]
pub struct TTermPlace {
    pub root: TTermRoot,
    pub steps: Items<TTermStep>,
}

#[cycle(terms)]
#[derive(Drop)]
pub enum TTermRoot {
    Object(BaseId),
    /// A formal in an `ensures`, which stands for what it held at entry.
    Formal(BaseId),
    /// What a pointer points to.
    Deref(Boxed<TTerm>, CType),
    /// `\result`.
    Result(CType),
    /// A slot that holds a value, in the predicates that are evaluated over simple programs.
    Slot(u32, CType),
}

#[cycle(terms)]
#[derive(Drop)]
pub enum TTermStep {
    /// A member of the struct or union at the place, both by number.
    Member(u32, u32),
    /// An element of the array at the place: its type, and of how many it is one.
    Element(Boxed<TTerm>, CType, u64),
    /// The pointer at the place, and what it points to.
    Follow(CType),
    /// The pointer at the place and a number of elements on, and what that points to.
    Beyond(Boxed<TTerm>, CType),
}

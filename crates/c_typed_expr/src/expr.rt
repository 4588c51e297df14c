//! Typed expressions and lvalues.

use c_base::integer::IntKind;
use c_base::number::{BaseId, SiteId};
use c_base::operators::{BinOp, UnOp};
use c_types::ctype::CType;
use sqlite_items::{Boxed, Items};

/// An expression (C11 6.5), which has a value.
#[cycle(typed)]
#[derive(Drop)]
pub enum TExpr {
    /// An integer or character constant, an enumerator, an offset of a member, a size or an alignment of a type.
    Const(i128, IntKind),
    /// The size of an expression's type in bytes, and how many nodes that expression has, which isn't evaluated (C11 6.5.3.4p2).
    SizeOf(u64, u64),
    /// What an lvalue holds (C11 6.3.2.1p2), or what a call gives.
    Value(Boxed<TLval>, CType),
    /// `&` (C11 6.5.3.2), with the type of what is pointed to.
    Address(Boxed<TLval>, CType),
    /// An array or function as a pointer (C11 6.3.2.1p3 and p4), with the type of what is pointed to.
    Decay(Boxed<TLval>, CType),
    /// `-`, `!`, `~` (C11 6.5.3.3), with the promoted type of the operand.
    Unary(UnOp, IntKind, Boxed<TExpr>),
    /// Operators of one level, from the left (C11 6.5.5 to 6.5.12).
    Run(Boxed<TExpr>, Items<TOperand>),
    /// `&&`, `true`, or `||`, from the left (C11 6.5.13 and 6.5.14).
    Logic(bool, Boxed<TExpr>, Items<TExpr>),
    /// C11 6.5.15, with the type of the result, to which both branches stand converted.
    Conditional(Boxed<TExpr>, Boxed<TExpr>, Boxed<TExpr>, CType),
    /// `=` (C11 6.5.16.1), with the type of the place, to which the value stands converted.
    Assign(Boxed<TLval>, CType, Boxed<TExpr>),
    /// C11 6.5.16.2.
    Compound(Boxed<TCompound>),
    /// `++` or `--` before its operand (C11 6.5.3.1); `true` adds.
    StepBefore(Boxed<TLval>, CType, bool),
    /// A conversion that isn't written (C11 6.3), to the type.
    Convert(CType, Boxed<TExpr>),
    /// A cast, to a scalar type or to void, or unary `+` (C11 6.5.4, 6.5.3.3p2).
    Cast(CType, Boxed<TExpr>),
    /// A pointer where a condition stands: whether it isn't null, as an int (C11 6.8.4.1p2). It isn't written.
    IsSet(CType, Boxed<TExpr>),
    /// C11 6.5.17: what is discarded, and the last.
    Comma(Items<TExpr>, Boxed<TExpr>),
}

/// An operator of a run, and its operand on the right.
#[cycle(typed)]
#[derive(Drop)]
pub struct TOperand {
    pub operator: BinOp,
    /// Whether what stands on the left has another type than `left` and is converted to it (C11 6.3.1.8).
    pub converts: bool,
    pub left: CType,
    pub right: CType,
    /// The type of the result.
    pub ctype: CType,
    pub operand: TExpr,
}

/// A compound assignment: the place is loaded, converted, combined with the operand, converted back and stored.
#[cycle(typed)]
#[derive(Drop)]
pub struct TCompound {
    pub place: Boxed<TLval>,
    pub ctype: CType,
    pub operator: BinOp,
    /// The type to which what the place holds is converted.
    pub left: CType,
    pub right: CType,
    pub operand: Boxed<TExpr>,
}

/// What has a place (C11 6.3.2.1p1), or a function: a root, and the steps from there.
#[cycle(typed)]
#[derive(Drop)]
pub struct TLval {
    pub root: TRoot,
    pub steps: Items<TStep>,
}

#[cycle(typed)]
#[derive(Drop)]
pub enum TRoot {
    /// An object, a function or a string literal.
    Object(BaseId),
    /// What a pointer points to (C11 6.5.3.2p4); `true`: it is volatile.
    Deref(Boxed<TExpr>, CType, bool),
    /// A value without a place of its own (C11 6.2.4p8).
    Temporary(Boxed<TExpr>, CType),
    /// An element where the index is written before the array, and evaluated before it; its type, of how many elements it is one, and
    /// whether the end may be meant.
    ElementOf(Boxed<TExpr>, Boxed<TLval>, CType, u64, bool),
    /// What stands so many elements behind a pointer, where the number is written before it.
    BeyondOf(Boxed<TExpr>, Boxed<TExpr>, CType, bool),
}

/// What stands behind an operand (C11 6.5.2).
#[cycle(typed)]
#[derive(Drop)]
pub enum TStep {
    /// A member of the struct or union at the place, both by number.
    Member(u32, u32),
    /// An element of the array at the place: its type, of how many it is one, and whether the end may be meant, directly under `&`.
    Element(Boxed<TExpr>, CType, u64, bool),
    /// The pointer at the place, and what it points to; `true`: that is volatile.
    Follow(CType, bool),
    /// The pointer at the place and a number of elements on, and what that points to; `true`: that is volatile.
    Beyond(Boxed<TExpr>, CType, bool),
    /// What a call of the function at the place gives, and the function's type where a pointer has led to it.
    Call(SiteId, Items<TExpr>, CType, Option<CType>),
    /// `++` or `--` behind its operand; `true` adds. What was there before.
    StepAfter(CType, bool),
}

//! Expressions without effects, and lvalues.

use c_base::integer::IntKind;
use c_base::number::BaseId;
use c_base::operators::{BinOp, UnOp};
use c_types::ctype::CType;
use sqlite_items::Boxed;

/// An lvalue, or a function.
#[cycle(simple)]
#[derive(Drop)]
pub enum SLval {
    Var(BaseId),
    /// What a slot holds, of the type.
    Held(u32, CType),
    /// What a pointer points to, of the type; `true`: it is volatile.
    Deref(Boxed<SExpr>, CType, bool),
    /// A member of a struct or union, both by number.
    Member(Boxed<SLval>, u32, u32),
    /// An element of an array. Directly in `Addr` its end may be meant (C11 6.5.6p8).
    Index(Boxed<SLval>, Boxed<SExpr>),
}

/// An expression without effects.
#[cycle(simple)]
#[derive(Drop)]
pub enum SExpr {
    Const(i128, IntKind),
    Addr(Boxed<SLval>),
    Load(Boxed<SLval>),
    /// What a slot holds.
    Held(u32),
    /// With the type of the operand.
    Unary(UnOp, CType, Boxed<SExpr>),
    /// With the type of the left operand.
    Binary(BinOp, CType, Boxed<SExpr>, Boxed<SExpr>),
    Convert(CType, Boxed<SExpr>),
}

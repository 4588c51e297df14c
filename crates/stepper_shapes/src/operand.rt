//! References into typed programs.

use c_base::integer::IntKind;
use c_base::number::{SiteId, StmtId};
use c_base::operators::{BinOp, UnOp};
use c_memory::scalar::Scalar;
use c_program::program::Stmt;
use c_typed_expr::expr::{TExpr, TLval, TOperand};
use c_typed_stmt::init::TInit;
use c_typed_stmt::stmt::{TArm, TLoop};
use c_typed_term::predicate::TPred;
use c_types::ctype::CType;
use sqlite_items::{Boxed, Items};

/// One `if` of a ladder.
pub type Arm = TArm<TExpr, TInit, TPred>;

/// A loop.
pub type Loop = TLoop<TExpr, TInit, TPred>;

/// A type that the program names, or one that it implies.
#[derive(Clone, Copy, Drop)]
pub enum ImpliedType<'p> {
    Given(&'p CType),
    /// A pointer to the type.
    PointerTo(&'p CType),
    /// The type of the number of elements that is added to a pointer.
    Long,
    Void,
}

/// The place that a root and so many of its steps lead to.
#[derive(Clone, Copy, Drop)]
pub struct Place<'p> {
    pub lvalue: &'p Boxed<TLval>,
    pub steps: usize,
}

/// A statement. Where a number names none, it does nothing.
#[derive(Clone, Copy, Drop)]
pub enum Statement<'p> {
    Whole(&'p Boxed<Stmt>),
    Listed(&'p Items<Stmt>, usize),
    /// A ladder of `if`s from one of its arms on, and what its last `else` has.
    Ladder(&'p Items<Arm>, usize, &'p Option<Boxed<Stmt>>),
    /// What an arm of a ladder does.
    Then(&'p Items<Arm>, usize),
    Loop(&'p Boxed<Loop>),
    /// The body of a loop.
    Body(&'p Boxed<Loop>),
    /// The first and the third part of a `for`.
    First(&'p Boxed<Loop>),
    Next(&'p Boxed<Loop>),
}

/// An expression. Where a number names none, it is 0.
#[derive(Clone, Copy, Drop)]
pub enum Operand<'p> {
    Whole(&'p Boxed<TExpr>),
    Listed(&'p Items<TExpr>, usize),
    /// The right operand of one of a run's operators.
    Right(&'p Items<TOperand>, usize),
    /// The first so many operators of a run.
    Run(&'p Boxed<TExpr>, &'p Items<TOperand>, usize),
    /// The same, converted as the next operator asks for.
    Converted(&'p Boxed<TExpr>, &'p Items<TOperand>, usize),
    /// The first so many `&&`, `true`, or `||`.
    Logic(bool, &'p Boxed<TExpr>, &'p Items<TExpr>, usize),
    /// What follows so many operands of commas.
    Comma(&'p Items<TExpr>, usize, &'p Boxed<TExpr>),
    /// What stands at a place.
    At(ImpliedType<'p>, Place<'p>),
    /// The expression in the last part of a place.
    Inside(Place<'p>),
    /// A null pointer of the type, and its number.
    Null(ImpliedType<'p>),
    Zero,
    /// The expression that a statement begins with.
    Of(Statement<'p>),
}

/// One level of an expression.
#[derive(Clone, Copy, Drop)]
pub enum Shape<'p> {
    Number(IntKind, i128),
    Load(Scalar, Place<'p>),
    Binary(BinOp, IntKind, Operand<'p>, Operand<'p>),
    Assign(Scalar, Place<'p>, Operand<'p>),
    LoadCells(ImpliedType<'p>, Place<'p>),
    AssignCells(ImpliedType<'p>, Place<'p>, Operand<'p>),
    Address(ImpliedType<'p>, Place<'p>),
    Unary(UnOp, IntKind, Operand<'p>),
    Convert(ImpliedType<'p>, Operand<'p>),
    OnPointers(BinOp, ImpliedType<'p>, ImpliedType<'p>, Operand<'p>, Operand<'p>),
    Logic(bool, Operand<'p>, Operand<'p>),
    Conditional(ImpliedType<'p>, Operand<'p>, Operand<'p>, Operand<'p>),
    Compound(Change<'p>),
    Step(bool, bool, ImpliedType<'p>, Place<'p>),
    Comma(Operand<'p>, Operand<'p>),
    Call(SiteId, ImpliedType<'p>, Place<'p>, &'p Items<TExpr>),
}

/// A compound assignment (C11 6.5.16.2).
#[derive(Clone, Copy, Drop)]
pub struct Change<'p> {
    pub operator: BinOp,
    pub ctype: ImpliedType<'p>,
    pub left: ImpliedType<'p>,
    pub right: ImpliedType<'p>,
    pub place: Place<'p>,
    pub operand: Operand<'p>,
}

/// The last part of a place.
#[derive(Clone, Copy, Drop)]
pub enum PlaceShape<'p> {
    Variable(u32),
    Pointed(Operand<'p>, ImpliedType<'p>, bool),
    Temporary(Operand<'p>, ImpliedType<'p>),
    Member(Place<'p>, u32, u32),
    Element(Place<'p>, Operand<'p>, ImpliedType<'p>, u64, bool),
    ElementOf(Operand<'p>, Place<'p>, ImpliedType<'p>, u64, bool),
}

//! Statements.

use c_base::name::Name;
use c_base::number::{BaseId, StmtId};
use sqlite_items::{Boxed, Items};

/// A statement (C11 6.8) that holds expressions `E`, initialisers `I` and predicates `P`.
#[cycle(statement)]
#[derive(Drop)]
pub enum TStmt<E, I, P> {
    Expr(StmtId, E),
    /// A declarator of an automatic object with its initialiser (C11 6.7.9).
    Init(StmtId, BaseId, I),
    Block(TBlock<E, I, P>),
    /// A ladder of `if`s, each but the first behind an `else`, and what the last `else` has (C11 6.8.4.1).
    If(Items<TArm<E, I, P>>, Option<Boxed<TStmt<E, I, P>>>),
    Loop(Boxed<TLoop<E, I, P>>),
    Switch(StmtId, E, Boxed<TStmt<E, I, P>>),
    /// `case` with its value, or `default` (C11 6.8.1).
    Case(Option<i128>, Boxed<TStmt<E, I, P>>),
    Label(Name, Boxed<TStmt<E, I, P>>),
    Goto(StmtId, Name),
    Break(StmtId),
    Continue(StmtId),
    Return(StmtId, Option<E>),
    Empty(StmtId),
    /// The annotation `assert`.
    Assert(StmtId, P),
}

/// One `if` of a ladder.
#[cycle(statement)]
#[derive(Drop)]
pub struct TArm<E, I, P> {
    pub id: StmtId,
    pub cond: E,
    pub body: TStmt<E, I, P>,
}

/// A block with its objects, in source order.
#[cycle(statement)]
#[derive(Drop)]
pub struct TBlock<E, I, P> {
    pub locals: Items<BaseId>,
    pub stmts: Items<TStmt<E, I, P>>,
}

/// Which loop it is (C11 6.8.5).
#[derive(Clone, Copy, Debug, PartialEq, Eq)]
pub enum LoopSort {
    While,
    Do,
    For,
}

/// The first or the third expression of a `for`, with its number.
#[derive(Drop)]
pub struct Numbered<E> {
    pub id: StmtId,
    pub value: E,
}

/// A loop. A `for` that declares objects stands in a block that has them.
#[cycle(statement)]
#[derive(Drop)]
pub struct TLoop<E, I, P> {
    pub sort: LoopSort,
    pub first: Option<Numbered<E>>,
    pub id: StmtId,
    pub invariants: Items<P>,
    /// None in a `for` without condition.
    pub cond: Option<E>,
    pub next: Option<Numbered<E>>,
    pub body: TStmt<E, I, P>,
}

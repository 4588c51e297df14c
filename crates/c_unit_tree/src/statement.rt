//! Statements (C11 6.8), generic in the expressions, declarations and attributes that they hold. Nothing recurses along a list of items or a ladder of
//! `else if`.

use c_base::name::Name;
use c_base::number::Span;
use sqlite_items::{Boxed, Items};

/// C11 6.8.
#[cycle(statement)]
#[derive(Drop)]
pub enum Statement<E, D, A> {
    /// C11 6.8.2.
    Block {
        span: Span,
        items: Items<BlockItem<E, D, A>>,
    },
    /// C11 6.8.3; without an expression it is the null statement.
    Expression {
        span: Span,
        value: Option<E>,
    },
    /// One attribute and `;`.
    Attribute {
        span: Span,
        attribute: A,
    },
    /// C11 6.8.4.1: an `if`, the `else if` behind it, and the last `else`.
    If {
        span: Span,
        condition: E,
        branch: Boxed<Statement<E, D, A>>,
        more: Items<Arm<E, D, A>>,
        otherwise: Option<Boxed<Statement<E, D, A>>>,
    },
    /// C11 6.8.4.2.
    Switch {
        span: Span,
        value: E,
        body: Boxed<Statement<E, D, A>>,
    },
    /// C11 6.8.5.1.
    While {
        span: Span,
        condition: E,
        body: Boxed<Statement<E, D, A>>,
    },
    /// C11 6.8.5.2, with the place of its `while`.
    Do {
        span: Span,
        body: Boxed<Statement<E, D, A>>,
        place: Span,
        condition: E,
    },
    /// C11 6.8.5.3.
    For {
        span: Span,
        first: First<E, D>,
        second: Option<E>,
        third: Option<E>,
        body: Boxed<Statement<E, D, A>>,
    },
    /// C11 6.8.6.1.
    Goto {
        span: Span,
        name: Name,
    },
    /// C11 6.8.6.2.
    Continue {
        span: Span,
    },
    /// C11 6.8.6.3.
    Break {
        span: Span,
    },
    /// C11 6.8.6.4.
    Return {
        span: Span,
        value: Option<E>,
    },
    /// C11 6.8.1.
    Label {
        span: Span,
        name: Name,
        labelled: Boxed<Statement<E, D, A>>,
    },
    /// C11 6.8.1.
    Case {
        span: Span,
        value: E,
        labelled: Boxed<Statement<E, D, A>>,
    },
    /// C11 6.8.1.
    Default {
        span: Span,
        labelled: Boxed<Statement<E, D, A>>,
    },
}

/// `else if (condition) branch`, with the place of its `if`.
#[cycle(statement)]
#[derive(Drop)]
pub struct Arm<E, D, A> {
    pub span: Span,
    pub condition: E,
    pub branch: Statement<E, D, A>,
}

/// What stands in a block (C11 6.8.2).
#[cycle(statement)]
#[derive(Drop)]
pub enum BlockItem<E, D, A> {
    Declaration(D),
    Statement(Statement<E, D, A>),
}

/// The first part of a `for` (C11 6.8.5.3).
#[derive(Drop)]
pub enum First<E, D> {
    Declaration(D),
    Expression(Option<E>),
}

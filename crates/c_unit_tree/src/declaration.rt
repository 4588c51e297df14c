//! Declarations (C11 6.7) and their initialisers.

use c_base::name::Name;
use c_base::number::Span;
use c_tree::tree::{Attribute, Declarator, Expr, Specifier};
use sqlite_items::Items;

/// What stands behind `=` in a declarator, or in an item of braces (C11 6.7.9).
#[cycle(initialiser)]
#[derive(Drop)]
pub enum Initialiser<E> {
    Expression(E),
    Braces(Braces<E>),
}

/// Initialisers in braces; `comma`: one stands before the closing brace.
#[cycle(initialiser)]
#[derive(Drop)]
pub struct Braces<E> {
    pub span: Span,
    pub items: Items<Item<E>>,
    pub comma: bool,
}

/// An initialiser in braces, with its designators.
#[cycle(initialiser)]
#[derive(Drop)]
pub struct Item<E> {
    pub designators: Items<Designator<E>>,
    pub value: Initialiser<E>,
}

/// C11 6.7.9.
#[derive(Drop)]
pub enum Designator<E> {
    /// `[constant]`
    Index(E),
    /// `.name`
    Member(Name),
}

/// The string literals of `__asm__("..")` behind a declarator.
#[derive(Drop)]
pub struct Assembly {
    pub literals: Items<Items<u8>>,
}

/// What stands behind a declarator: its assembly label, its attributes and its initialiser.
#[derive(Drop)]
pub struct DeclaratorRest {
    pub assembly: Option<Assembly>,
    pub attributes: Items<Attribute>,
    pub initialiser: Option<Initialiser<Expr>>,
}

/// A declarator of a declaration (C11 6.7).
#[derive(Drop)]
pub struct InitDeclarator {
    pub declarator: Declarator,
    pub rest: DeclaratorRest,
}

/// C11 6.7.
#[derive(Drop)]
pub enum Declaration {
    Declarators {
        span: Span,
        specifiers: Items<Specifier>,
        declarators: Items<InitDeclarator>,
    },
    /// `_Static_assert` (C11 6.7.10), with its string literals.
    Assertion {
        span: Span,
        condition: Expr,
        literals: Items<Items<u8>>,
    },
}

//! What the reader of trees is asked for, and what it answers.

use c_parse_base::purpose::{Before, Purpose};
use c_tree::tree::{Declarator, Expr, Specifier, TypeName};

/// What is asked for.
#[derive(Clone, Copy, PartialEq, Eq)]
pub enum Ask {
    /// An expression of at least this level.
    Expr(u32),
    /// A type name or a parameter.
    Typing(Purpose),
    /// A specifier behind others.
    Specifier(Purpose, Before),
    /// A declarator behind specifiers.
    Declarator(Purpose, Before),
}

/// What is found.
#[derive(Drop)]
pub enum Answer {
    Expr(Expr),
    Typing(TypeName),
    Specifier(Specifier),
    Declarator(Declarator),
}

//! Units (C11 6.9).

use crate::declaration::Declaration;
use crate::statement::{BlockItem, Statement};
use c_base::number::Span;
use c_tree::tree::{Attribute, Declarator, Expr, Specifier};
use sqlite_items::Items;

/// A statement of a unit.
pub type UnitStatement = Statement<Expr, Declaration, Attribute>;

/// What stands in a block of a unit.
pub type UnitItem = BlockItem<Expr, Declaration, Attribute>;

/// The block of a function definition, with the places of its braces.
#[derive(Drop)]
pub struct Body {
    pub span: Span,
    pub items: Items<UnitItem>,
    pub closing: Span,
}

/// A function definition (C11 6.9.1).
#[derive(Drop)]
pub struct Function {
    pub span: Span,
    pub specifiers: Items<Specifier>,
    pub declarator: Declarator,
    pub body: Body,
}

/// An external declaration (C11 6.9).
#[derive(Drop)]
pub enum External {
    /// `;` alone.
    Empty { span: Span },
    Declaration(Declaration),
    Function(Function),
}

/// A translation unit (C11 6.9).
#[derive(Drop)]
pub struct Unit {
    pub externals: Items<External>,
}

//! Typed programs.

use crate::base::BaseSort;
use c_base::integer::Machine;
use c_base::name::Name;
use c_base::number::{BaseId, Span, StmtId};
use c_typed_expr::expr::TExpr;
use c_typed_stmt::init::{Image, TInit};
use c_typed_stmt::stmt::{TBlock, TStmt};
use c_typed_term::contract::TContract;
use c_typed_term::predicate::TPred;
use c_types::ctype::{CType, Composites};
use sqlite_items::Items;

/// A block of a typed program.
pub type Block = TBlock<TExpr, TInit, TPred>;

/// A statement of a typed program.
pub type Stmt = TStmt<TExpr, TInit, TPred>;

/// An object, a function, or a string literal.
#[derive(Drop)]
pub struct Base {
    /// That of a string literal is `str`, that of an object of the outside `ctx`.
    pub name: Name,
    pub ctype: CType,
    /// In bytes; a function has 1.
    pub size: u64,
    pub sort: BaseSort,
    /// Whether a store through a pointer is undefined (C11 6.7.3p6, 6.4.5p7).
    pub readonly: bool,
    /// Whether a load may give any value (C11 6.7.3p7).
    pub volatile: bool,
    /// What a static object or a string literal holds before the run, where it isn't zero everywhere.
    pub image: Option<Image>,
    /// Of a function: whether its name is used otherwise than as the function of a direct call.
    pub named: bool,
}

/// A function, with its body where it has one.
#[derive(Drop)]
pub struct Function {
    pub base: BaseId,
    /// Those of its definition, in order; none where it has no body.
    pub formals: Items<BaseId>,
    /// Where the function has no body, slot n of its terms is parameter number n.
    pub contract: Option<TContract>,
    pub body: Option<Block>,
    /// The number of the closing brace.
    pub end: StmtId,
}

/// Where a numbered statement stands: its first token, and its function.
#[derive(Clone, Copy, Debug, PartialEq, Eq)]
pub struct StmtPlace {
    pub span: Span,
    pub function: BaseId,
}

/// A file whose names are resolved and whose expressions have types.
#[derive(Drop)]
pub struct TypedProgram {
    pub machine: Machine,
    pub comps: Composites,
    /// By number.
    pub bases: Items<Base>,
    /// By ascending base.
    pub functions: Items<Function>,
    /// The function that is entered first.
    pub entry: BaseId,
    /// Whether static objects that aren't const begin with any content.
    pub lib_entry: bool,
    /// Where a widened bound stops: ascending.
    pub marks: Items<i128>,
    /// The numbered statements, from number 1.
    pub statements: Items<StmtPlace>,
}

/// A program where only its machine, its structs and unions and its bases are used.
pub type Sizes = TypedProgram;

//! The rules of the grammar, and the sorts of what they read.

/// The rules: each reads one sort of node.
#[derive(Clone, Copy)]
pub enum Rule {
    /// `;` outside functions.
    Empty,
    /// C11 6.7.10.
    Assertion,
    /// C11 6.9: a declaration or a function definition.
    External,
    /// C11 6.7.
    Declaration,
    /// What stands in braces behind `=` (C11 6.7.9).
    Braces,
    /// The block of a function definition (C11 6.9.1).
    Body,
    /// C11 6.8.2.
    Block,
    /// C11 6.8.3; without an expression it is the null statement.
    Expression,
    /// One attribute and `;`.
    Attribute,
    /// C11 6.8.4.1, with the whole ladder of its `else if`.
    If,
    /// C11 6.8.4.2.
    Switch,
    /// C11 6.8.5.1.
    While,
    /// C11 6.8.5.2.
    Do,
    /// C11 6.8.5.3.
    For,
    /// C11 6.8.6.1.
    Goto,
    /// C11 6.8.6.2.
    Continue,
    /// C11 6.8.6.3.
    Break,
    /// C11 6.8.6.4.
    Return,
    /// C11 6.8.1.
    Label,
    /// C11 6.8.1.
    Case,
    /// C11 6.8.1.
    Default,
}

/// What is read where.
#[derive(Clone, Copy)]
pub enum Sort {
    External,
    Declaration,
    Braces,
    Body,
    Statement,
    /// A statement that is no `if`.
    Other,
}

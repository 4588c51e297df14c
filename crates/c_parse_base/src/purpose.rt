//! What specifiers and a declarator are read for.

/// What specifiers and a declarator are for.
#[derive(Clone, Copy, PartialEq, Eq)]
pub enum Purpose {
    /// A type name, whose declarator has no name (C11 6.7.7).
    TypeName,
    /// A parameter, whose declarator may have one (C11 6.7.6).
    Parameter,
    /// A member or a declaration, whose declarator has one (C11 6.7.2.1 and 6.7.6).
    Member,
}

/// What stands before a specifier, among its own.
#[derive(Clone, Copy, PartialEq, Eq)]
pub enum Before {
    /// No type specifier.
    Untyped,
    /// A type specifier.
    Typed,
    /// A type specifier, and its closing brace is just before.
    Braced,
}

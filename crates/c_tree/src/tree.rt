//! The trees. Each node has the place of its first token; a run of operators of one level, a run of postfix parts and a list with
//! commas are one node each.

ghost use Rattle.std.specs.Prelude.{◌≡◌, Some};
ghost use Rattle.c_tree.specs.Views.{tree_of};
ghost use Rattle.c_tree.specs.WellFormed.{place_of};

use crate::operator::{AssignmentOperator, BinaryOperator, PrefixOperator, TypeOperator};
use c_base::name::Name;
use c_base::number::Span;
use c_base::token::{IntegerConstant, Keyword, Word};
use sqlite_items::{Boxed, Items};

/// An expression (C11 6.5).
#[cycle(tree)]
#[derive(Drop)]
pub enum Expr {
    /// A name that is no typedef name (C11 6.5.1).
    Name {
        span: Span,
        name: Name,
    },
    Integer {
        span: Span,
        constant: IntegerConstant,
    },
    /// A floating constant, whose value plays no part.
    Floating {
        span: Span,
    },
    /// A character constant: its byte.
    Character {
        span: Span,
        byte: u8,
    },
    /// Neighbouring string literals, which are one (C11 5.1.1.2): the bytes of each.
    Text {
        span: Span,
        literals: Items<Items<u8>>,
    },
    /// An expression in parentheses.
    Parenthesised {
        span: Span,
        inner: Boxed<Expr>,
    },
    /// An operand and what stands behind it, from the left (C11 6.5.2).
    Postfix {
        span: Span,
        first: Boxed<Expr>,
        parts: Items<PostfixPart>,
    },
    /// C11 6.5.3.
    Prefix {
        span: Span,
        operator: PrefixOperator,
        operand: Boxed<Expr>,
    },
    /// `sizeof (type)` and `_Alignof (type)` (C11 6.5.3.4).
    OfType {
        span: Span,
        operator: TypeOperator,
        type_name: Boxed<TypeName>,
    },
    /// `__builtin_offsetof (type, member)`, as what C11 7.19 calls `offsetof`.
    Offsetof {
        span: Span,
        type_name: Boxed<TypeName>,
        member: Name,
    },
    /// `(type) operand` (C11 6.5.4).
    Cast {
        span: Span,
        type_name: Boxed<TypeName>,
        operand: Boxed<Expr>,
    },
    /// Operators of one level, which group from the left (C11 6.5.5 to 6.5.14).
    Run {
        span: Span,
        first: Boxed<Expr>,
        more: Items<Operand>,
    },
    /// C11 6.5.15.
    Conditional {
        span: Span,
        condition: Boxed<Expr>,
        when_true: Boxed<Expr>,
        when_false: Boxed<Expr>,
    },
    /// C11 6.5.16.
    Assignment {
        span: Span,
        target: Boxed<Expr>,
        operator: AssignmentOperator,
        value: Boxed<Expr>,
    },
    /// C11 6.5.17.
    Comma {
        span: Span,
        first: Boxed<Expr>,
        more: Items<Expr>,
    },
}

impl Expr {
    /// The place of the expression's first token.
    pub fn span(&self) -> Span
        ensures { place_of (tree_of self.now) ≡ Some result }
    {
        match self {
            Expr::Name { span, name: _ } => *span,
            Expr::Integer { span, constant: _ } => *span,
            Expr::Floating { span } => *span,
            Expr::Character { span, byte: _ } => *span,
            Expr::Text { span, literals: _ } => *span,
            Expr::Parenthesised { span, inner: _ } => *span,
            Expr::Postfix {
                span,
                first: _,
                parts: _,
            } => *span,
            Expr::Prefix {
                span,
                operator: _,
                operand: _,
            } => *span,
            Expr::OfType {
                span,
                operator: _,
                type_name: _,
            } => *span,
            Expr::Offsetof {
                span,
                type_name: _,
                member: _,
            } => *span,
            Expr::Cast {
                span,
                type_name: _,
                operand: _,
            } => *span,
            Expr::Run {
                span,
                first: _,
                more: _,
            } => *span,
            Expr::Conditional {
                span,
                condition: _,
                when_true: _,
                when_false: _,
            } => *span,
            Expr::Assignment {
                span,
                target: _,
                operator: _,
                value: _,
            } => *span,
            Expr::Comma {
                span,
                first: _,
                more: _,
            } => *span,
        }
    }
}

/// What stands behind an operand (C11 6.5.2).
#[cycle(tree)]
#[derive(Drop)]
pub enum PostfixPart {
    Index(Expr),
    /// A call, with the place of its `(`.
    Call {
        opening: Span,
        arguments: Items<Expr>,
    },
    Member(Name),
    Arrow(Name),
    Increment,
    Decrement,
}

/// An operator of a run and the operand on its right.
#[cycle(tree)]
#[derive(Drop)]
pub struct Operand {
    pub operator: BinaryOperator,
    pub operand: Expr,
}

/// A type name (C11 6.7.7), or a parameter of a function type (C11 6.7.6), whose declarator may have a name.
#[cycle(tree)]
#[derive(Drop)]
pub struct TypeName {
    pub span: Span,
    pub specifiers: Items<Specifier>,
    pub declarator: Option<Declarator>,
}

/// `__attribute__((words))`, of which nothing but its words is kept.
#[derive(Drop)]
pub struct Attribute {
    pub span: Span,
    pub words: Items<Word>,
}

#[derive(Clone, Copy, PartialEq, Eq)]
pub enum CompositeSort {
    Struct,
    Union,
}

/// A specifier or qualifier of a declaration (C11 6.7.1 to 6.7.4).
#[cycle(tree)]
#[derive(Drop)]
pub enum Specifier {
    Keyword {
        span: Span,
        keyword: Keyword,
    },
    /// A typedef name (C11 6.7.8).
    Typedef {
        span: Span,
        name: Name,
    },
    Attribute(Attribute),
    /// A struct or union by its tag (C11 6.7.2.3).
    CompositeTag {
        span: Span,
        sort: CompositeSort,
        attributes: Items<Attribute>,
        tag: Name,
    },
    /// A struct or union with its members (C11 6.7.2.1).
    Composite {
        span: Span,
        sort: CompositeSort,
        attributes: Items<Attribute>,
        tag: Option<Name>,
        members: Items<Member>,
        trailing: Items<Attribute>,
    },
    /// An enum by its tag (C11 6.7.2.3).
    EnumTag {
        span: Span,
        tag: Name,
    },
    /// An enum with its constants (C11 6.7.2.2); `comma`: one stands before the closing brace.
    Enum {
        span: Span,
        tag: Option<Name>,
        enumerators: Items<Enumerator>,
        comma: bool,
    },
}

/// An enumeration constant, and the value that it is given (C11 6.7.2.2).
#[cycle(tree)]
#[derive(Drop)]
pub struct Enumerator {
    pub span: Span,
    pub name: Name,
    pub value: Option<Expr>,
}

/// What stands in the braces of a struct or union (C11 6.7.2.1).
#[cycle(tree)]
#[derive(Drop)]
pub enum Member {
    Fields {
        span: Span,
        specifiers: Items<Specifier>,
        fields: Items<Field>,
    },
    /// `_Static_assert` (C11 6.7.10), with its string literals.
    Assertion {
        span: Span,
        condition: Expr,
        literals: Items<Items<u8>>,
    },
}

/// A member, or a bit-field with its width (C11 6.7.2.1).
#[cycle(tree)]
#[derive(Drop)]
pub enum Field {
    Declared {
        span: Span,
        declarator: Declarator,
        width: Option<Expr>,
        attributes: Items<Attribute>,
    },
    /// A bit-field without a name.
    Padding {
        span: Span,
        width: Expr,
    },
}

/// A qualifier or an attribute behind a `*`.
#[derive(Drop)]
pub enum Qualifier {
    Keyword(Keyword),
    Attribute(Attribute),
}

/// A `*` of a declarator, with what qualifies it (C11 6.7.6.1).
#[derive(Drop)]
pub struct Pointer {
    pub span: Span,
    pub qualifiers: Items<Qualifier>,
}

/// A declarator, with or without a name (C11 6.7.6 and 6.7.7), in the order of its tokens.
#[cycle(tree)]
#[derive(Drop)]
pub struct Declarator {
    pub span: Span,
    pub pointers: Items<Pointer>,
    pub core: Core,
    pub suffixes: Items<Suffix>,
}

/// What the pointers and suffixes of a declarator stand around.
#[cycle(tree)]
#[derive(Drop)]
pub enum Core {
    /// Nothing, in a type name.
    Absent,
    Named {
        span: Span,
        name: Name,
    },
    Group {
        span: Span,
        inner: Boxed<Declarator>,
    },
}

/// What stands behind a declarator's name (C11 6.7.6.2 and 6.7.6.3).
#[cycle(tree)]
#[derive(Drop)]
pub enum Suffix {
    /// `[qualifiers and "static" bound]`
    Array {
        span: Span,
        qualifiers: Items<Keyword>,
        bound: Option<Expr>,
    },
    /// `(parameters)`; `variadic`: the last is `...`.
    Function {
        span: Span,
        parameters: Items<TypeName>,
        variadic: bool,
    },
}

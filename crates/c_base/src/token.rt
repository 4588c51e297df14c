//! The words of a file (C11 6.4), and tokens, which are words with their places.

use crate::name::Name;
use crate::number::Span;
use sqlite_items::Items;

/// C11's keywords (6.4.1), and four words of GCC that stand where no name can. `__inline`, `__const` and their like are the same words.
#[derive(Clone, Copy, Debug, PartialEq, Eq)]
pub enum Keyword {
    Auto,
    Break,
    Case,
    Char,
    Const,
    Continue,
    Default,
    Do,
    Double,
    Else,
    Enum,
    Extern,
    Float,
    For,
    Goto,
    If,
    Inline,
    Int,
    Long,
    Register,
    Restrict,
    Return,
    Short,
    Signed,
    Sizeof,
    Static,
    Struct,
    Switch,
    Typedef,
    Union,
    Unsigned,
    Void,
    Volatile,
    While,
    Alignas,
    Alignof,
    Atomic,
    Bool,
    Complex,
    Generic,
    Imaginary,
    Noreturn,
    StaticAssert,
    ThreadLocal,
    /// `asm`, `__asm` or `__asm__`.
    Asm,
    /// `__attribute` or `__attribute__`.
    Attribute,
    /// `__builtin_offsetof`.
    BuiltinOffsetof,
    /// `__builtin_va_list`.
    BuiltinVaList,
}

/// C11's punctuators (6.4.6) without digraphs, `#` and `##`; and three of ACSL, which stand inside annotations alone.
#[derive(Clone, Copy, Debug, PartialEq, Eq)]
pub enum Punctuator {
    OpenBracket,
    CloseBracket,
    OpenParenthesis,
    CloseParenthesis,
    OpenBrace,
    CloseBrace,
    Dot,
    Arrow,
    Increment,
    Decrement,
    Ampersand,
    Star,
    Plus,
    Minus,
    Tilde,
    Exclamation,
    Slash,
    Percent,
    ShiftLeft,
    ShiftRight,
    Less,
    Greater,
    LessEqual,
    GreaterEqual,
    Equal,
    NotEqual,
    Caret,
    Bar,
    AndAnd,
    OrOr,
    Question,
    Colon,
    Semicolon,
    Ellipsis,
    Assign,
    StarAssign,
    SlashAssign,
    PercentAssign,
    PlusAssign,
    MinusAssign,
    ShiftLeftAssign,
    ShiftRightAssign,
    AmpersandAssign,
    CaretAssign,
    BarAssign,
    Comma,
    /// `..`, of ACSL's ranges.
    DotDot,
    /// `==>`, ACSL's implication.
    Implies,
    /// `<==>`, ACSL's equivalence.
    Equivalent,
}

/// In which base an integer constant is written (C11 6.4.4.1).
#[derive(Clone, Copy, Debug, PartialEq, Eq)]
pub enum Radix {
    Octal,
    Decimal,
    Hexadecimal,
}

/// How many letters `l` the suffix of an integer constant has (C11 6.4.4.1).
#[derive(Clone, Copy, Debug, PartialEq, Eq)]
pub enum Length {
    Plain,
    Long,
    LongLong,
}

/// An integer constant (C11 6.4.4.1): its type follows from its value, base and suffix. 0 is octal.
#[derive(Clone, Copy, Debug, PartialEq, Eq)]
pub struct IntegerConstant {
    pub value: u128,
    pub radix: Radix,
    pub unsigned: bool,
    pub length: Length,
}

/// What a token is, one variant a sort.
#[derive(Debug, Drop)]
pub enum Word {
    /// A name that is no keyword.
    Identifier(Name),
    Keyword(Keyword),
    Punctuator(Punctuator),
    Integer(IntegerConstant),
    /// A floating constant, whose value plays no part.
    Floating,
    /// A character constant: its byte, from 0 to 255 (C11 6.4.4.4).
    Character(u8),
    /// A string literal: its bytes without the closing zero (C11 6.4.5).
    Text(Items<u8>),
    /// The `/*@` or `//@` before an annotation.
    OpenAnnotation,
    /// The end of an annotation.
    CloseAnnotation,
    /// A word of ACSL with its backslash, as `\valid`.
    AnnotationWord(Name),
}

/// A word with the place of its first byte.
#[derive(Debug, Drop)]
pub struct Token {
    pub word: Word,
    pub span: Span,
}

/// What is wrong with the first piece of a file that can't be cut into tokens (C11 6.4).
#[derive(Clone, Copy, Debug, PartialEq, Eq)]
pub enum LexSort {
    /// A byte that begins no token, or that can't stand in a character constant or an escape.
    BadByte,
    /// A comment or an annotation without its end.
    OpenComment,
    /// A string or a character constant without its end on its line.
    OpenString,
    /// What begins like a number and is none, or a number of 2^128 or more.
    BadNumber,
}

//! The operators of expressions, and their words.
ghost use Rattle.std.specs.Prelude.{◌≡◌};
ghost use Rattle.c_tree.specs.Spelling.{word_of_prefix, word_of_type_operator, mark_of_binary, mark_of_assignment};

use c_base::token::{Keyword, Punctuator, Word};

/// What stands before an operand (C11 6.5.3).
#[derive(Clone, Copy, PartialEq, Eq)]
pub enum PrefixOperator {
    Increment,
    Decrement,
    Address,
    Indirection,
    Plus,
    Minus,
    Complement,
    Not,
    Sizeof,
}

/// What asks for a property of a type (C11 6.5.3.4).
#[derive(Clone, Copy, PartialEq, Eq)]
pub enum TypeOperator {
    Sizeof,
    Alignof,
}

/// What stands between two operands and groups from the left (C11 6.5.5 to 6.5.14).
#[derive(Clone, Copy, PartialEq, Eq)]
pub enum BinaryOperator {
    Multiply,
    Divide,
    Remainder,
    Add,
    Subtract,
    ShiftLeft,
    ShiftRight,
    Less,
    Greater,
    LessEqual,
    GreaterEqual,
    Equal,
    NotEqual,
    BitAnd,
    BitXor,
    BitOr,
    And,
    Or,
}

/// C11 6.5.16.
#[derive(Clone, Copy, PartialEq, Eq)]
pub enum AssignmentOperator {
    Plain,
    Multiply,
    Divide,
    Remainder,
    Add,
    Subtract,
    ShiftLeft,
    ShiftRight,
    BitAnd,
    BitXor,
    BitOr,
}

impl PrefixOperator {
    pub fn word(self) -> Word
        ensures { result ≡ word_of_prefix self }
    {
        match self {
            PrefixOperator::Increment => Word::Punctuator(Punctuator::Increment),
            PrefixOperator::Decrement => Word::Punctuator(Punctuator::Decrement),
            PrefixOperator::Address => Word::Punctuator(Punctuator::Ampersand),
            PrefixOperator::Indirection => Word::Punctuator(Punctuator::Star),
            PrefixOperator::Plus => Word::Punctuator(Punctuator::Plus),
            PrefixOperator::Minus => Word::Punctuator(Punctuator::Minus),
            PrefixOperator::Complement => Word::Punctuator(Punctuator::Tilde),
            PrefixOperator::Not => Word::Punctuator(Punctuator::Exclamation),
            PrefixOperator::Sizeof => Word::Keyword(Keyword::Sizeof),
        }
    }
}

impl TypeOperator {
    pub fn word(self) -> Word
        ensures { result ≡ word_of_type_operator self }
    {
        match self {
            TypeOperator::Sizeof => Word::Keyword(Keyword::Sizeof),
            TypeOperator::Alignof => Word::Keyword(Keyword::Alignof),
        }
    }
}

impl BinaryOperator {
    pub fn punctuator(self) -> Punctuator
        ensures { result ≡ mark_of_binary self }
    {
        match self {
            BinaryOperator::Multiply => Punctuator::Star,
            BinaryOperator::Divide => Punctuator::Slash,
            BinaryOperator::Remainder => Punctuator::Percent,
            BinaryOperator::Add => Punctuator::Plus,
            BinaryOperator::Subtract => Punctuator::Minus,
            BinaryOperator::ShiftLeft => Punctuator::ShiftLeft,
            BinaryOperator::ShiftRight => Punctuator::ShiftRight,
            BinaryOperator::Less => Punctuator::Less,
            BinaryOperator::Greater => Punctuator::Greater,
            BinaryOperator::LessEqual => Punctuator::LessEqual,
            BinaryOperator::GreaterEqual => Punctuator::GreaterEqual,
            BinaryOperator::Equal => Punctuator::Equal,
            BinaryOperator::NotEqual => Punctuator::NotEqual,
            BinaryOperator::BitAnd => Punctuator::Ampersand,
            BinaryOperator::BitXor => Punctuator::Caret,
            BinaryOperator::BitOr => Punctuator::Bar,
            BinaryOperator::And => Punctuator::AndAnd,
            BinaryOperator::Or => Punctuator::OrOr,
        }
    }
}

impl AssignmentOperator {
    pub fn punctuator(self) -> Punctuator
        ensures { result ≡ mark_of_assignment self }
    {
        match self {
            AssignmentOperator::Plain => Punctuator::Assign,
            AssignmentOperator::Multiply => Punctuator::StarAssign,
            AssignmentOperator::Divide => Punctuator::SlashAssign,
            AssignmentOperator::Remainder => Punctuator::PercentAssign,
            AssignmentOperator::Add => Punctuator::PlusAssign,
            AssignmentOperator::Subtract => Punctuator::MinusAssign,
            AssignmentOperator::ShiftLeft => Punctuator::ShiftLeftAssign,
            AssignmentOperator::ShiftRight => Punctuator::ShiftRightAssign,
            AssignmentOperator::BitAnd => Punctuator::AmpersandAssign,
            AssignmentOperator::BitXor => Punctuator::CaretAssign,
            AssignmentOperator::BitOr => Punctuator::BarAssign,
        }
    }
}

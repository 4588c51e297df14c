//! What stands at the front of some tokens.
ghost use Rattle.std.specs.Prelude.{◌≡◌, ◌<◌, length, option_copied, option_map, IfSome};
ghost use Rattle.c_tree.specs.WellFormed.{level_of_operator, is_qualifier, is_type_word, is_storage_word};
ghost use Rattle.c_parse_rules.specs.Tokens.{behind_key, behind_mark, is_key, is_mark, name_at, literal_at, binary_of, of_level, operator_of, operator_at, assignment_of, assigning_of, assigning_at, prefix_of, specifies, begins_type, is_type_at};

use crate::names::TypeNames;
use c_base::name::Name;
use c_base::token::{Keyword, Punctuator, Token, Word};
use c_tree::operator::{AssignmentOperator, BinaryOperator, PrefixOperator};
use sqlite_items::Items;

pub fn is_keyword(word: &Word, keyword: Keyword) -> bool
    ensures { result ≡ is_key keyword word.now }
{
    match word {
        Word::Keyword(found) => *found == keyword,
        _ => false,
    }
}

pub fn is_punctuator(word: &Word, punctuator: Punctuator) -> bool
    ensures { result ≡ is_mark punctuator word.now }
{
    match word {
        Word::Punctuator(found) => *found == punctuator,
        _ => false,
    }
}

/// The tokens behind a first token that is this keyword.
#[tactic(auto, unfolding(c_parse_rules::specs::Tokens::behind_key))]
pub fn behind_keyword(tokens: &[Token], keyword: Keyword) -> Option<&[Token]>
    ensures found { option_copied result ≡ behind_key keyword tokens.now }
    ensures shorter { IfSome result (λ rest. length rest.now < length tokens.now) }
{
    match tokens.split_first() {
        None => None,
        Some((first, rest)) => {
            if is_keyword(&first.word, keyword) {
                Some(rest)
            } else {
                None
            }
        }
    }
}

/// The tokens behind a first token that is this punctuator.
#[tactic(auto, unfolding(c_parse_rules::specs::Tokens::behind_mark))]
pub fn behind_punctuator(tokens: &[Token], punctuator: Punctuator) -> Option<&[Token]>
    ensures found { option_copied result ≡ behind_mark punctuator tokens.now }
    ensures shorter { IfSome result (λ rest. length rest.now < length tokens.now) }
{
    match tokens.split_first() {
        None => None,
        Some((first, rest)) => {
            if is_punctuator(&first.word, punctuator) {
                Some(rest)
            } else {
                None
            }
        }
    }
}

/// A first token that is an identifier, and the tokens behind it.
#[tactic(auto, unfolding(c_parse_rules::specs::Tokens::name_at))]
pub fn name_at(tokens: &[Token]) -> Option<(&Name, &[Token])>
    ensures found { option_map (λ f. (f.0.now, f.1.now)) result ≡ name_at tokens.now }
    ensures shorter { IfSome result (λ f. length f.1.now < length tokens.now) }
{
    match tokens.split_first() {
        None => None,
        Some((first, rest)) => match &first.word {
            Word::Identifier(name) => Some((name, rest)),
            _ => None,
        },
    }
}

/// A first token that is a string literal, and the tokens behind it.
#[tactic(auto, unfolding(c_parse_rules::specs::Tokens::literal_at))]
pub fn literal_at(tokens: &[Token]) -> Option<(&Items<u8>, &[Token])>
    ensures found { option_map (λ f. (f.0.now, f.1.now)) result ≡ literal_at tokens.now }
    ensures shorter { IfSome result (λ f. length f.1.now < length tokens.now) }
{
    match tokens.split_first() {
        None => None,
        Some((first, rest)) => match &first.word {
            Word::Text(bytes) => Some((bytes, rest)),
            _ => None,
        },
    }
}

fn binary_of(punctuator: Punctuator) -> Option<BinaryOperator>
    ensures { result ≡ binary_of punctuator }
{
    match punctuator {
        Punctuator::Star => Some(BinaryOperator::Multiply),
        Punctuator::Slash => Some(BinaryOperator::Divide),
        Punctuator::Percent => Some(BinaryOperator::Remainder),
        Punctuator::Plus => Some(BinaryOperator::Add),
        Punctuator::Minus => Some(BinaryOperator::Subtract),
        Punctuator::ShiftLeft => Some(BinaryOperator::ShiftLeft),
        Punctuator::ShiftRight => Some(BinaryOperator::ShiftRight),
        Punctuator::Less => Some(BinaryOperator::Less),
        Punctuator::Greater => Some(BinaryOperator::Greater),
        Punctuator::LessEqual => Some(BinaryOperator::LessEqual),
        Punctuator::GreaterEqual => Some(BinaryOperator::GreaterEqual),
        Punctuator::Equal => Some(BinaryOperator::Equal),
        Punctuator::NotEqual => Some(BinaryOperator::NotEqual),
        Punctuator::Ampersand => Some(BinaryOperator::BitAnd),
        Punctuator::Caret => Some(BinaryOperator::BitXor),
        Punctuator::Bar => Some(BinaryOperator::BitOr),
        Punctuator::AndAnd => Some(BinaryOperator::And),
        Punctuator::OrOr => Some(BinaryOperator::Or),
        _ => None,
    }
}

// The level of an operator, from `||` 3 to `*` 12 (C11 6.5.5 to 6.5.14).
fn level_of_operator(operator: BinaryOperator) -> u32
    ensures { result ≡ level_of_operator operator }
{
    match operator {
        BinaryOperator::Multiply => 12,
        BinaryOperator::Divide => 12,
        BinaryOperator::Remainder => 12,
        BinaryOperator::Add => 11,
        BinaryOperator::Subtract => 11,
        BinaryOperator::ShiftLeft => 10,
        BinaryOperator::ShiftRight => 10,
        BinaryOperator::Less => 9,
        BinaryOperator::Greater => 9,
        BinaryOperator::LessEqual => 9,
        BinaryOperator::GreaterEqual => 9,
        BinaryOperator::Equal => 8,
        BinaryOperator::NotEqual => 8,
        BinaryOperator::BitAnd => 7,
        BinaryOperator::BitXor => 6,
        BinaryOperator::BitOr => 5,
        BinaryOperator::And => 4,
        BinaryOperator::Or => 3,
    }
}

fn of_level(level: u32, operator: Option<BinaryOperator>) -> Option<BinaryOperator>
    ensures { result ≡ of_level level operator }
{
    match operator {
        None => None,
        Some(found) => {
            if level_of_operator(found) == level {
                Some(found)
            } else {
                None
            }
        }
    }
}

fn operator_of(level: u32, word: &Word) -> Option<BinaryOperator>
    ensures { result ≡ operator_of level word.now }
{
    match word {
        Word::Punctuator(punctuator) => of_level(level, binary_of(*punctuator)),
        _ => None,
    }
}

/// A first token that is an operator of this level, and the tokens behind it.
#[tactic(auto, unfolding(c_parse_rules::specs::Tokens::operator_at))]
pub fn operator_at(tokens: &[Token], level: u32) -> Option<(BinaryOperator, &[Token])>
    ensures found { option_map (λ f. (f.0, f.1.now)) result ≡ operator_at level tokens.now }
    ensures shorter { IfSome result (λ f. length f.1.now < length tokens.now) }
{
    match tokens.split_first() {
        None => None,
        Some((first, rest)) => match operator_of(level, &first.word) {
            None => None,
            Some(operator) => Some((operator, rest)),
        },
    }
}

fn assignment_of(punctuator: Punctuator) -> Option<AssignmentOperator>
    ensures { result ≡ assignment_of punctuator }
{
    match punctuator {
        Punctuator::Assign => Some(AssignmentOperator::Plain),
        Punctuator::StarAssign => Some(AssignmentOperator::Multiply),
        Punctuator::SlashAssign => Some(AssignmentOperator::Divide),
        Punctuator::PercentAssign => Some(AssignmentOperator::Remainder),
        Punctuator::PlusAssign => Some(AssignmentOperator::Add),
        Punctuator::MinusAssign => Some(AssignmentOperator::Subtract),
        Punctuator::ShiftLeftAssign => Some(AssignmentOperator::ShiftLeft),
        Punctuator::ShiftRightAssign => Some(AssignmentOperator::ShiftRight),
        Punctuator::AmpersandAssign => Some(AssignmentOperator::BitAnd),
        Punctuator::CaretAssign => Some(AssignmentOperator::BitXor),
        Punctuator::BarAssign => Some(AssignmentOperator::BitOr),
        _ => None,
    }
}

fn assigning_of(word: &Word) -> Option<AssignmentOperator>
    ensures { result ≡ assigning_of word.now }
{
    match word {
        Word::Punctuator(punctuator) => assignment_of(*punctuator),
        _ => None,
    }
}

/// A first token that is an operator of an assignment, and the tokens behind it.
#[tactic(auto, unfolding(c_parse_rules::specs::Tokens::assigning_at))]
pub fn assigning_at(tokens: &[Token]) -> Option<(AssignmentOperator, &[Token])>
    ensures found { option_map (λ f. (f.0, f.1.now)) result ≡ assigning_at tokens.now }
    ensures shorter { IfSome result (λ f. length f.1.now < length tokens.now) }
{
    match tokens.split_first() {
        None => None,
        Some((first, rest)) => match assigning_of(&first.word) {
            None => None,
            Some(operator) => Some((operator, rest)),
        },
    }
}

/// The operator that a punctuator is before an operand (C11 6.5.3).
pub fn prefix_of(punctuator: Punctuator) -> Option<PrefixOperator>
    ensures { result ≡ prefix_of punctuator }
{
    match punctuator {
        Punctuator::Increment => Some(PrefixOperator::Increment),
        Punctuator::Decrement => Some(PrefixOperator::Decrement),
        Punctuator::Ampersand => Some(PrefixOperator::Address),
        Punctuator::Star => Some(PrefixOperator::Indirection),
        Punctuator::Plus => Some(PrefixOperator::Plus),
        Punctuator::Minus => Some(PrefixOperator::Minus),
        Punctuator::Tilde => Some(PrefixOperator::Complement),
        Punctuator::Exclamation => Some(PrefixOperator::Not),
        _ => None,
    }
}

/// A type qualifier (C11 6.7.3).
pub fn is_qualifier(keyword: Keyword) -> bool
    ensures { result ≡ is_qualifier keyword }
{
    matches!(
        keyword,
        Keyword::Const | Keyword::Volatile | Keyword::Restrict | Keyword::Atomic
    )
}

/// A type specifier that is one word (C11 6.7.2).
pub fn is_type_word(keyword: Keyword) -> bool
    ensures { result ≡ is_type_word keyword }
{
    matches!(
        keyword,
        Keyword::Void
            | Keyword::Char
            | Keyword::Short
            | Keyword::Int
            | Keyword::Long
            | Keyword::Float
            | Keyword::Double
            | Keyword::Signed
            | Keyword::Unsigned
            | Keyword::Bool
            | Keyword::Complex
            | Keyword::BuiltinVaList
    )
}

/// A storage class or a function specifier (C11 6.7.1 and 6.7.4).
pub fn is_storage_word(keyword: Keyword) -> bool
    ensures { result ≡ is_storage_word keyword }
{
    matches!(
        keyword,
        Keyword::Typedef
            | Keyword::Extern
            | Keyword::Static
            | Keyword::ThreadLocal
            | Keyword::Auto
            | Keyword::Register
            | Keyword::Inline
            | Keyword::Noreturn
    )
}

fn specifies(keyword: Keyword) -> bool
    ensures { result ≡ specifies keyword }
{
    match keyword {
        Keyword::Struct => true,
        Keyword::Union => true,
        Keyword::Enum => true,
        Keyword::Attribute => true,
        other => is_qualifier(other) || is_type_word(other) || is_storage_word(other),
    }
}

fn begins_type(names: &TypeNames, word: &Word) -> bool
    ensures { result ≡ begins_type names.now.names word.now }
{
    match word {
        Word::Keyword(keyword) => specifies(*keyword),
        Word::Identifier(name) => names.is_typedef(name),
        _ => false,
    }
}

/// A type name or a parameter begins there.
pub fn is_type_at(names: &TypeNames, tokens: &[Token]) -> bool
    ensures { result ≡ is_type_at names.now.names tokens.now }
{
    match tokens.split_first() {
        None => false,
        Some((first, _)) => begins_type(names, &first.word),
    }
}

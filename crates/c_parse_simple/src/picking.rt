//! Which statement it is.
ghost use Rattle.std.specs.Prelude.{◌≡◌, ◌&&◌, ◌||◌, drop, not, IfOk};
ghost use Rattle.c_base.specs.declared.token.Keyword.TheVariants as key;
ghost use Rattle.c_base.specs.declared.token.Punctuator.TheVariants as mark;
ghost use Rattle.c_parse_rules.specs.Declaring.{starts};
ghost use Rattle.c_parse_rules.specs.Tokens.{is_key, is_mark};
ghost use Rattle.c_parse_rules.specs.TypeRules.{attribute_at};
ghost use Rattle.c_grammar.specs.Picking.{statement_rule};
ghost use Rattle.c_grammar.specs.Table.{before_semicolon, begins_declaration, is_name, on_block_declaration};

use c_base::token::{Keyword, Punctuator, Token, Word};
use c_grammar::rule::Rule;
use c_parse_attributes::attribute_behind;
use c_parse_base::names::TypeNames;
use c_parse_base::words::{is_keyword, is_type_at};
use c_parse_initialisers::parts::{on_keyword, on_punctuator};
use std::alloc::{AllocError, Global};

/// The rule of the statement that begins with this word, before these tokens.
pub fn statement_rule(word: &Word, rest: &[Token]) -> Rule
    ensures { result ≡ statement_rule word.now rest.now }
{
    match word {
        Word::Keyword(Keyword::Attribute) => Rule::Attribute,
        Word::Keyword(Keyword::If) => Rule::If,
        Word::Keyword(Keyword::Switch) => Rule::Switch,
        Word::Keyword(Keyword::While) => Rule::While,
        Word::Keyword(Keyword::Do) => Rule::Do,
        Word::Keyword(Keyword::For) => Rule::For,
        Word::Keyword(Keyword::Goto) => Rule::Goto,
        Word::Keyword(Keyword::Continue) => Rule::Continue,
        Word::Keyword(Keyword::Break) => Rule::Break,
        Word::Keyword(Keyword::Return) => Rule::Return,
        Word::Keyword(Keyword::Case) => Rule::Case,
        Word::Keyword(Keyword::Default) => Rule::Default,
        Word::Punctuator(Punctuator::OpenBrace) => Rule::Block,
        Word::Identifier(_) => {
            if on_punctuator(rest, Punctuator::Colon) {
                Rule::Label
            } else {
                Rule::Expression
            }
        }
        _ => Rule::Expression,
    }
}

/// A declaration begins there: a specifier, a typedef name or `_Static_assert`.
pub fn on_declaration(names: &TypeNames, tokens: &[Token]) -> bool
    ensures { result ≡ starts (begins_declaration names.now.names) tokens.now }
{
    is_type_at(names, tokens) || on_keyword(tokens, Keyword::StaticAssert)
}

/// A name stands directly before a `:`.
pub fn on_label(tokens: &[Token]) -> bool
    ensures { result ≡ (starts is_name tokens.now && starts (is_mark mark.Colon) (drop 1 tokens.now)) }
{
    match tokens.split_first() {
        None => false,
        Some((first, rest)) => match &first.word {
            Word::Identifier(_) => on_punctuator(rest, Punctuator::Colon),
            _ => false,
        },
    }
}

/// One attribute and `;` stand there.
pub fn on_attribute(alloc: Global, tokens: &[Token]) -> Result<bool, AllocError>
    ensures { IfOk result (λ r. r ≡ before_semicolon (attribute_at tokens.now)) }
{
    match tokens.split_first() {
        None => Ok(false),
        Some((first, inside)) => {
            if !is_keyword(&first.word, Keyword::Attribute) {
                return Ok(false);
            }
            match attribute_behind(alloc, first.span, inside)? {
                None => Ok(false),
                Some((_, rest)) => Ok(on_punctuator(rest, Punctuator::Semicolon)),
            }
        }
    }
}

/// A declaration stands there in a block: what begins as one, and is neither a label nor one attribute and `;`.
pub fn on_block_declaration(
    alloc: Global,
    names: &TypeNames,
    tokens: &[Token],
) -> Result<bool, AllocError>
    ensures { IfOk result (λ r. r ≡ on_block_declaration names.now.names tokens.now) }
{
    if !on_declaration(names, tokens) {
        return Ok(false);
    }
    if on_label(tokens) {
        return Ok(false);
    }
    Ok(!on_attribute(alloc, tokens)?)
}

/// `else if` stands there.
pub fn on_else_if(tokens: &[Token]) -> bool
    ensures { result ≡ (starts (is_key key.Else) tokens.now && starts (is_key key.If) (drop 1 tokens.now)) }
{
    match tokens.split_first() {
        None => false,
        Some((first, rest)) => {
            if is_keyword(&first.word, Keyword::Else) {
                on_keyword(rest, Keyword::If)
            } else {
                false
            }
        }
    }
}

//! What stands in no rule: expressions, specifiers, declarators, string literals and attributes, and single words.
ghost use Rattle.std.specs.Prelude.{◌≡◌, ◌<◌, ◌≤◌, length, option_map, IfOk, IfSome};
ghost use Rattle.c_base.specs.declared.number.Span.{Span as Place};
ghost use Rattle.c_tree.specs.Views.{declarator_tree, specifiers_of, tree_of};
ghost use Rattle.c_parse_rules.specs.Declaring.{starts};
ghost use Rattle.c_parse_rules.specs.Parsers.{expr_at};
ghost use Rattle.c_parse_rules.specs.Tokens.{is_key, is_mark};
ghost use Rattle.c_parse_base.specs.KnownNames.{kept};
ghost use Rattle.c_parse_base.specs.Purposes.{before_of};
ghost use Rattle.grammar.specs.Spelling.{place_at};
ghost use Rattle.c_grammar.specs.Leaves.{AnExpr, Specifiers, ADeclarator, Literals, AnAttribute, SpecifierList, NamedDeclarator, StringLiterals, OneAttribute, expr_taken, read};
ghost use Rattle.c_grammar.specs.Table as table;

use c_base::number::Span;
use c_base::token::{Keyword, Punctuator, Token};
use c_parse_attributes::attribute_behind;
use c_parse_base::expecting::expect_literal;
use c_parse_base::literals::literals_at;
use c_parse_base::names::TypeNames;
use c_parse_base::purpose::{Before, Purpose};
use c_parse_base::words::{behind_keyword, is_keyword, is_punctuator};
use c_parse_expr::declaring::{declarator_within, specifiers_within};
use c_parse_expr::parse::expr_within;
use c_tree::tree::{Attribute, Declarator, Expr, Specifier};
use sqlite_items::Items;
use std::alloc::{AllocError, Global};

/// The first token is this keyword.
pub fn on_keyword(tokens: &[Token], keyword: Keyword) -> bool
    ensures { result ≡ starts (is_key keyword) tokens.now }
{
    match tokens.split_first() {
        None => false,
        Some((first, _)) => is_keyword(&first.word, keyword),
    }
}

/// The first token is this punctuator.
pub fn on_punctuator(tokens: &[Token], punctuator: Punctuator) -> bool
    ensures { result ≡ starts (is_mark punctuator) tokens.now }
{
    match tokens.split_first() {
        None => false,
        Some((first, _)) => is_punctuator(&first.word, punctuator),
    }
}

/// The place of the first token.
#[tactic(auto, unfolding(grammar::specs::Spelling::place_at))]
pub fn place_at(tokens: &[Token]) -> Option<Span>
    ensures { result ≡ place_at tokens.now }
{
    match tokens.split_first() {
        None => None,
        Some((first, _)) => Some(first.span),
    }
}

/// An expression of at least this level, and the tokens behind it; level 0 is an expression, 1 one without commas, 2 a constant one (C11 6.6).
pub fn expr_at<'a>(
    alloc: Global,
    depth: u32,
    names: &mut TypeNames,
    level: u32,
    tokens: &'a [Token],
) -> Result<Option<(Expr, &'a [Token])>, AllocError>
    requires depth { depth < 1000000 }
    requires level { level ≤ 14 }
    ensures found { IfOk result (λ r. option_map (λ f. (AnExpr (tree_of f.0), names.new.names, f.1.now)) r ≡ expr_taken names.old.names (expr_at depth names.old.names level tokens.now)) }
    ensures shorter { IfOk result (λ r. IfSome r (λ f. length f.1.now < length tokens.now)) }
    ensures kept { kept names.new ≡ kept names.old }
{
    expr_within(alloc, depth, names, level, tokens)
}

/// Specifiers, what stands before what follows them, and the tokens behind them.
pub fn specifiers_at<'a>(
    alloc: Global,
    depth: u32,
    names: &mut TypeNames,
    tokens: &'a [Token],
) -> Result<Option<(Items<Specifier>, Before, &'a [Token])>, AllocError>
    requires depth { depth < 999999 }
    ensures found { IfOk result (λ r. option_map (λ f. (Specifiers (specifiers_of f.0), names.new.names, f.2.now)) r ≡ read depth SpecifierList names.old.names tokens.now) }
    ensures before { IfOk result (λ r. IfSome r (λ f. before_of f.1 ≡ table.before_of (Specifiers (specifiers_of f.0)))) }
    ensures shorter { IfOk result (λ r. IfSome r (λ f. length f.2.now < length tokens.now)) }
    ensures kept { kept names.new ≡ kept names.old }
{
    specifiers_within(alloc, depth, names, Purpose::Member, tokens)
}

/// A declarator with a name behind specifiers that leave `before` in front of it, and the tokens behind it.
pub fn declarator_at<'a>(
    alloc: Global,
    depth: u32,
    names: &mut TypeNames,
    before: Before,
    tokens: &'a [Token],
) -> Result<Option<(Declarator, &'a [Token])>, AllocError>
    requires depth { depth < 1000000 }
    ensures found { IfOk result (λ r. option_map (λ f. (ADeclarator (declarator_tree f.0), names.new.names, f.1.now)) r ≡ read depth (NamedDeclarator (before_of before)) names.old.names tokens.now) }
    ensures shorter { IfOk result (λ r. IfSome r (λ f. length f.1.now < length tokens.now)) }
    ensures kept { kept names.new ≡ kept names.old }
{
    declarator_within(alloc, depth, names, Purpose::Member, before, tokens)
}

/// Neighbouring string literals, and the tokens behind them.
pub fn string_at<'a>(
    alloc: Global,
    depth: u32,
    names: &mut TypeNames,
    tokens: &'a [Token],
) -> Result<Option<(Items<Items<u8>>, &'a [Token])>, AllocError>
    ensures found { IfOk result (λ r. option_map (λ f. (Literals f.0, names.old.names, f.1.now)) r ≡ read depth StringLiterals names.old.names tokens.now) }
    ensures shorter { IfOk result (λ r. IfSome r (λ f. length f.1.now < length tokens.now)) }
    ensures same { names.new ≡ names.old }
{
    match expect_literal(names, tokens) {
        None => Ok(None),
        Some((first, behind)) => {
            let (literals, rest) = literals_at(alloc, first, behind)?;
            Ok(Some((literals, rest)))
        }
    }
}

/// An attribute, and the tokens behind it.
pub fn attribute_at<'a>(
    alloc: Global,
    depth: u32,
    names: &TypeNames,
    tokens: &'a [Token],
) -> Result<Option<(Attribute, &'a [Token])>, AllocError>
    ensures found { IfOk result (λ r. option_map (λ f. (AnAttribute f.0, names.now.names, f.1.now)) r ≡ read depth OneAttribute names.now.names tokens.now) }
    ensures shorter { IfOk result (λ r. IfSome r (λ f. length f.1.now < length tokens.now)) }
{
    match tokens.split_first() {
        None => Ok(None),
        Some((first, inside)) => {
            if is_keyword(&first.word, Keyword::Attribute) {
                attribute_behind(alloc, first.span, inside)
            } else {
                Ok(None)
            }
        }
    }
}

//! What statements have beside their substatements: conditions, what stands in the parentheses of a `for`, and the end of a `do`.
ghost use Rattle.std.specs.Prelude.{◌≡◌, ◌<◌, ◌∷◌, [], length, option_copied, true, IfSome};
ghost use Rattle.c_base.specs.declared.token.Keyword.TheVariants as key;
ghost use Rattle.c_base.specs.declared.token.Punctuator.TheVariants as mark;
ghost use Rattle.c_parse_rules.specs.Tokens.{behind_key};
ghost use Rattle.c_parse_base.specs.KnownNames.{kept};
ghost use Rattle.grammar.specs.Forms.{Here, Group, Key, Mark, Part};
ghost use Rattle.c_grammar.specs.Table.{for_first, optional_before, parenthesised};
ghost use Rattle.c_unit_tree.specs.Views.{expr_value, first_kids, optional_value};
ghost use Rattle.c_parse_initialisers.specs.Reads.{Shortens};
ghost use Rattle.c_parse_heads.specs.Ahead.{ReadsAhead, ending_trees, later_trees, steps_trees};

use c_base::number::Span;
use c_base::token::{Keyword, Punctuator, Token};
use c_parse_base::expecting::expect_punctuator;
use c_parse_base::names::TypeNames;
use c_parse_base::words::behind_keyword;
use c_parse_decl::declarations::declaration_at;
use c_parse_initialisers::parts::{expr_at, on_punctuator, place_at};
use c_parse_simple::picking::on_declaration;
use c_tree::tree::Expr;
use c_unit_tree::declaration::Declaration;
use c_unit_tree::statement::First;
use std::alloc::{AllocError, Global};

/// What stands in the parentheses of a `for` (C11 6.8.5.3).
#[derive(Drop)]
pub struct Steps {
    pub first: First<Expr, Declaration>,
    pub second: Option<Expr>,
    pub third: Option<Expr>,
}

/// The end of a `do`: the place of its `while`, and its condition (C11 6.8.5.2).
#[derive(Drop)]
pub struct Ending {
    pub place: Span,
    pub condition: Expr,
}

/// The tokens behind this keyword; where it does not stand there, the first token is noted as refused.
pub fn expect_keyword<'a>(
    names: &mut TypeNames,
    tokens: &'a [Token],
    keyword: Keyword,
) -> Option<&'a [Token]>
    ensures found { option_copied result ≡ behind_key keyword tokens.now }
    ensures shorter { IfSome result (λ rest. length rest.now < length tokens.now) }
    ensures same { names.new ≡ names.old }
{
    let found = behind_keyword(tokens, keyword);
    if found.is_none() {
        names.refuse(tokens);
    }
    found
}

/// `keyword ( expression )`
pub fn tested_at<'a>(
    alloc: Global,
    depth: u32,
    names: &mut TypeNames,
    keyword: Keyword,
    tokens: &'a [Token],
) -> Result<Option<(Expr, &'a [Token])>, AllocError>
    requires depth { depth < 999999 }
    ensures found { ReadsAhead (λ e. expr_value e ∷ []) depth (λ more. Key keyword (parenthesised more)) names.old.names names.new.names tokens.now result }
    ensures shorter { Shortens tokens.now result }
    ensures kept { kept names.new ≡ kept names.old }
{
    let Some(open) = expect_keyword(names, tokens, keyword) else {
        return Ok(None);
    };
    let Some(inside) = expect_punctuator(names, open, Punctuator::OpenParenthesis) else {
        return Ok(None);
    };
    let Some((condition, behind)) = expr_at(alloc, depth, names, 0, inside)? else {
        return Ok(None);
    };
    match expect_punctuator(names, behind, Punctuator::CloseParenthesis) {
        None => Ok(None),
        Some(rest) => Ok(Some((condition, rest))),
    }
}

/// An expression or none before a punctuator, and the tokens behind that.
pub fn optional_at<'a>(
    alloc: Global,
    depth: u32,
    names: &mut TypeNames,
    end: Punctuator,
    tokens: &'a [Token],
) -> Result<Option<(Option<Expr>, &'a [Token])>, AllocError>
    requires depth { depth < 999999 }
    ensures found { ReadsAhead (λ e. optional_value e ∷ []) depth (optional_before end) names.old.names names.new.names tokens.now result }
    ensures shorter { Shortens tokens.now result }
    ensures kept { kept names.new ≡ kept names.old }
{
    if on_punctuator(tokens, end) {
        return match expect_punctuator(names, tokens, end) {
            None => Ok(None),
            Some(rest) => Ok(Some((None, rest))),
        };
    }
    let Some((value, behind)) = expr_at(alloc, depth, names, 0, tokens)? else {
        return Ok(None);
    };
    match expect_punctuator(names, behind, end) {
        None => Ok(None),
        Some(rest) => Ok(Some((Some(value), rest))),
    }
}

// The first part of a `for`, with its `;`.
#[tactic(auto, unfolding(c_grammar::specs::Table::for_first))]
fn first_at<'a>(
    alloc: Global,
    depth: u32,
    names: &mut TypeNames,
    tokens: &'a [Token],
) -> Result<Option<(First<Expr, Declaration>, &'a [Token])>, AllocError>
    requires depth { depth < 999999 }
    ensures found { ReadsAhead (λ f. Group true (first_kids f) ∷ []) depth (Part for_first) names.old.names names.new.names tokens.now result }
    ensures shorter { Shortens tokens.now result }
    ensures kept { kept names.new ≡ kept names.old }
{
    if on_declaration(names, tokens) {
        return match declaration_at(alloc, depth, names, tokens)? {
            None => Ok(None),
            Some((declaration, rest)) => Ok(Some((First::Declaration(declaration), rest))),
        };
    }
    match optional_at(alloc, depth, names, Punctuator::Semicolon, tokens)? {
        None => Ok(None),
        Some((value, rest)) => Ok(Some((First::Expression(value), rest))),
    }
}

// The second and third parts of a `for`, with what stands behind each.
fn later_at<'a>(
    alloc: Global,
    depth: u32,
    names: &mut TypeNames,
    tokens: &'a [Token],
) -> Result<Option<((Option<Expr>, Option<Expr>), &'a [Token])>, AllocError>
    requires depth { depth < 999999 }
    ensures found { ReadsAhead later_trees depth (λ more. optional_before mark.Semicolon (optional_before mark.CloseParenthesis more)) names.old.names names.new.names tokens.now result }
    ensures shorter { Shortens tokens.now result }
    ensures kept { kept names.new ≡ kept names.old }
{
    match optional_at(alloc, depth, names, Punctuator::Semicolon, tokens)? {
        None => Ok(None),
        Some((second, behind)) => {
            match optional_at(alloc, depth, names, Punctuator::CloseParenthesis, behind)? {
                None => Ok(None),
                Some((third, rest)) => Ok(Some(((second, third), rest))),
            }
        }
    }
}

/// `for ( first second ; third )`
pub fn steps_at<'a>(
    alloc: Global,
    depth: u32,
    names: &mut TypeNames,
    tokens: &'a [Token],
) -> Result<Option<(Steps, &'a [Token])>, AllocError>
    requires depth { depth < 999999 }
    ensures found { ReadsAhead steps_trees depth (λ more. Key key.For (Mark mark.OpenParenthesis (Part for_first (optional_before mark.Semicolon (optional_before mark.CloseParenthesis more))))) names.old.names names.new.names tokens.now result }
    ensures shorter { Shortens tokens.now result }
    ensures kept { kept names.new ≡ kept names.old }
{
    let Some(start) = expect_keyword(names, tokens, Keyword::For) else {
        return Ok(None);
    };
    let Some(inside) = expect_punctuator(names, start, Punctuator::OpenParenthesis) else {
        return Ok(None);
    };
    match first_at(alloc, depth, names, inside)? {
        None => Ok(None),
        Some((first, behind)) => match later_at(alloc, depth, names, behind)? {
            None => Ok(None),
            Some((later, rest)) => Ok(Some((
                Steps {
                    first,
                    second: later.0,
                    third: later.1,
                },
                rest,
            ))),
        },
    }
}

/// `while ( expression ) ;`, the end of a `do`
pub fn ending_at<'a>(
    alloc: Global,
    depth: u32,
    names: &mut TypeNames,
    tokens: &'a [Token],
) -> Result<Option<(Ending, &'a [Token])>, AllocError>
    requires depth { depth < 999999 }
    ensures found { ReadsAhead ending_trees depth (λ more. Here (Key key.While (parenthesised (Mark mark.Semicolon more)))) names.old.names names.new.names tokens.now result }
    ensures shorter { Shortens tokens.now result }
    ensures kept { kept names.new ≡ kept names.old }
{
    let Some(place) = place_at(tokens) else {
        names.refuse(tokens);
        return Ok(None);
    };
    match tested_at(alloc, depth, names, Keyword::While, tokens)? {
        None => Ok(None),
        Some((condition, behind)) => {
            match expect_punctuator(names, behind, Punctuator::Semicolon) {
                None => Ok(None),
                Some(rest) => Ok(Some((Ending { place, condition }, rest))),
            }
        }
    }
}

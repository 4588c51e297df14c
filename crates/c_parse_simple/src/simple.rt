//! Statements without substatements (C11 6.8.3 and 6.8.6).
ghost use Rattle.std.specs.Prelude.{◌≡◌, ◌<◌, length};
ghost use Rattle.c_parse_base.specs.KnownNames.{kept};
ghost use Rattle.c_grammar.specs.declared.rule.Rule.TheVariants as rule;
ghost use Rattle.c_unit_tree.specs.Views.{statement_tree};
ghost use Rattle.c_parse_initialisers.specs.Reads.{ReadsRule, Shortens};

use c_base::token::{Keyword, Punctuator, Token};
use c_parse_base::expecting::{expect_name, expect_punctuator};
use c_parse_base::names::TypeNames;
use c_parse_base::words::behind_keyword;
use c_parse_initialisers::parts::{attribute_at, expr_at, on_punctuator, place_at};
use c_unit_tree::statement::Statement;
use c_unit_tree::unit::UnitStatement;
use std::alloc::{AllocError, Global};

/// `goto name ;`
pub fn goto_rule<'a>(
    alloc: Global,
    depth: u32,
    names: &mut TypeNames,
    tokens: &'a [Token],
) -> Result<Option<(UnitStatement, &'a [Token])>, AllocError>
    ensures found { ReadsRule statement_tree depth rule.Goto names.old.names names.new.names tokens.now result }
    ensures shorter { Shortens tokens.now result }
    ensures kept { kept names.new ≡ kept names.old }
{
    let Some(span) = place_at(tokens) else {
        return Ok(None);
    };
    let Some(inside) = behind_keyword(tokens, Keyword::Goto) else {
        return Ok(None);
    };
    let Some((name, behind)) = expect_name(names, inside) else {
        return Ok(None);
    };
    match expect_punctuator(names, behind, Punctuator::Semicolon) {
        None => Ok(None),
        Some(rest) => Ok(Some((
            Statement::Goto {
                span,
                name: name.duplicate(alloc)?,
            },
            rest,
        ))),
    }
}

/// `break ;`
pub fn break_rule<'a>(
    depth: u32,
    names: &mut TypeNames,
    tokens: &'a [Token],
) -> Result<Option<(UnitStatement, &'a [Token])>, AllocError>
    ensures found { ReadsRule statement_tree depth rule.Break names.old.names names.new.names tokens.now result }
    ensures shorter { Shortens tokens.now result }
    ensures kept { kept names.new ≡ kept names.old }
{
    let Some(span) = place_at(tokens) else {
        return Ok(None);
    };
    let Some(behind) = behind_keyword(tokens, Keyword::Break) else {
        return Ok(None);
    };
    match expect_punctuator(names, behind, Punctuator::Semicolon) {
        None => Ok(None),
        Some(rest) => Ok(Some((Statement::Break { span }, rest))),
    }
}

/// `continue ;`
pub fn continue_rule<'a>(
    depth: u32,
    names: &mut TypeNames,
    tokens: &'a [Token],
) -> Result<Option<(UnitStatement, &'a [Token])>, AllocError>
    ensures found { ReadsRule statement_tree depth rule.Continue names.old.names names.new.names tokens.now result }
    ensures shorter { Shortens tokens.now result }
    ensures kept { kept names.new ≡ kept names.old }
{
    let Some(span) = place_at(tokens) else {
        return Ok(None);
    };
    let Some(behind) = behind_keyword(tokens, Keyword::Continue) else {
        return Ok(None);
    };
    match expect_punctuator(names, behind, Punctuator::Semicolon) {
        None => Ok(None),
        Some(rest) => Ok(Some((Statement::Continue { span }, rest))),
    }
}

/// `return [ expression ] ;`
pub fn return_rule<'a>(
    alloc: Global,
    depth: u32,
    names: &mut TypeNames,
    tokens: &'a [Token],
) -> Result<Option<(UnitStatement, &'a [Token])>, AllocError>
    requires depth { depth < 999999 }
    ensures found { ReadsRule statement_tree depth rule.Return names.old.names names.new.names tokens.now result }
    ensures shorter { Shortens tokens.now result }
    ensures kept { kept names.new ≡ kept names.old }
{
    let Some(span) = place_at(tokens) else {
        return Ok(None);
    };
    let Some(inside) = behind_keyword(tokens, Keyword::Return) else {
        return Ok(None);
    };
    if on_punctuator(inside, Punctuator::Semicolon) {
        return match expect_punctuator(names, inside, Punctuator::Semicolon) {
            None => Ok(None),
            Some(rest) => Ok(Some((Statement::Return { span, value: None }, rest))),
        };
    }
    let Some((value, behind)) = expr_at(alloc, depth, names, 0, inside)? else {
        return Ok(None);
    };
    match expect_punctuator(names, behind, Punctuator::Semicolon) {
        None => Ok(None),
        Some(rest) => Ok(Some((
            Statement::Return {
                span,
                value: Some(value),
            },
            rest,
        ))),
    }
}

/// `attribute ;`
pub fn attribute_rule<'a>(
    alloc: Global,
    depth: u32,
    names: &mut TypeNames,
    tokens: &'a [Token],
) -> Result<Option<(UnitStatement, &'a [Token])>, AllocError>
    ensures found { ReadsRule statement_tree depth rule.Attribute names.old.names names.new.names tokens.now result }
    ensures shorter { Shortens tokens.now result }
    ensures kept { kept names.new ≡ kept names.old }
{
    let Some(span) = place_at(tokens) else {
        return Ok(None);
    };
    let Some((attribute, behind)) = attribute_at(alloc, depth, names, tokens)? else {
        return Ok(None);
    };
    match expect_punctuator(names, behind, Punctuator::Semicolon) {
        None => Ok(None),
        Some(rest) => Ok(Some((Statement::Attribute { span, attribute }, rest))),
    }
}

/// `expression ;`, or `;` alone
pub fn expression_rule<'a>(
    alloc: Global,
    depth: u32,
    names: &mut TypeNames,
    tokens: &'a [Token],
) -> Result<Option<(UnitStatement, &'a [Token])>, AllocError>
    requires depth { depth < 999999 }
    ensures found { ReadsRule statement_tree depth rule.Expression names.old.names names.new.names tokens.now result }
    ensures shorter { Shortens tokens.now result }
    ensures kept { kept names.new ≡ kept names.old }
{
    let Some(span) = place_at(tokens) else {
        return Ok(None);
    };
    if on_punctuator(tokens, Punctuator::Semicolon) {
        return match expect_punctuator(names, tokens, Punctuator::Semicolon) {
            None => Ok(None),
            Some(rest) => Ok(Some((Statement::Expression { span, value: None }, rest))),
        };
    }
    let Some((value, behind)) = expr_at(alloc, depth, names, 0, tokens)? else {
        return Ok(None);
    };
    match expect_punctuator(names, behind, Punctuator::Semicolon) {
        None => Ok(None),
        Some(rest) => Ok(Some((
            Statement::Expression {
                span,
                value: Some(value),
            },
            rest,
        ))),
    }
}

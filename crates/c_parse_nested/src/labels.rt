//! Labelled statements (C11 6.8.1). A label and what it labels are no block.
ghost use Rattle.std.specs.Prelude.{◌≡◌};
ghost use Rattle.c_parse_base.specs.KnownNames.{kept};
ghost use Rattle.c_grammar.specs.declared.rule.Rule.TheVariants as rule;
ghost use Rattle.c_unit_tree.specs.Views.{statement_tree};
ghost use Rattle.c_parse_initialisers.specs.Reads.{ReadsRule, Shortens};

use crate::below::StatementsBelow;
use crate::nodes::{case_of, default_of, label_of};
use c_base::token::{Keyword, Punctuator, Token};
use c_parse_base::expecting::{expect_name, expect_punctuator};
use c_parse_base::names::TypeNames;
use c_parse_base::words::behind_keyword;
use c_parse_initialisers::parts::{expr_at, place_at};
use c_unit_tree::unit::UnitStatement;
use std::alloc::{AllocError, Global};

/// `name : statement`
pub fn label_rule<'a, B: StatementsBelow<'a>>(
    below: &B,
    alloc: Global,
    names: &mut TypeNames,
    tokens: &'a [Token],
) -> Result<Option<(UnitStatement, &'a [Token])>, AllocError>
    requires { B.works below.now }
    ensures found { ReadsRule statement_tree (B.depth below.now) rule.Label names.old.names names.new.names tokens.now result }
    ensures shorter { Shortens tokens.now result }
    ensures kept { kept names.new ≡ kept names.old }
{
    let Some(span) = place_at(tokens) else {
        return Ok(None);
    };
    let Some((name, colon)) = expect_name(names, tokens) else {
        return Ok(None);
    };
    let Some(behind) = expect_punctuator(names, colon, Punctuator::Colon) else {
        return Ok(None);
    };
    match below.statement(alloc, names, behind)? {
        None => Ok(None),
        Some((labelled, rest)) => Ok(Some((label_of(alloc, span, name, labelled)?, rest))),
    }
}

/// `case constant : statement`
pub fn case_rule<'a, B: StatementsBelow<'a>>(
    below: &B,
    alloc: Global,
    names: &mut TypeNames,
    tokens: &'a [Token],
) -> Result<Option<(UnitStatement, &'a [Token])>, AllocError>
    requires { B.works below.now }
    ensures found { ReadsRule statement_tree (B.depth below.now) rule.Case names.old.names names.new.names tokens.now result }
    ensures shorter { Shortens tokens.now result }
    ensures kept { kept names.new ≡ kept names.old }
{
    let Some(span) = place_at(tokens) else {
        return Ok(None);
    };
    let Some(inside) = behind_keyword(tokens, Keyword::Case) else {
        return Ok(None);
    };
    let Some((value, colon)) = expr_at(alloc, below.depth(), names, 2, inside)? else {
        return Ok(None);
    };
    let Some(behind) = expect_punctuator(names, colon, Punctuator::Colon) else {
        return Ok(None);
    };
    match below.statement(alloc, names, behind)? {
        None => Ok(None),
        Some((labelled, rest)) => Ok(Some((case_of(alloc, span, value, labelled)?, rest))),
    }
}

/// `default : statement`
pub fn default_rule<'a, B: StatementsBelow<'a>>(
    below: &B,
    alloc: Global,
    names: &mut TypeNames,
    tokens: &'a [Token],
) -> Result<Option<(UnitStatement, &'a [Token])>, AllocError>
    requires { B.works below.now }
    ensures found { ReadsRule statement_tree (B.depth below.now) rule.Default names.old.names names.new.names tokens.now result }
    ensures shorter { Shortens tokens.now result }
    ensures kept { kept names.new ≡ kept names.old }
{
    let Some(span) = place_at(tokens) else {
        return Ok(None);
    };
    let Some(colon) = behind_keyword(tokens, Keyword::Default) else {
        return Ok(None);
    };
    let Some(behind) = expect_punctuator(names, colon, Punctuator::Colon) else {
        return Ok(None);
    };
    match below.statement(alloc, names, behind)? {
        None => Ok(None),
        Some((labelled, rest)) => Ok(Some((default_of(alloc, span, labelled)?, rest))),
    }
}

//! External declarations (C11 6.9).
ghost use Rattle.std.specs.Prelude.{◌≡◌, ◌<◌, ◌∷◌, [], option_map, IfOk, IfSome};
ghost use Rattle.c_base.specs.declared.token.Punctuator.TheVariants as mark;
ghost use Rattle.c_parse_base.specs.KnownNames.{kept};
ghost use Rattle.grammar.specs.Forms.{Done, Listed, Mark};
ghost use Rattle.grammar.specs.Reading.{listed};
ghost use Rattle.c_grammar.specs.declared.rule.Rule.TheVariants as rule;
ghost use Rattle.c_grammar.specs.declared.rule.Sort.TheVariants as sort;
ghost use Rattle.c_grammar.specs.Leaves.{C};
ghost use Rattle.c_grammar.specs.Table.{declarator_rest, external_declarator, init_declarator, on_mark};
ghost use Rattle.c_unit_tree.specs.Views.{external_tree, kids, listing};
ghost use Rattle.c_parse_decl.specs.Headings.{leaf_of, IsHeading};
ghost use Rattle.c_parse_initialisers.specs.Reads.{at, NoLonger, ReadsForm, ReadsRule, ReadsSort, Shortens};
ghost use Rattle.c_parse_unit.specs.Behind.{declared_kids, others_kids, IsNamed};

use crate::functions::function_body;
use crate::nodes::{Declared, Others, bare_of, empty_of, external_of, function_of, objects_of};
use c_base::token::{Keyword, Punctuator, Token};
use c_parse_base::expecting::expect_punctuator;
use c_parse_base::names::TypeNames;
use c_parse_decl::declarations::{
    Heading, assertion_rule, declare, heading_at, more_declarators, rest_at,
};
use c_parse_initialisers::parts::{declarator_at, on_keyword, on_punctuator, place_at};
use c_unit_tree::unit::External;
use std::alloc::{AllocError, Global};

// What stands behind the first declarator, and further declarators, each behind a comma.
#[tactic(auto, unfolding(grammar::specs::Reading::listed))]
fn others_at<'a>(
    alloc: Global,
    depth: u32,
    names: &mut TypeNames,
    heading: &Heading,
    tokens: &'a [Token],
) -> Result<Option<(Others, &'a [Token])>, AllocError>
    requires depth { depth < 999999 }
    requires heading { IsHeading heading.now }
    ensures found { IfOk result (λ r. option_map (λ f. (others_kids f.0, names.new.names, f.1.now)) r ≡ listed C (at depth declarator_rest) (at depth (Mark mark.Comma (init_declarator (leaf_of heading.now)))) (on_mark mark.Comma) names.old.names tokens.now) }
    ensures shorter { NoLonger tokens.now result }
    ensures kept { kept names.new ≡ kept names.old }
{
    let Some((first, behind)) = rest_at(alloc, depth, names, tokens)? else {
        return Ok(None);
    };
    let none = Vec::new(alloc);
    match more_declarators(alloc, depth, names, heading, none, behind)? {
        None => Ok(None),
        Some((more, rest)) => Ok(Some((Others { first, more }, rest))),
    }
}

// The same up to a ";".
fn objects_at<'a>(
    alloc: Global,
    depth: u32,
    names: &mut TypeNames,
    heading: &Heading,
    tokens: &'a [Token],
) -> Result<Option<(Others, &'a [Token])>, AllocError>
    requires depth { depth < 999999 }
    requires heading { IsHeading heading.now }
    ensures found { ReadsForm (λ o. kids (listing (others_kids o) ∷ [])) depth (Listed (on_mark mark.Comma) declarator_rest (Mark mark.Comma (init_declarator (leaf_of heading.now))) (Mark mark.Semicolon Done)) names.old.names names.new.names tokens.now result }
    ensures shorter { Shortens tokens.now result }
    ensures kept { kept names.new ≡ kept names.old }
{
    let Some((others, end)) = others_at(alloc, depth, names, heading, tokens)? else {
        return Ok(None);
    };
    match expect_punctuator(names, end, Punctuator::Semicolon) {
        None => Ok(None),
        Some(rest) => Ok(Some((others, rest))),
    }
}

// What stands behind specifiers, where a declarator does.
#[tactic(auto, unfolding(c_grammar::specs::Table::external_declarator))]
fn declared_at<'a>(
    alloc: Global,
    depth: u32,
    names: &mut TypeNames,
    heading: &Heading,
    tokens: &'a [Token],
) -> Result<Option<(Declared, &'a [Token])>, AllocError>
    requires depth { depth < 999999 }
    requires heading { IsHeading heading.now }
    ensures found { ReadsForm declared_kids depth (external_declarator (leaf_of heading.now)) names.old.names names.new.names tokens.now result }
    ensures named { IfOk result (λ r. IfSome r (λ f. IsNamed f.0)) }
    ensures shorter { Shortens tokens.now result }
    ensures kept { kept names.new ≡ kept names.old }
{
    let Some((declarator, behind)) = declarator_at(alloc, depth, names, heading.before, tokens)?
    else {
        return Ok(None);
    };
    declare(alloc, names, heading.is_typedef, &declarator)?;
    if on_punctuator(behind, Punctuator::OpenBrace) {
        return match function_body(alloc, depth, names, &declarator, behind)? {
            None => Ok(None),
            Some((body, rest)) => Ok(Some((function_of(declarator, body), rest))),
        };
    }
    match objects_at(alloc, depth, names, heading, behind)? {
        None => Ok(None),
        Some((others, rest)) => {
            let declared = objects_of(declarator, others)?;
            Ok(Some((declared, rest)))
        }
    }
}

// specifiers ( ";" | declarators ";" | declarator body )
fn external_rule<'a>(
    alloc: Global,
    depth: u32,
    names: &mut TypeNames,
    tokens: &'a [Token],
) -> Result<Option<(External, &'a [Token])>, AllocError>
    requires depth { depth < 999999 }
    ensures found { ReadsRule external_tree depth rule.External names.old.names names.new.names tokens.now result }
    ensures shorter { Shortens tokens.now result }
    ensures kept { kept names.new ≡ kept names.old }
{
    let Some(span) = place_at(tokens) else {
        return Ok(None);
    };
    let Some((heading, behind)) = heading_at(alloc, depth, names, tokens)? else {
        return Ok(None);
    };
    if on_punctuator(behind, Punctuator::Semicolon) {
        return match expect_punctuator(names, behind, Punctuator::Semicolon) {
            None => Ok(None),
            Some(rest) => Ok(Some((bare_of(alloc, span, heading), rest))),
        };
    }
    match declared_at(alloc, depth, names, &heading, behind)? {
        None => Ok(None),
        Some((declared, rest)) => Ok(Some((external_of(span, heading, declared), rest))),
    }
}

// ";"
fn empty_rule<'a>(
    depth: u32,
    names: &mut TypeNames,
    tokens: &'a [Token],
) -> Result<Option<(External, &'a [Token])>, AllocError>
    ensures found { ReadsRule external_tree depth rule.Empty names.old.names names.new.names tokens.now result }
    ensures shorter { Shortens tokens.now result }
    ensures kept { kept names.new ≡ kept names.old }
{
    let Some(span) = place_at(tokens) else {
        return Ok(None);
    };
    match expect_punctuator(names, tokens, Punctuator::Semicolon) {
        None => Ok(None),
        Some(rest) => Ok(Some((empty_of(span), rest))),
    }
}

fn asserted_rule<'a>(
    alloc: Global,
    depth: u32,
    names: &mut TypeNames,
    tokens: &'a [Token],
) -> Result<Option<(External, &'a [Token])>, AllocError>
    requires depth { depth < 999999 }
    ensures found { ReadsRule external_tree depth rule.Assertion names.old.names names.new.names tokens.now result }
    ensures shorter { Shortens tokens.now result }
    ensures kept { kept names.new ≡ kept names.old }
{
    match assertion_rule(alloc, depth, names, tokens)? {
        None => Ok(None),
        Some((assertion, rest)) => Ok(Some((External::Declaration(assertion), rest))),
    }
}

/// An external declaration that nests no deeper, and the tokens behind it.
pub fn external_at<'a>(
    alloc: Global,
    depth: u32,
    names: &mut TypeNames,
    tokens: &'a [Token],
) -> Result<Option<(External, &'a [Token])>, AllocError>
    requires depth { depth < 999999 }
    ensures found { ReadsSort external_tree depth sort.External names.old.names names.new.names tokens.now result }
    ensures shorter { Shortens tokens.now result }
    ensures kept { kept names.new ≡ kept names.old }
{
    if depth == 0 {
        names.refuse(tokens);
        return Ok(None);
    }
    if on_punctuator(tokens, Punctuator::Semicolon) {
        return empty_rule(depth - 1, names, tokens);
    }
    if on_keyword(tokens, Keyword::StaticAssert) {
        return asserted_rule(alloc, depth - 1, names, tokens);
    }
    external_rule(alloc, depth - 1, names, tokens)
}

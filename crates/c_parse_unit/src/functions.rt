//! Bodies of function definitions (C11 6.9.1).
ghost use Rattle.std.specs.Prelude.{◌≡◌, ◌<◌, ◌∷◌, [], length, map, option_map, IfSome};
ghost use Rattle.c_base.specs.declared.token.Punctuator.TheVariants as mark;
ghost use Rattle.c_tree.specs.Views.{declarator_tree};
ghost use Rattle.c_parse_base.specs.KnownNames.{kept};
ghost use Rattle.grammar.specs.Forms.{Declare, Done, Here, Mark, Node, Place, Scoped, Sub};
ghost use Rattle.c_grammar.specs.declared.rule.Rule.TheVariants as rule;
ghost use Rattle.c_grammar.specs.declared.rule.Sort.TheVariants as sort;
ghost use Rattle.c_grammar.specs.Leaves.{ADeclarator};
ghost use Rattle.c_grammar.specs.Table.{with_formals};
ghost use Rattle.c_unit_tree.specs.Views.{block_item_kids, body_tree, kids, listing, some};
ghost use Rattle.c_parse_initialisers.specs.Reads.{at, ReadsForm, ReadsRule, ReadsSort, Shortens};

use c_base::number::Span;
use c_base::token::{Punctuator, Token};
use c_parse_base::expecting::expect_punctuator;
use c_parse_base::names::TypeNames;
use c_parse_formals::declare_formals;
use c_parse_initialisers::parts::place_at;
use c_parse_stmt::items_within;
use c_tree::tree::Declarator;
use c_unit_tree::unit::{Body, UnitItem};
use sqlite_items::Items;
use std::alloc::{AllocError, Global};

fn body_of(span: Span, items: Items<UnitItem>, closing: Span) -> Body
    ensures { body_tree result ≡ Node rule.Body (kids (Place span ∷ listing (map block_item_kids items) ∷ Place closing ∷ [])) }
{
    Body {
        span,
        items,
        closing,
    }
}

// The place of a "}", and the tokens behind it.
fn closing_at<'a>(
    depth: u32,
    names: &mut TypeNames,
    tokens: &'a [Token],
) -> Option<(Span, &'a [Token])>
    ensures found { option_map (λ f. (kids (Place f.0 ∷ []), names.old.names, f.1.now)) result ≡ at depth (Here (Mark mark.CloseBrace Done)) names.old.names tokens.now }
    ensures shorter { IfSome result (λ f. length f.1.now < length tokens.now) }
    ensures same { names.new ≡ names.old }
{
    let Some(span) = place_at(tokens) else {
        names.refuse(tokens);
        return None;
    };
    match expect_punctuator(names, tokens, Punctuator::CloseBrace) {
        None => None,
        Some(rest) => Some((span, rest)),
    }
}

fn body_rule<'a>(
    alloc: Global,
    depth: u32,
    names: &mut TypeNames,
    tokens: &'a [Token],
) -> Result<Option<(Body, &'a [Token])>, AllocError>
    requires depth { depth < 999999 }
    ensures found { ReadsRule body_tree depth rule.Body names.old.names names.new.names tokens.now result }
    ensures shorter { Shortens tokens.now result }
    ensures kept { kept names.new ≡ kept names.old }
{
    let Some(span) = place_at(tokens) else {
        return Ok(None);
    };
    let Some(inside) = expect_punctuator(names, tokens, Punctuator::OpenBrace) else {
        return Ok(None);
    };
    let Some((items, end)) = items_within(alloc, depth, names, inside)? else {
        return Ok(None);
    };
    match closing_at(depth, names, end) {
        None => Ok(None),
        Some((closing, rest)) => Ok(Some((body_of(span, items, closing), rest))),
    }
}

fn body_at<'a>(
    alloc: Global,
    depth: u32,
    names: &mut TypeNames,
    tokens: &'a [Token],
) -> Result<Option<(Body, &'a [Token])>, AllocError>
    requires depth { depth < 999999 }
    ensures found { ReadsSort body_tree depth sort.Body names.old.names names.new.names tokens.now result }
    ensures shorter { Shortens tokens.now result }
    ensures kept { kept names.new ≡ kept names.old }
{
    if depth == 0 {
        names.refuse(tokens);
        return Ok(None);
    }
    body_rule(alloc, depth - 1, names, tokens)
}

// A body, with the formals declared in front of it.
fn body_behind<'a>(
    alloc: Global,
    depth: u32,
    names: &mut TypeNames,
    declarator: &Declarator,
    tokens: &'a [Token],
) -> Result<Option<(Body, &'a [Token])>, AllocError>
    requires depth { depth < 999999 }
    ensures found { ReadsSort body_tree depth sort.Body (with_formals (ADeclarator (declarator_tree declarator.now)) names.old.names) names.new.names tokens.now result }
    ensures shorter { Shortens tokens.now result }
    ensures kept { kept names.new ≡ kept names.old }
{
    declare_formals(alloc, names, declarator)?;
    body_at(alloc, depth, names, tokens)
}

/// The body of a function with this declarator, in a scope of its own, in which the formals are declared.
pub fn function_body<'a>(
    alloc: Global,
    depth: u32,
    names: &mut TypeNames,
    declarator: &Declarator,
    tokens: &'a [Token],
) -> Result<Option<(Body, &'a [Token])>, AllocError>
    requires depth { depth < 999999 }
    ensures found { ReadsForm (λ b. kids (some (body_tree b ∷ []) ∷ [])) depth (Scoped (Declare (with_formals (ADeclarator (declarator_tree declarator.now))) (Sub sort.Body Done)) Done) names.old.names names.new.names tokens.now result }
    ensures shorter { Shortens tokens.now result }
    ensures kept { kept names.new ≡ kept names.old }
{
    let below = names.enter();
    let found = body_behind(alloc, depth, names, declarator, tokens);
    names.leave(below);
    found
}

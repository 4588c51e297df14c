//! What stands behind an operand (C11 6.5.2).
ghost use Rattle.std.specs.Prelude.{◌≡◌, [], ◌∷◌, suc, ◌<◌, ◌≤◌, length, map, option_map, IfOk, IfNone, IfSome};
ghost use Rattle.c_tree.specs.Nesting.{nest, nest_all};
ghost use Rattle.c_tree.specs.Trees.{Postfix};
ghost use Rattle.c_tree.specs.WellFormed.{after, after_all};
ghost use Rattle.c_tree.specs.Views.{tree_of, part_tree, exprs_of, parts_of};
ghost use Rattle.c_parse_postfix.specs.AtDepth.{index_at, call_at, part_of, part_at, all_parts, postfix_of, postfix_at, arguments_at, all_listed, next_listed};
ghost use Rattle.c_parse_base.specs.Heights.{capped};
ghost use Rattle.c_parse_base.specs.KnownNames.{kept};
ghost use Rattle.c_parse_base.specs.Reads.{found_of, IsFound, AreFound, IsGrown};
ghost use Rattle.c_parse_rules.specs.Tokens.{name_at};

use crate::operands::operand;
use c_base::name::Name;
use c_base::number::Span;
use c_base::token::{Punctuator, Token, Word};
use c_parse_base::below::Below;
use c_parse_base::expecting::expect_name;
use c_parse_base::found::{Found, Several};
use c_parse_base::height::{above, deeper, flat, within};
use c_parse_base::names::TypeNames;
use c_parse_base::scope::close;
use c_parse_base::words::behind_punctuator;
use c_tree::tree::{Expr, PostfixPart};
use sqlite_items::{Boxed, Items};
use std::alloc::{AllocError, Global};

#[tactic(auto, unfolding(c_parse_rules::specs::Rules::index_at))]
fn index_at<'a, B: Below<'a>>(
    below: &B,
    alloc: Global,
    names: &mut TypeNames,
    tokens: &'a [Token],
) -> Result<Option<Found<'a, PostfixPart>>, AllocError>
    requires { B.works below.now }
    ensures found { IfOk result (λ r. IsFound part_tree (index_at (B.depth below.now) names.old.names tokens.now) names.old.names names.new.names tokens.now r) }
    ensures kept { kept names.new ≡ kept names.old }
{
    let Some(index) = operand(below, alloc, names, 0, tokens)? else {
        return Ok(None);
    };
    match behind_punctuator(index.rest, Punctuator::CloseBracket) {
        None => Ok(None),
        Some(rest) => Ok(Some(Found {
            tree: PostfixPart::Index(index.tree.into_inner()),
            height: index.height,
            rest,
        })),
    }
}

fn next_listed<'a, B: Below<'a>>(
    below: &B,
    alloc: Global,
    names: &mut TypeNames,
    tokens: &'a [Token],
) -> Result<Option<Found<'a, Expr>>, AllocError>
    requires { B.works below.now }
    ensures found { IfOk result (λ r. IsFound tree_of (next_listed (B.depth below.now) names.old.names tokens.now) names.old.names names.new.names tokens.now r) }
    ensures unchanged { IfOk result (λ r. IfNone r (names.new.names ≡ names.old.names)) }
    ensures kept { kept names.new ≡ kept names.old }
{
    match behind_punctuator(tokens, Punctuator::Comma) {
        None => Ok(None),
        Some(rest) => below.expr(alloc, names, 1, rest),
    }
}

/// Expressions behind commas, after those that were found before.
pub fn behind_commas<'a, B: Below<'a>>(
    below: &B,
    alloc: Global,
    names: &mut TypeNames,
    before: Vec<Expr>,
    deepest: u32,
    tokens: &'a [Token],
) -> Result<Several<'a, Expr>, AllocError>
    requires works { B.works below.now }
    requires height { deepest ≡ capped (nest_all (exprs_of before.items)) }
    ensures found { IfOk result (λ s. AreFound tree_of before.items (all_listed (B.depth below.now) (map tree_of before.items) names.old.names tokens.now) names.old.names names.new.names tokens.now s) }
    ensures kept { kept names.new ≡ kept names.old }
{
    let mut found = before;
    let mut height = deepest;
    let mut rest = tokens;
    'reading: while let Some(next) = next_listed(below, alloc, names, rest)? {
        height = deeper(height, next.height);
        found.push(next.tree)?;
        rest = next.rest;
    }
    Ok(Several {
        trees: Items::from_vec(found),
        height,
        rest,
    })
}

#[tactic(auto, unfolding(c_parse_rules::specs::Rules::arguments_at, crate::specs::AtDepth::all_listed))]
fn arguments_at<'a, B: Below<'a>>(
    below: &B,
    alloc: Global,
    names: &mut TypeNames,
    tokens: &'a [Token],
) -> Result<Several<'a, Expr>, AllocError>
    requires { B.works below.now }
    ensures found { IfOk result (λ s. AreFound tree_of [] (arguments_at (B.depth below.now) names.old.names tokens.now) names.old.names names.new.names tokens.now s) }
    ensures kept { kept names.new ≡ kept names.old }
{
    let mut found = Vec::new(alloc);
    match below.expr(alloc, names, 1, tokens)? {
        None => Ok(Several {
            trees: Items::from_vec(found),
            height: flat(),
            rest: tokens,
        }),
        Some(first) => {
            found.push(first.tree)?;
            behind_commas(below, alloc, names, found, first.height, first.rest)
        }
    }
}

#[tactic(auto, unfolding(c_parse_rules::specs::Rules::call_at))]
fn call_at<'a, B: Below<'a>>(
    below: &B,
    alloc: Global,
    names: &mut TypeNames,
    opening: Span,
    tokens: &'a [Token],
) -> Result<Option<Found<'a, PostfixPart>>, AllocError>
    requires { B.works below.now }
    ensures found { IfOk result (λ r. IsFound part_tree (call_at (B.depth below.now) opening names.old.names tokens.now) names.old.names names.new.names tokens.now r) }
    ensures kept { kept names.new ≡ kept names.old }
{
    let arguments = arguments_at(below, alloc, names, tokens)?;
    match behind_punctuator(arguments.rest, Punctuator::CloseParenthesis) {
        None => Ok(None),
        Some(rest) => Ok(Some(Found {
            tree: PostfixPart::Call {
                opening,
                arguments: arguments.trees,
            },
            height: arguments.height,
            rest,
        })),
    }
}

fn member_at<'a>(
    alloc: Global,
    names: &mut TypeNames,
    tokens: &'a [Token],
) -> Result<Option<(Name, &'a [Token])>, AllocError>
    ensures found { IfOk result (λ r. option_map (λ f. (f.0, f.1.now)) r ≡ name_at tokens.now) }
    ensures shorter { IfOk result (λ r. IfSome r (λ f. length f.1.now < length tokens.now)) }
    ensures same { names.new ≡ names.old }
{
    match expect_name(names, tokens) {
        None => Ok(None),
        Some((name, rest)) => Ok(Some((name.duplicate(alloc)?, rest))),
    }
}

// A part without trees.
fn plain_part<'a>(tree: PostfixPart, rest: &'a [Token]) -> Found<'a, PostfixPart>
    ensures tree { result.tree ≡ tree }
    ensures height { result.height ≡ capped 0 }
    ensures rest { result.rest.now ≡ rest.now }
{
    Found {
        tree,
        height: flat(),
        rest,
    }
}

#[tactic(auto, unfolding(c_parse_rules::specs::Rules::dot_at, c_parse_rules::specs::Rules::arrow_at))]
fn part_of<'a, B: Below<'a>>(
    below: &B,
    alloc: Global,
    names: &mut TypeNames,
    first: &Token,
    tokens: &'a [Token],
) -> Result<Option<Found<'a, PostfixPart>>, AllocError>
    requires { B.works below.now }
    ensures found { IfOk result (λ r. IsFound part_tree (part_of (B.depth below.now) names.old.names first.now tokens.now first.now.word) names.old.names names.new.names (first.now ∷ tokens.now) r) }
    ensures kept { kept names.new ≡ kept names.old }
{
    match &first.word {
        Word::Punctuator(Punctuator::OpenBracket) => index_at(below, alloc, names, tokens),
        Word::Punctuator(Punctuator::OpenParenthesis) => {
            call_at(below, alloc, names, first.span, tokens)
        }
        Word::Punctuator(Punctuator::Dot) => match member_at(alloc, names, tokens)? {
            None => Ok(None),
            Some((name, rest)) => Ok(Some(plain_part(PostfixPart::Member(name), rest))),
        },
        Word::Punctuator(Punctuator::Arrow) => match member_at(alloc, names, tokens)? {
            None => Ok(None),
            Some((name, rest)) => Ok(Some(plain_part(PostfixPart::Arrow(name), rest))),
        },
        Word::Punctuator(Punctuator::Increment) => {
            Ok(Some(plain_part(PostfixPart::Increment, tokens)))
        }
        Word::Punctuator(Punctuator::Decrement) => {
            Ok(Some(plain_part(PostfixPart::Decrement, tokens)))
        }
        _ => Ok(None),
    }
}

fn part_inside<'a, B: Below<'a>>(
    below: &B,
    alloc: Global,
    names: &mut TypeNames,
    tokens: &'a [Token],
) -> Result<Option<Found<'a, PostfixPart>>, AllocError>
    requires { B.works below.now }
    ensures found { IfOk result (λ r. IsFound part_tree (part_at (B.depth below.now) names.old.names tokens.now) names.old.names names.new.names tokens.now r) }
    ensures kept { kept names.new ≡ kept names.old }
{
    match tokens.split_first() {
        None => Ok(None),
        Some((first, rest)) => part_of(below, alloc, names, first, rest),
    }
}

fn part_at<'a, B: Below<'a>>(
    below: &B,
    alloc: Global,
    names: &mut TypeNames,
    tokens: &'a [Token],
) -> Result<Option<Found<'a, PostfixPart>>, AllocError>
    requires { B.works below.now }
    ensures found { IfOk result (λ r. IsFound part_tree (part_at (B.depth below.now) names.old.names tokens.now) names.old.names names.new.names tokens.now r) }
    ensures unchanged { IfOk result (λ r. IfNone r (names.new.names ≡ names.old.names)) }
    ensures kept { kept names.new ≡ kept names.old }
{
    let scope = names.enter();
    let found = part_inside(below, alloc, names, tokens);
    close(names, scope, tokens, found)
}

fn parts_at<'a, B: Below<'a>>(
    below: &B,
    alloc: Global,
    names: &mut TypeNames,
    tokens: &'a [Token],
) -> Result<Several<'a, PostfixPart>, AllocError>
    requires { B.works below.now }
    ensures found { IfOk result (λ s. AreFound part_tree [] (all_parts (B.depth below.now) names.old.names tokens.now) names.old.names names.new.names tokens.now s) }
    ensures kept { kept names.new ≡ kept names.old }
{
    let mut found = Vec::new(alloc);
    let mut height = flat();
    let mut rest = tokens;
    'reading: while let Some(next) = part_at(below, alloc, names, rest)? {
        height = deeper(height, next.height);
        found.push(next.tree)?;
        rest = next.rest;
    }
    Ok(Several {
        trees: Items::from_vec(found),
        height,
        rest,
    })
}

// The operand with its parts.
fn with_parts(
    alloc: Global,
    span: Span,
    first: Boxed<Expr>,
    parts: Items<PostfixPart>,
) -> Result<Boxed<Expr>, AllocError>
    ensures { IfOk result (λ e. tree_of e ≡ Postfix span (tree_of first) (parts_of parts)) }
{
    Boxed::new(alloc, Expr::Postfix { span, first, parts })
}

// The operand with its parts, where it has some.
fn postfix_of<'a>(
    alloc: Global,
    span: Span,
    first: Found<'a, Boxed<Expr>>,
    parts: Several<'a, PostfixPart>,
) -> Result<Found<'a, Boxed<Expr>>, AllocError>
    requires first { first.height ≡ capped (nest (tree_of first.tree)) }
    requires parts { parts.height ≡ capped (nest_all (parts_of parts.trees)) }
    ensures same { (d : _) → IfOk result (λ r. found_of tree_of r ≡ postfix_of d span (found_of tree_of first.entry) (map part_tree parts.entry.trees, parts.entry.rest.now)) }
    ensures height { IfOk result (λ r. r.height ≡ capped (nest (tree_of r.tree))) }
    ensures names { IfOk result (λ r. (before : _) → after before (tree_of r.tree) ≡ after_all (after before (tree_of first.entry.tree)) (parts_of parts.entry.trees)) }
    ensures shorter { length parts.entry.rest.now ≤ length first.entry.rest.now → IfOk result (λ r. length r.rest.now ≤ length first.entry.rest.now) }
{
    if parts.trees.is_empty() {
        return Ok(first);
    }
    Ok(Found {
        tree: with_parts(alloc, span, first.tree, parts.trees)?,
        height: above(deeper(first.height, parts.height)),
        rest: parts.rest,
    })
}

/// An operand with all that stands behind it.
#[tactic(auto, unfolding(c_parse_rules::specs::Rules::postfix_at, crate::specs::AtDepth::all_parts))]
pub fn postfix_at<'a, B: Below<'a>>(
    below: &B,
    alloc: Global,
    names: &mut TypeNames,
    span: Span,
    first: Found<'a, Boxed<Expr>>,
) -> Result<Found<'a, Boxed<Expr>>, AllocError>
    requires works { B.works below.now }
    requires height { first.height ≡ capped (nest (tree_of first.tree)) }
    ensures found { IfOk result (λ r. (before : _) → names.old.names ≡ after before (tree_of first.entry.tree) → IsGrown tree_of tree_of (postfix_at (B.depth below.now) span before (found_of tree_of first.entry)) before names.new.names first.entry r) }
    ensures kept { kept names.new ≡ kept names.old }
{
    if !within(first.height, below.depth()) {
        return Ok(first);
    }
    let parts = parts_at(below, alloc, names, first.rest)?;
    postfix_of(alloc, span, first, parts)
}

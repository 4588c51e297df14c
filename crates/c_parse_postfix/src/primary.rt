//! Primary expressions (C11 6.5.1) with what stands behind them.
ghost use Rattle.std.specs.Prelude.{◌≡◌, ◌≤◌, ◌∷◌, [], suc, length, IfOk};
ghost use Rattle.c_tree.specs.Trees.{Parenthesised, Offsetof, Text};
ghost use Rattle.c_tree.specs.Views.{tree_of, type_name_tree};
ghost use Rattle.c_parse_postfix.specs.AtDepth.{parenthesised_at, offsetof_at, primary_of, primary_at};
ghost use Rattle.c_parse_base.specs.Heights.{capped};
ghost use Rattle.c_parse_base.specs.KnownNames.{kept};
ghost use Rattle.c_parse_base.specs.Reads.{found_of, IsFound};
ghost use Rattle.c_parse_rules.specs.Rules.{literals};

use crate::operands::{operand, type_name};
use crate::postfix::postfix_at;
use c_base::name::Name;
use c_base::number::Span;
use c_base::token::{Keyword, Punctuator, Token, Word};
use c_parse_base::below::Below;
use c_parse_base::expecting::{expect_name, expect_punctuator};
use c_parse_base::found::Found;
use c_parse_base::height::{above, leaf};
use c_parse_base::literals::literals_at;
use c_parse_base::names::TypeNames;
use c_parse_base::words::behind_punctuator;
use c_tree::tree::{Expr, TypeName};
use sqlite_items::{Boxed, Items};
use std::alloc::{AllocError, Global};

fn parentheses(alloc: Global, span: Span, inner: Boxed<Expr>) -> Result<Boxed<Expr>, AllocError>
    ensures { IfOk result (λ e. tree_of e ≡ Parenthesised span (tree_of inner)) }
{
    Boxed::new(alloc, Expr::Parenthesised { span, inner })
}

#[tactic(auto, unfolding(c_parse_rules::specs::Rules::parenthesised_at))]
fn parenthesised_at<'a, B: Below<'a>>(
    below: &B,
    alloc: Global,
    names: &mut TypeNames,
    span: Span,
    tokens: &'a [Token],
) -> Result<Option<Found<'a, Boxed<Expr>>>, AllocError>
    requires { B.works below.now }
    ensures found { IfOk result (λ r. IsFound tree_of (parenthesised_at (B.depth below.now) span names.old.names tokens.now) names.old.names names.new.names tokens.now r) }
    ensures kept { kept names.new ≡ kept names.old }
{
    let Some(inner) = operand(below, alloc, names, 0, tokens)? else {
        return Ok(None);
    };
    let height = above(inner.height);
    match behind_punctuator(inner.rest, Punctuator::CloseParenthesis) {
        None => Ok(None),
        Some(rest) => Ok(Some(Found {
            tree: parentheses(alloc, span, inner.tree)?,
            height,
            rest,
        })),
    }
}

fn offset_of(
    alloc: Global,
    span: Span,
    type_name: Boxed<TypeName>,
    member: &Name,
) -> Result<Boxed<Expr>, AllocError>
    ensures { IfOk result (λ e. tree_of e ≡ Offsetof span (type_name_tree type_name) member.now) }
{
    let member = member.duplicate(alloc)?;
    let whole = Expr::Offsetof {
        span,
        type_name,
        member,
    };
    Boxed::new(alloc, whole)
}

#[tactic(auto, unfolding(c_parse_rules::specs::Rules::offsetof_at))]
fn offsetof_at<'a, B: Below<'a>>(
    below: &B,
    alloc: Global,
    names: &mut TypeNames,
    span: Span,
    tokens: &'a [Token],
) -> Result<Option<Found<'a, Boxed<Expr>>>, AllocError>
    requires { B.works below.now }
    ensures found { IfOk result (λ r. IsFound tree_of (offsetof_at (B.depth below.now) span names.old.names tokens.now) names.old.names names.new.names tokens.now r) }
    ensures kept { kept names.new ≡ kept names.old }
{
    let Some(inside) = expect_punctuator(names, tokens, Punctuator::OpenParenthesis) else {
        return Ok(None);
    };
    let Some(found) = type_name(below, alloc, names, inside)? else {
        return Ok(None);
    };
    let height = above(found.height);
    let Some(comma) = behind_punctuator(found.rest, Punctuator::Comma) else {
        return Ok(None);
    };
    let Some((member, behind)) = expect_name(names, comma) else {
        return Ok(None);
    };
    match expect_punctuator(names, behind, Punctuator::CloseParenthesis) {
        None => Ok(None),
        Some(rest) => Ok(Some(Found {
            tree: offset_of(alloc, span, found.tree, member)?,
            height,
            rest,
        })),
    }
}

fn one_token<'a>(
    alloc: Global,
    tree: Expr,
    rest: &'a [Token],
) -> Result<Found<'a, Boxed<Expr>>, AllocError>
    ensures tree { IfOk result (λ r. r.tree ≡ tree) }
    ensures height { IfOk result (λ r. r.height ≡ capped 1) }
    ensures rest { IfOk result (λ r. r.rest.now ≡ rest.now) }
{
    Ok(Found {
        tree: Boxed::new(alloc, tree)?,
        height: leaf(),
        rest,
    })
}

fn text_of<'a>(
    alloc: Global,
    span: Span,
    first: &Items<u8>,
    tokens: &'a [Token],
) -> Result<Found<'a, Boxed<Expr>>, AllocError>
    ensures same { IfOk result (λ r. found_of tree_of r ≡ (Text span (literals (suc (length tokens.now)) (first.now ∷ []) tokens.now).0, (literals (suc (length tokens.now)) (first.now ∷ []) tokens.now).1)) }
    ensures height { IfOk result (λ r. r.height ≡ capped 1) }
    ensures shorter { IfOk result (λ r. length r.rest.now ≤ length tokens.now) }
{
    let (literals, rest) = literals_at(alloc, first, tokens)?;
    one_token(alloc, Expr::Text { span, literals }, rest)
}

fn primary_of<'a, B: Below<'a>>(
    below: &B,
    alloc: Global,
    names: &mut TypeNames,
    first: &Token,
    tokens: &'a [Token],
) -> Result<Option<Found<'a, Boxed<Expr>>>, AllocError>
    requires { B.works below.now }
    ensures found { IfOk result (λ r. IsFound tree_of (primary_of (B.depth below.now) first.now.span names.old.names tokens.now first.now.word) names.old.names names.new.names (first.now ∷ tokens.now) r) }
    ensures kept { kept names.new ≡ kept names.old }
{
    let span = first.span;
    match &first.word {
        Word::Identifier(name) => {
            if names.is_typedef(name) {
                return Ok(None);
            }
            let name = name.duplicate(alloc)?;
            Ok(Some(one_token(alloc, Expr::Name { span, name }, tokens)?))
        }
        Word::Integer(constant) => {
            let constant = *constant;
            Ok(Some(one_token(alloc, Expr::Integer { span, constant }, tokens)?))
        }
        Word::Floating => Ok(Some(one_token(alloc, Expr::Floating { span }, tokens)?)),
        Word::Character(byte) => {
            let byte = *byte;
            Ok(Some(one_token(alloc, Expr::Character { span, byte }, tokens)?))
        }
        Word::Text(bytes) => Ok(Some(text_of(alloc, span, bytes, tokens)?)),
        Word::Punctuator(Punctuator::OpenParenthesis) => {
            parenthesised_at(below, alloc, names, span, tokens)
        }
        Word::Keyword(Keyword::BuiltinOffsetof) => offsetof_at(below, alloc, names, span, tokens),
        _ => Ok(None),
    }
}

/// A primary expression and what stands behind it; `first` is its first token.
#[tactic(auto, unfolding(c_parse_rules::specs::Rules::primary_at))]
pub fn primary_at<'a, B: Below<'a>>(
    below: &B,
    alloc: Global,
    names: &mut TypeNames,
    first: &Token,
    tokens: &'a [Token],
) -> Result<Option<Found<'a, Boxed<Expr>>>, AllocError>
    requires { B.works below.now }
    ensures found { IfOk result (λ r. IsFound tree_of (primary_at (B.depth below.now) first.now.span names.old.names tokens.now first.now.word) names.old.names names.new.names (first.now ∷ tokens.now) r) }
    ensures kept { kept names.new ≡ kept names.old }
{
    match primary_of(below, alloc, names, first, tokens)? {
        None => Ok(None),
        Some(found) => Ok(Some(postfix_at(below, alloc, names, first.span, found)?)),
    }
}

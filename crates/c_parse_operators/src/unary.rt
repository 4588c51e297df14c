//! Prefix operators and casts (C11 6.5.3 and 6.5.4).
ghost use Rattle.std.specs.Prelude.{◌≡◌, ◌∷◌, IfOk};
ghost use Rattle.c_base.specs.declared.token.Punctuator.TheVariants as mark;
ghost use Rattle.c_base.specs.declared.token.Word.TheVariants as word;
ghost use Rattle.c_tree.specs.Trees.{Prefix, OfType, Cast};
ghost use Rattle.c_tree.specs.Views.{tree_of, type_name_tree};
ghost use Rattle.c_tree.specs.WellFormed.{level_behind};
ghost use Rattle.c_parse_postfix.specs.AtDepth.{prefix_at, type_at, of_type_at, sizeof_at, cast_at, unary_of};
ghost use Rattle.c_parse_base.specs.KnownNames.{kept};
ghost use Rattle.c_parse_base.specs.Reads.{IsFound};

use c_base::number::Span;
use c_base::token::{Keyword, Punctuator, Token, Word};
use c_parse_base::below::Below;
use c_parse_base::expecting::expect_punctuator;
use c_parse_base::found::Found;
use c_parse_base::height::{above, deeper};
use c_parse_base::names::TypeNames;
use c_parse_base::words::{behind_punctuator, is_type_at, prefix_of};
use c_parse_postfix::operands::{operand, type_name};
use c_parse_postfix::primary::primary_at;
use c_tree::operator::{PrefixOperator, TypeOperator};
use c_tree::tree::{Expr, TypeName};
use sqlite_items::Boxed;
use std::alloc::{AllocError, Global};

/// The level that a prefix operator asks of its operand: `++`, `--` and `sizeof` take no cast.
fn level_behind(operator: PrefixOperator) -> u32
    ensures { result ≡ level_behind operator }
{
    match operator {
        PrefixOperator::Increment => 14,
        PrefixOperator::Decrement => 14,
        PrefixOperator::Sizeof => 14,
        _ => 13,
    }
}

fn prefixed(
    alloc: Global,
    span: Span,
    operator: PrefixOperator,
    operand: Boxed<Expr>,
) -> Result<Boxed<Expr>, AllocError>
    ensures { IfOk result (λ e. tree_of e ≡ Prefix span operator (tree_of operand)) }
{
    let whole = Expr::Prefix {
        span,
        operator,
        operand,
    };
    Boxed::new(alloc, whole)
}

#[tactic(auto, unfolding(c_parse_rules::specs::Rules::prefix_at))]
fn prefix_at<'a, B: Below<'a>>(
    below: &B,
    alloc: Global,
    names: &mut TypeNames,
    span: Span,
    operator: PrefixOperator,
    tokens: &'a [Token],
) -> Result<Option<Found<'a, Boxed<Expr>>>, AllocError>
    requires { B.works below.now }
    ensures found { IfOk result (λ r. IsFound tree_of (prefix_at (B.depth below.now) span operator names.old.names tokens.now) names.old.names names.new.names tokens.now r) }
    ensures kept { kept names.new ≡ kept names.old }
{
    match operand(below, alloc, names, level_behind(operator), tokens)? {
        None => Ok(None),
        Some(found) => Ok(Some(Found {
            tree: prefixed(alloc, span, operator, found.tree)?,
            height: above(found.height),
            rest: found.rest,
        })),
    }
}

// A type name in parentheses.
#[tactic(auto, unfolding(c_parse_rules::specs::Rules::type_at))]
fn type_at<'a, B: Below<'a>>(
    below: &B,
    alloc: Global,
    names: &mut TypeNames,
    tokens: &'a [Token],
) -> Result<Option<Found<'a, Boxed<TypeName>>>, AllocError>
    requires { B.works below.now }
    ensures found { IfOk result (λ r. IsFound type_name_tree (type_at (B.depth below.now) names.old.names tokens.now) names.old.names names.new.names tokens.now r) }
    ensures kept { kept names.new ≡ kept names.old }
{
    let Some(inside) = expect_punctuator(names, tokens, Punctuator::OpenParenthesis) else {
        return Ok(None);
    };
    let Some(found) = type_name(below, alloc, names, inside)? else {
        return Ok(None);
    };
    match behind_punctuator(found.rest, Punctuator::CloseParenthesis) {
        None => Ok(None),
        Some(rest) => Ok(Some(Found {
            tree: found.tree,
            height: found.height,
            rest,
        })),
    }
}

fn of_type(
    alloc: Global,
    span: Span,
    operator: TypeOperator,
    type_name: Boxed<TypeName>,
) -> Result<Boxed<Expr>, AllocError>
    ensures { IfOk result (λ e. tree_of e ≡ OfType span operator (type_name_tree type_name)) }
{
    let whole = Expr::OfType {
        span,
        operator,
        type_name,
    };
    Boxed::new(alloc, whole)
}

#[tactic(auto, unfolding(c_parse_rules::specs::Rules::of_type_at))]
fn of_type_at<'a, B: Below<'a>>(
    below: &B,
    alloc: Global,
    names: &mut TypeNames,
    span: Span,
    operator: TypeOperator,
    tokens: &'a [Token],
) -> Result<Option<Found<'a, Boxed<Expr>>>, AllocError>
    requires { B.works below.now }
    ensures found { IfOk result (λ r. IsFound tree_of (of_type_at (B.depth below.now) span operator names.old.names tokens.now) names.old.names names.new.names tokens.now r) }
    ensures kept { kept names.new ≡ kept names.old }
{
    match type_at(below, alloc, names, tokens)? {
        None => Ok(None),
        Some(found) => Ok(Some(Found {
            tree: of_type(alloc, span, operator, found.tree)?,
            height: above(found.height),
            rest: found.rest,
        })),
    }
}

#[tactic(auto, unfolding(c_parse_rules::specs::Rules::sizeof_at))]
fn sizeof_at<'a, B: Below<'a>>(
    below: &B,
    alloc: Global,
    names: &mut TypeNames,
    span: Span,
    tokens: &'a [Token],
) -> Result<Option<Found<'a, Boxed<Expr>>>, AllocError>
    requires { B.works below.now }
    ensures found { IfOk result (λ r. IsFound tree_of (sizeof_at (B.depth below.now) span names.old.names tokens.now) names.old.names names.new.names tokens.now r) }
    ensures kept { kept names.new ≡ kept names.old }
{
    match behind_punctuator(tokens, Punctuator::OpenParenthesis) {
        None => prefix_at(below, alloc, names, span, PrefixOperator::Sizeof, tokens),
        Some(inside) => {
            if is_type_at(names, inside) {
                of_type_at(below, alloc, names, span, TypeOperator::Sizeof, tokens)
            } else {
                prefix_at(below, alloc, names, span, PrefixOperator::Sizeof, tokens)
            }
        }
    }
}

fn cast(
    alloc: Global,
    span: Span,
    type_name: Boxed<TypeName>,
    operand: Boxed<Expr>,
) -> Result<Boxed<Expr>, AllocError>
    ensures { IfOk result (λ e. tree_of e ≡ Cast span (type_name_tree type_name) (tree_of operand)) }
{
    let whole = Expr::Cast {
        span,
        type_name,
        operand,
    };
    Boxed::new(alloc, whole)
}

// Behind the `(`.
#[tactic(auto, unfolding(c_parse_rules::specs::Rules::cast_at))]
fn cast_at<'a, B: Below<'a>>(
    below: &B,
    alloc: Global,
    names: &mut TypeNames,
    span: Span,
    tokens: &'a [Token],
) -> Result<Option<Found<'a, Boxed<Expr>>>, AllocError>
    requires { B.works below.now }
    ensures found { IfOk result (λ r. IsFound tree_of (cast_at (B.depth below.now) span names.old.names tokens.now) names.old.names names.new.names tokens.now r) }
    ensures kept { kept names.new ≡ kept names.old }
{
    let Some(found) = type_name(below, alloc, names, tokens)? else {
        return Ok(None);
    };
    let Some(inside) = behind_punctuator(found.rest, Punctuator::CloseParenthesis) else {
        return Ok(None);
    };
    let Some(value) = operand(below, alloc, names, 13, inside)? else {
        return Ok(None);
    };
    Ok(Some(Found {
        tree: cast(alloc, span, found.tree, value.tree)?,
        height: above(deeper(found.height, value.height)),
        rest: value.rest,
    }))
}

// A `(` that begins a cast, where the level allows one, or a parenthesised expression.
fn opened_at<'a, B: Below<'a>>(
    below: &B,
    alloc: Global,
    names: &mut TypeNames,
    least: u32,
    first: &Token,
    tokens: &'a [Token],
) -> Result<Option<Found<'a, Boxed<Expr>>>, AllocError>
    requires works { B.works below.now }
    requires opens { first.now.word ≡ word.Punctuator mark.OpenParenthesis }
    ensures found { IfOk result (λ r. IsFound tree_of (unary_of (B.depth below.now) least first.now.span names.old.names tokens.now first.now.word) names.old.names names.new.names (first.now ∷ tokens.now) r) }
    ensures kept { kept names.new ≡ kept names.old }
{
    if !is_type_at(names, tokens) {
        return primary_at(below, alloc, names, first, tokens);
    }
    if least <= 13 {
        cast_at(below, alloc, names, first.span, tokens)
    } else {
        Ok(None)
    }
}

/// A cast where the level allows it, a prefix form, or a postfix run; `first` is its first token.
pub fn unary_at<'a, B: Below<'a>>(
    below: &B,
    alloc: Global,
    names: &mut TypeNames,
    least: u32,
    first: &Token,
    tokens: &'a [Token],
) -> Result<Option<Found<'a, Boxed<Expr>>>, AllocError>
    requires works { B.works below.now }
    ensures found { IfOk result (λ r. IsFound tree_of (unary_of (B.depth below.now) least first.now.span names.old.names tokens.now first.now.word) names.old.names names.new.names (first.now ∷ tokens.now) r) }
    ensures kept { kept names.new ≡ kept names.old }
{
    match &first.word {
        Word::Keyword(Keyword::Sizeof) => sizeof_at(below, alloc, names, first.span, tokens),
        Word::Keyword(Keyword::Alignof) => {
            of_type_at(
                below,
                alloc,
                names,
                first.span,
                TypeOperator::Alignof,
                tokens,
            )
        }
        Word::Punctuator(Punctuator::OpenParenthesis) => {
            opened_at(below, alloc, names, least, first, tokens)
        }
        Word::Punctuator(punctuator) => match prefix_of(*punctuator) {
            Some(operator) => prefix_at(below, alloc, names, first.span, operator, tokens),
            None => primary_at(below, alloc, names, first, tokens),
        },
        _ => primary_at(below, alloc, names, first, tokens),
    }
}

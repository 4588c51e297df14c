//! Runs of operators of one level (C11 6.5.5 to 6.5.14).
ghost use Rattle.std.specs.Prelude.{◌≡◌, ◌≤◌, ◌<◌, cond, [], length, map, nat_le, IfOk, IfNone};
ghost use Rattle.c_tree.specs.Nesting.{nest, nest_all};
ghost use Rattle.c_tree.specs.Trees.{Operand, Run};
ghost use Rattle.c_tree.specs.Views.{tree_of, operand_tree, operands_of};
ghost use Rattle.c_tree.specs.WellFormed.{after, after_all};
ghost use Rattle.c_parse_postfix.specs.AtDepth.{next_operand, all_operands, run_of, run_at, runs};
ghost use Rattle.c_parse_base.specs.Heights.{capped};
ghost use Rattle.c_parse_base.specs.KnownNames.{kept};
ghost use Rattle.c_parse_base.specs.Reads.{found_of, IsFound, AreFound, IsGrown};
ghost use Rattle.c_parse_rules.specs.Rules.{levels};

use c_base::number::Span;
use c_base::token::Token;
use c_parse_base::below::Below;
use c_parse_base::found::{Found, Several};
use c_parse_base::height::{above, deeper, flat, within};
use c_parse_base::names::TypeNames;
use c_parse_base::words::operator_at;
use c_tree::tree::{Expr, Operand};
use sqlite_items::{Boxed, Items};
use std::alloc::{AllocError, Global};

fn next_operand<'a, B: Below<'a>>(
    below: &B,
    alloc: Global,
    names: &mut TypeNames,
    level: u32,
    tokens: &'a [Token],
) -> Result<Option<Found<'a, Operand>>, AllocError>
    requires works { B.works below.now }
    requires small { level < 100 }
    ensures found { IfOk result (λ r. IsFound operand_tree (next_operand (B.depth below.now) level names.old.names tokens.now) names.old.names names.new.names tokens.now r) }
    ensures unchanged { IfOk result (λ r. IfNone r (names.new.names ≡ names.old.names)) }
    ensures kept { kept names.new ≡ kept names.old }
{
    let Some((operator, behind)) = operator_at(tokens, level) else {
        return Ok(None);
    };
    match below.expr(alloc, names, level + 1, behind)? {
        None => Ok(None),
        Some(found) => Ok(Some(Found {
            tree: Operand {
                operator,
                operand: found.tree,
            },
            height: found.height,
            rest: found.rest,
        })),
    }
}

fn operands_at<'a, B: Below<'a>>(
    below: &B,
    alloc: Global,
    names: &mut TypeNames,
    level: u32,
    tokens: &'a [Token],
) -> Result<Several<'a, Operand>, AllocError>
    requires works { B.works below.now }
    requires small { level < 100 }
    ensures found { IfOk result (λ s. AreFound operand_tree [] (all_operands (B.depth below.now) level names.old.names tokens.now) names.old.names names.new.names tokens.now s) }
    ensures kept { kept names.new ≡ kept names.old }
{
    let mut found = Vec::new(alloc);
    let mut height = flat();
    let mut rest = tokens;
    'reading: while let Some(next) = next_operand(below, alloc, names, level, rest)? {
        height = deeper(height, next.height);
        found.push(next.tree)?;
        rest = next.rest;
    }
    Ok(Several {
        trees: Items::from_vec(found),
        height,
        rest,
    })
}

fn with_operands(
    alloc: Global,
    span: Span,
    first: Boxed<Expr>,
    more: Items<Operand>,
) -> Result<Boxed<Expr>, AllocError>
    ensures { IfOk result (λ e. tree_of e ≡ Run span (tree_of first) (operands_of more)) }
{
    Boxed::new(alloc, Expr::Run { span, first, more })
}

// The operand with those behind it, where there are some.
fn run_of<'a>(
    alloc: Global,
    span: Span,
    first: Found<'a, Boxed<Expr>>,
    more: Several<'a, Operand>,
) -> Result<Found<'a, Boxed<Expr>>, AllocError>
    requires first { first.height ≡ capped (nest (tree_of first.tree)) }
    requires more { more.height ≡ capped (nest_all (operands_of more.trees)) }
    ensures same { (d : _) → IfOk result (λ r. found_of tree_of r ≡ run_of d span (found_of tree_of first.entry) (map operand_tree more.entry.trees, more.entry.rest.now)) }
    ensures height { IfOk result (λ r. r.height ≡ capped (nest (tree_of r.tree))) }
    ensures names { IfOk result (λ r. (before : _) → after before (tree_of r.tree) ≡ after_all (after before (tree_of first.entry.tree)) (operands_of more.entry.trees)) }
    ensures shorter { length more.entry.rest.now ≤ length first.entry.rest.now → IfOk result (λ r. length r.rest.now ≤ length first.entry.rest.now) }
{
    if more.trees.is_empty() {
        return Ok(first);
    }
    Ok(Found {
        tree: with_operands(alloc, span, first.tree, more.trees)?,
        height: above(deeper(first.height, more.height)),
        rest: more.rest,
    })
}

// An operand with all operators of the level behind it.
#[tactic(auto, unfolding(c_parse_rules::specs::Rules::run_at))]
fn run_at<'a, B: Below<'a>>(
    below: &B,
    alloc: Global,
    names: &mut TypeNames,
    level: u32,
    span: Span,
    first: Found<'a, Boxed<Expr>>,
) -> Result<Found<'a, Boxed<Expr>>, AllocError>
    requires works { B.works below.now }
    requires small { level < 100 }
    requires height { first.height ≡ capped (nest (tree_of first.tree)) }
    ensures found { IfOk result (λ r. (before : _) → names.old.names ≡ after before (tree_of first.entry.tree) → IsGrown tree_of tree_of (run_at (B.depth below.now) level span before (found_of tree_of first.entry)) before names.new.names first.entry r) }
    ensures height { IfOk result (λ r. r.height ≡ capped (nest (tree_of r.tree))) }
    ensures kept { kept names.new ≡ kept names.old }
{
    if !within(first.height, below.depth()) {
        return Ok(first);
    }
    let more = operands_at(below, alloc, names, level, first.rest)?;
    run_of(alloc, span, first, more)
}

// The same, where the level is allowed.
fn level_at<'a, B: Below<'a>>(
    below: &B,
    alloc: Global,
    names: &mut TypeNames,
    level: u32,
    least: u32,
    span: Span,
    first: Found<'a, Boxed<Expr>>,
) -> Result<Found<'a, Boxed<Expr>>, AllocError>
    requires works { B.works below.now }
    requires small { level < 100 }
    requires height { first.height ≡ capped (nest (tree_of first.tree)) }
    ensures found { IfOk result (λ r. (before : _) → names.old.names ≡ after before (tree_of first.entry.tree) → IsGrown tree_of tree_of (cond (nat_le least level) (run_at (B.depth below.now) level span before (found_of tree_of first.entry)) (found_of tree_of first.entry)) before names.new.names first.entry r) }
    ensures height { IfOk result (λ r. r.height ≡ capped (nest (tree_of r.tree))) }
    ensures kept { kept names.new ≡ kept names.old }
{
    if least <= level {
        run_at(below, alloc, names, level, span, first)
    } else {
        Ok(first)
    }
}

/// An operand with all operators behind it, level by level from the tightest, as far as the level allows.
pub fn runs<'a, B: Below<'a>>(
    below: &B,
    alloc: Global,
    names: &mut TypeNames,
    least: u32,
    span: Span,
    first: Found<'a, Boxed<Expr>>,
) -> Result<Found<'a, Boxed<Expr>>, AllocError>
    requires works { B.works below.now }
    requires height { first.height ≡ capped (nest (tree_of first.tree)) }
    ensures found { IfOk result (λ r. (before : _) → names.old.names ≡ after before (tree_of first.entry.tree) → IsGrown tree_of tree_of (runs (B.depth below.now) levels least span before (found_of tree_of first.entry)) before names.new.names first.entry r) }
    ensures height { IfOk result (λ r. r.height ≡ capped (nest (tree_of r.tree))) }
    ensures kept { kept names.new ≡ kept names.old }
{
    let mut grown = first;
    let mut left: u32 = 10;
    'growing: while left > 0 {
        grown = level_at(below, alloc, names, left + 2, least, span, grown)?;
        left -= 1;
    }
    Ok(grown)
}

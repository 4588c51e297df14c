//! Conditional expressions, assignments and commas (C11 6.5.15 to 6.5.17), and expressions as a whole.
ghost use Rattle.std.specs.Prelude.{◌≡◌, ◌≤◌, ◌<◌, ◌&&◌, None, cond, ◌∷◌, [], length, map, nat_le, option_map, IfOk, IfNone};
ghost use Rattle.c_tree.specs.Nesting.{nest, nest_all};
ghost use Rattle.c_tree.specs.Trees.{Assignment, Comma, Conditional};
ghost use Rattle.c_tree.specs.Views.{tree_of, exprs_of};
ghost use Rattle.c_tree.specs.WellFormed.{after, after_all, level_of};
ghost use Rattle.c_parse_postfix.specs.AtDepth.{assignment_at, comma_at, comma_of, conditional_at, expr_behind, expr_rule, runs};
ghost use Rattle.c_parse_base.specs.Heights.{capped};
ghost use Rattle.c_parse_base.specs.KnownNames.{kept};
ghost use Rattle.c_parse_operators.specs.Pairs.{branches_behind, branches_of, value_behind, with_branches, AreBranches, AreMeasuredBranches, IsValue};
ghost use Rattle.c_parse_base.specs.Reads.{found_of, IsFound, IsGrown};
ghost use Rattle.c_parse_rules.specs.Rules.{levels};

use crate::runs::runs;
use crate::unary::unary_at;
use c_base::number::Span;
use c_base::token::{Punctuator, Token};
use c_parse_base::below::Below;
use c_parse_base::found::{Found, Several};
use c_parse_base::height::{above, deeper, flat, within};
use c_parse_base::names::TypeNames;
use c_parse_base::scope::close;
use c_parse_base::words::{assigning_at, behind_punctuator};
use c_parse_postfix::operands::operand;
use c_parse_postfix::postfix::behind_commas;
use c_tree::operator::AssignmentOperator;
use c_tree::tree::Expr;
use sqlite_items::{Boxed, Items};
use std::alloc::{AllocError, Global};

// What stands between `?` and `:`, and behind that.
#[derive(Drop)]
pub struct Branches {
    when_true: Boxed<Expr>,
    when_false: Boxed<Expr>,
}

fn conditional(
    alloc: Global,
    span: Span,
    condition: Boxed<Expr>,
    when_true: Boxed<Expr>,
    when_false: Boxed<Expr>,
) -> Result<Boxed<Expr>, AllocError>
    ensures { IfOk result (λ e. tree_of e ≡ Conditional span (tree_of condition) (tree_of when_true) (tree_of when_false)) }
{
    let whole = Expr::Conditional {
        span,
        condition,
        when_true,
        when_false,
    };
    Boxed::new(alloc, whole)
}

#[tactic(auto, unfolding(crate::specs::Pairs::branches_behind))]
fn branches_inside<'a, B: Below<'a>>(
    below: &B,
    alloc: Global,
    names: &mut TypeNames,
    tokens: &'a [Token],
) -> Result<Option<Found<'a, Branches>>, AllocError>
    requires { B.works below.now }
    ensures found { IfOk result (λ r. AreBranches (branches_behind (B.depth below.now) names.old.names tokens.now) names.old.names names.new.names tokens.now r) }
    ensures kept { kept names.new ≡ kept names.old }
{
    let Some(inside) = behind_punctuator(tokens, Punctuator::Question) else {
        return Ok(None);
    };
    let Some(when_true) = operand(below, alloc, names, 0, inside)? else {
        return Ok(None);
    };
    let Some(colon) = behind_punctuator(when_true.rest, Punctuator::Colon) else {
        return Ok(None);
    };
    match operand(below, alloc, names, 2, colon)? {
        None => Ok(None),
        Some(when_false) => Ok(Some(Found {
            tree: Branches {
                when_true: when_true.tree,
                when_false: when_false.tree,
            },
            height: deeper(when_true.height, when_false.height),
            rest: when_false.rest,
        })),
    }
}

// What stands behind a condition.
fn branches_at<'a, B: Below<'a>>(
    below: &B,
    alloc: Global,
    names: &mut TypeNames,
    tokens: &'a [Token],
) -> Result<Option<Found<'a, Branches>>, AllocError>
    requires { B.works below.now }
    ensures found { IfOk result (λ r. AreBranches (branches_behind (B.depth below.now) names.old.names tokens.now) names.old.names names.new.names tokens.now r) }
    ensures unchanged { IfOk result (λ r. IfNone r (names.new.names ≡ names.old.names)) }
    ensures kept { kept names.new ≡ kept names.old }
{
    let scope = names.enter();
    let found = branches_inside(below, alloc, names, tokens);
    close(names, scope, tokens, found)
}

// A condition with its branches, where it has some.
fn conditional_of<'a>(
    alloc: Global,
    span: Span,
    first: Found<'a, Boxed<Expr>>,
    branches: Option<Found<'a, Branches>>,
) -> Result<Found<'a, Boxed<Expr>>, AllocError>
    requires height { first.height ≡ capped (nest (tree_of first.tree)) }
    requires branches { AreMeasuredBranches branches }
    ensures same { IfOk result (λ r. found_of tree_of r ≡ with_branches span (found_of tree_of first.entry) (option_map branches_of branches.entry)) }
    ensures height { IfOk result (λ r. r.height ≡ capped (nest (tree_of r.tree))) }
{
    match branches {
        None => Ok(first),
        Some(found) => Ok(Found {
            tree: conditional(
                alloc,
                span,
                first.tree,
                found.tree.when_true,
                found.tree.when_false,
            )?,
            height: above(deeper(first.height, found.height)),
            rest: found.rest,
        }),
    }
}

// A condition with its branches, as far as the level and the depth allow them.
fn conditional_at<'a, B: Below<'a>>(
    below: &B,
    alloc: Global,
    names: &mut TypeNames,
    least: u32,
    span: Span,
    first: Found<'a, Boxed<Expr>>,
) -> Result<Found<'a, Boxed<Expr>>, AllocError>
    requires works { B.works below.now }
    requires height { first.height ≡ capped (nest (tree_of first.tree)) }
    ensures found { IfOk result (λ r. (before : _) → names.old.names ≡ after before (tree_of first.entry.tree) → IsGrown tree_of tree_of (conditional_at (B.depth below.now) least span before (found_of tree_of first.entry)) before names.new.names first.entry r) }
    ensures kept { kept names.new ≡ kept names.old }
{
    if least > 2 {
        return Ok(first);
    }
    if !within(first.height, below.depth()) {
        return Ok(first);
    }
    let branches = branches_at(below, alloc, names, first.rest)?;
    conditional_of(alloc, span, first, branches)
}

// Runs of operators and a condition with its branches.
fn unassigned<'a, B: Below<'a>>(
    below: &B,
    alloc: Global,
    names: &mut TypeNames,
    least: u32,
    span: Span,
    first: Found<'a, Boxed<Expr>>,
) -> Result<Found<'a, Boxed<Expr>>, AllocError>
    requires works { B.works below.now }
    requires height { first.height ≡ capped (nest (tree_of first.tree)) }
    ensures found { IfOk result (λ r. (before : _) → names.old.names ≡ after before (tree_of first.entry.tree) → IsGrown tree_of tree_of (conditional_at (B.depth below.now) least span before (runs (B.depth below.now) levels least span before (found_of tree_of first.entry))) before names.new.names first.entry r) }
    ensures kept { kept names.new ≡ kept names.old }
{
    let operands = runs(below, alloc, names, least, span, first)?;
    conditional_at(below, alloc, names, least, span, operands)
}

// What stands behind the target of an assignment.
#[derive(Drop)]
pub struct Value {
    operator: AssignmentOperator,
    value: Boxed<Expr>,
}

#[tactic(auto, unfolding(crate::specs::Pairs::value_behind))]
fn value_at<'a, B: Below<'a>>(
    below: &B,
    alloc: Global,
    names: &mut TypeNames,
    tokens: &'a [Token],
) -> Result<Option<Found<'a, Value>>, AllocError>
    requires { B.works below.now }
    ensures found { IfOk result (λ r. IsValue (value_behind (B.depth below.now) names.old.names tokens.now) names.old.names names.new.names tokens.now r) }
    ensures unchanged { IfOk result (λ r. IfNone r (names.new.names ≡ names.old.names)) }
    ensures kept { kept names.new ≡ kept names.old }
{
    let Some((operator, behind)) = assigning_at(tokens) else {
        return Ok(None);
    };
    match operand(below, alloc, names, 1, behind)? {
        None => Ok(None),
        Some(value) => Ok(Some(Found {
            tree: Value {
                operator,
                value: value.tree,
            },
            height: value.height,
            rest: value.rest,
        })),
    }
}

fn value_where<'a, B: Below<'a>>(
    below: &B,
    alloc: Global,
    names: &mut TypeNames,
    may: bool,
    tokens: &'a [Token],
) -> Result<Option<Found<'a, Value>>, AllocError>
    requires { B.works below.now }
    ensures found { IfOk result (λ r. IsValue (cond may (value_behind (B.depth below.now) names.old.names tokens.now) None) names.old.names names.new.names tokens.now r) }
    ensures unchanged { IfOk result (λ r. IfNone r (names.new.names ≡ names.old.names)) }
    ensures kept { kept names.new ≡ kept names.old }
{
    if may {
        value_at(below, alloc, names, tokens)
    } else {
        Ok(None)
    }
}

// A unary expression, which may be the target of an assignment (C11 6.5.16).
fn is_unary(expr: &Expr) -> bool
    ensures { result ≡ nat_le 14 (level_of (tree_of expr.now)) }
{
    match expr {
        Expr::Cast {
            span: _,
            type_name: _,
            operand: _,
        } => false,
        Expr::Run {
            span: _,
            first: _,
            more: _,
        } => false,
        Expr::Conditional {
            span: _,
            condition: _,
            when_true: _,
            when_false: _,
        } => false,
        Expr::Assignment {
            span: _,
            target: _,
            operator: _,
            value: _,
        } => false,
        Expr::Comma {
            span: _,
            first: _,
            more: _,
        } => false,
        _ => true,
    }
}

fn may_assign<'a>(least: u32, depth: u32, first: &Found<'a, Boxed<Expr>>) -> bool
    requires small { depth < 1000000 }
    requires height { first.now.height ≡ capped (nest (tree_of first.now.tree)) }
    ensures { result ≡ (nat_le least 1 && (nat_le 14 (level_of (tree_of first.now.tree)) && nat_le (nest (tree_of first.now.tree)) depth)) }
{
    if least > 1 {
        return false;
    }
    if !is_unary(first.tree.get()) {
        return false;
    }
    within(first.height, depth)
}

fn assignment(
    alloc: Global,
    span: Span,
    target: Boxed<Expr>,
    operator: AssignmentOperator,
    value: Boxed<Expr>,
) -> Result<Boxed<Expr>, AllocError>
    ensures { IfOk result (λ e. tree_of e ≡ Assignment span (tree_of target) operator (tree_of value)) }
{
    let whole = Expr::Assignment {
        span,
        target,
        operator,
        value,
    };
    Boxed::new(alloc, whole)
}

// A target with its value.
fn assignment_of<'a>(
    alloc: Global,
    span: Span,
    first: Found<'a, Boxed<Expr>>,
    value: Found<'a, Value>,
) -> Result<Found<'a, Boxed<Expr>>, AllocError>
    requires height { first.height ≡ capped (nest (tree_of first.tree)) }
    requires value { value.height ≡ capped (nest (tree_of value.tree.value)) }
    ensures same { IfOk result (λ r. found_of tree_of r ≡ (Assignment span (tree_of first.entry.tree) value.entry.tree.operator (tree_of value.entry.tree.value), value.entry.rest.now)) }
    ensures height { IfOk result (λ r. r.height ≡ capped (nest (tree_of r.tree))) }
{
    Ok(Found {
        tree: assignment(
            alloc,
            span,
            first.tree,
            value.tree.operator,
            value.tree.value,
        )?,
        height: above(deeper(first.height, value.height)),
        rest: value.rest,
    })
}

// An assignment, or else runs and `?:`.
fn assignment_at<'a, B: Below<'a>>(
    below: &B,
    alloc: Global,
    names: &mut TypeNames,
    least: u32,
    span: Span,
    first: Found<'a, Boxed<Expr>>,
) -> Result<Found<'a, Boxed<Expr>>, AllocError>
    requires works { B.works below.now }
    requires height { first.height ≡ capped (nest (tree_of first.tree)) }
    ensures found { IfOk result (λ r. (before : _) → names.old.names ≡ after before (tree_of first.entry.tree) → IsGrown tree_of tree_of (assignment_at (B.depth below.now) least span before (found_of tree_of first.entry)) before names.new.names first.entry r) }
    ensures kept { kept names.new ≡ kept names.old }
{
    let may = may_assign(least, below.depth(), &first);
    match value_where(below, alloc, names, may, first.rest)? {
        Some(value) => assignment_of(alloc, span, first, value),
        None => unassigned(below, alloc, names, least, span, first),
    }
}

fn with_commas(
    alloc: Global,
    span: Span,
    first: Boxed<Expr>,
    more: Items<Expr>,
) -> Result<Boxed<Expr>, AllocError>
    ensures { IfOk result (λ e. tree_of e ≡ Comma span (tree_of first) (exprs_of more)) }
{
    Boxed::new(alloc, Expr::Comma { span, first, more })
}

// The operand with those behind commas, where there are some.
fn comma_of<'a>(
    alloc: Global,
    span: Span,
    first: Found<'a, Boxed<Expr>>,
    more: Several<'a, Expr>,
) -> Result<Found<'a, Boxed<Expr>>, AllocError>
    requires first { first.height ≡ capped (nest (tree_of first.tree)) }
    requires more { more.height ≡ capped (nest_all (exprs_of more.trees)) }
    ensures same { (d : _) → IfOk result (λ r. found_of tree_of r ≡ comma_of d span (found_of tree_of first.entry) (map tree_of more.entry.trees, more.entry.rest.now)) }
    ensures height { IfOk result (λ r. r.height ≡ capped (nest (tree_of r.tree))) }
    ensures names { IfOk result (λ r. (before : _) → after before (tree_of r.tree) ≡ after_all (after before (tree_of first.entry.tree)) (exprs_of more.entry.trees)) }
    ensures shorter { length more.entry.rest.now ≤ length first.entry.rest.now → IfOk result (λ r. length r.rest.now ≤ length first.entry.rest.now) }
{
    if more.trees.is_empty() {
        return Ok(first);
    }
    Ok(Found {
        tree: with_commas(alloc, span, first.tree, more.trees)?,
        height: above(deeper(first.height, more.height)),
        rest: more.rest,
    })
}

// An expression with those behind commas, as far as the level and the depth allow them.
fn comma_at<'a, B: Below<'a>>(
    below: &B,
    alloc: Global,
    names: &mut TypeNames,
    least: u32,
    span: Span,
    first: Found<'a, Boxed<Expr>>,
) -> Result<Found<'a, Boxed<Expr>>, AllocError>
    requires works { B.works below.now }
    requires height { first.height ≡ capped (nest (tree_of first.tree)) }
    ensures found { IfOk result (λ r. (before : _) → names.old.names ≡ after before (tree_of first.entry.tree) → IsGrown tree_of tree_of (comma_at (B.depth below.now) least span before (found_of tree_of first.entry)) before names.new.names first.entry r) }
    ensures kept { kept names.new ≡ kept names.old }
{
    if least > 0 {
        return Ok(first);
    }
    if !within(first.height, below.depth()) {
        return Ok(first);
    }
    let more = behind_commas(below, alloc, names, Vec::new(alloc), flat(), first.rest)?;
    comma_of(alloc, span, first, more)
}

#[tactic(auto, unfolding(c_parse_rules::specs::Rules::expr_behind))]
fn expr_behind<'a, B: Below<'a>>(
    below: &B,
    alloc: Global,
    names: &mut TypeNames,
    least: u32,
    first: &Token,
    tokens: &'a [Token],
) -> Result<Option<Found<'a, Boxed<Expr>>>, AllocError>
    requires { B.works below.now }
    ensures found { IfOk result (λ r. IsFound tree_of (expr_behind (B.depth below.now) least names.old.names first.now tokens.now) names.old.names names.new.names (first.now ∷ tokens.now) r) }
    ensures kept { kept names.new ≡ kept names.old }
{
    let Some(found) = unary_at(below, alloc, names, least, first, tokens)? else {
        return Ok(None);
    };
    let assigned = assignment_at(below, alloc, names, least, first.span, found)?;
    let whole = comma_at(below, alloc, names, least, first.span, assigned)?;
    Ok(Some(whole))
}

/// An expression of at least this level; `below` reads its operands.
pub fn expr_rule<'a, B: Below<'a>>(
    below: &B,
    alloc: Global,
    names: &mut TypeNames,
    least: u32,
    tokens: &'a [Token],
) -> Result<Option<Found<'a, Boxed<Expr>>>, AllocError>
    requires { B.works below.now }
    ensures found { IfOk result (λ r. IsFound tree_of (expr_rule (B.depth below.now) least names.old.names tokens.now) names.old.names names.new.names tokens.now r) }
    ensures kept { kept names.new ≡ kept names.old }
{
    match tokens.split_first() {
        None => Ok(None),
        Some((first, rest)) => expr_behind(below, alloc, names, least, first, rest),
    }
}

//! Nodes of statements that have one statement in them.
ghost use Rattle.std.specs.Prelude.{◌≡◌, ◌∷◌, ◌++◌, [], IfOk};
ghost use Rattle.grammar.specs.Forms.{Name as NameTree, Node, Place};
ghost use Rattle.c_grammar.specs.declared.rule.Rule.TheVariants as rule;
ghost use Rattle.c_unit_tree.specs.Views.{branch_of, expr_value, kids, some, statement_tree};
ghost use Rattle.c_parse_heads.specs.Ahead.{ending_trees, steps_trees};
ghost use Rattle.c_parse_nested.specs.Controls.{controlled_trees};

use crate::branches::Controlled;
use c_base::name::Name;
use c_base::number::Span;
use c_parse_heads::heads::{Ending, Steps};
use c_tree::tree::Expr;
use c_unit_tree::statement::Statement;
use c_unit_tree::unit::UnitStatement;
use sqlite_items::Boxed;
use std::alloc::{AllocError, Global};

pub fn switch_of(alloc: Global, span: Span, parts: Controlled) -> Result<UnitStatement, AllocError>
    ensures { IfOk result (λ s. statement_tree s ≡ Node rule.Switch (kids (Place span ∷ some (controlled_trees parts) ∷ []))) }
{
    let body = Boxed::new(alloc, parts.body)?;
    Ok(Statement::Switch {
        span,
        value: parts.control,
        body,
    })
}

pub fn while_of(alloc: Global, span: Span, parts: Controlled) -> Result<UnitStatement, AllocError>
    ensures { IfOk result (λ s. statement_tree s ≡ Node rule.While (kids (Place span ∷ some (controlled_trees parts) ∷ []))) }
{
    let body = Boxed::new(alloc, parts.body)?;
    Ok(Statement::While {
        span,
        condition: parts.control,
        body,
    })
}

pub fn do_of(
    alloc: Global,
    span: Span,
    body: UnitStatement,
    ending: Ending,
) -> Result<UnitStatement, AllocError>
    ensures { IfOk result (λ s. statement_tree s ≡ Node rule.Do (kids (Place span ∷ some (branch_of (statement_tree body) ∷ ending_trees ending) ∷ []))) }
{
    let body = Boxed::new(alloc, body)?;
    Ok(Statement::Do {
        span,
        body,
        place: ending.place,
        condition: ending.condition,
    })
}

pub fn for_of(
    alloc: Global,
    span: Span,
    steps: Boxed<Steps>,
    body: UnitStatement,
) -> Result<UnitStatement, AllocError>
    ensures { IfOk result (λ s. statement_tree s ≡ Node rule.For (kids (Place span ∷ some (steps_trees steps ++ branch_of (statement_tree body) ∷ []) ∷ []))) }
{
    let body = Boxed::new(alloc, body)?;
    let steps = steps.into_inner();
    Ok(Statement::For {
        span,
        first: steps.first,
        second: steps.second,
        third: steps.third,
        body,
    })
}

pub fn label_of(
    alloc: Global,
    span: Span,
    name: &Name,
    labelled: UnitStatement,
) -> Result<UnitStatement, AllocError>
    ensures { IfOk result (λ s. statement_tree s ≡ Node rule.Label (kids (Place span ∷ NameTree name.now ∷ statement_tree labelled ∷ []))) }
{
    let labelled = Boxed::new(alloc, labelled)?;
    Ok(Statement::Label {
        span,
        name: name.duplicate(alloc)?,
        labelled,
    })
}

pub fn case_of(
    alloc: Global,
    span: Span,
    value: Expr,
    labelled: UnitStatement,
) -> Result<UnitStatement, AllocError>
    ensures { IfOk result (λ s. statement_tree s ≡ Node rule.Case (kids (Place span ∷ expr_value value ∷ statement_tree labelled ∷ []))) }
{
    let labelled = Boxed::new(alloc, labelled)?;
    Ok(Statement::Case {
        span,
        value,
        labelled,
    })
}

pub fn default_of(
    alloc: Global,
    span: Span,
    labelled: UnitStatement,
) -> Result<UnitStatement, AllocError>
    ensures { IfOk result (λ s. statement_tree s ≡ Node rule.Default (kids (Place span ∷ statement_tree labelled ∷ []))) }
{
    Ok(Statement::Default {
        span,
        labelled: Boxed::new(alloc, labelled)?,
    })
}

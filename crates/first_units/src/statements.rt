//! Statements of the language. The places of those that are numbered are added to `spans`.
ghost use Rattle.std.specs.Prelude.{◌≡◌, ◌<◌, ◌-◌, ◌^◌, ◌∷◌, ◌++◌, [], map, option_map, IfOk, OnOk};
ghost use Rattle.indexmap.specs.IndexSet.{index_set_len};
ghost use Rattle.c_tree.specs.Views.{tree_of as expr_tree};
ghost use Rattle.grammar.specs.Reading.{groups};
ghost use Rattle.c_grammar.specs.Leaves.{C};
ghost use Rattle.c_unit_tree.specs.Views.{arm_kids, block_item_kids, last_of, statement_tree};
ghost use Rattle.first_program.specs.Source.{While};
ghost use Rattle.first_program.specs.SourceViews.{ladder, otherwise_of, test_tree, tree_of};
ghost use Rattle.first_units.specs.Language.{arm_in, arms_in, assigned_in, assigned_to, item_in, last_in, stmt_in, stmts_in, target_named};
ghost use Rattle.first_units.specs.Sums.{test_of};
ghost use Rattle.first_units.specs.Views.{arm_of, items_kids};

use crate::sums::{sum_of, test_of, variable_named};
use c_base::name::Name;
use c_base::number::{BaseId, Span};
use c_tree::operator::AssignmentOperator;
use c_tree::tree::{Attribute, Expr};
use c_unit_tree::declaration::Declaration;
use c_unit_tree::statement::{Arm as ArmOf, BlockItem, Statement};
use c_unit_tree::unit::{UnitItem, UnitStatement};
use first_program::tree::{Arm, Stmt, Test};
use indexmap::IndexSet;
use sqlite_items::{Boxed, Items};
use std::alloc::{AllocError, Global};

type UnitArm = ArmOf<Expr, Declaration, Attribute>;

fn target_named(target: &Expr, variables: &IndexSet<Name>) -> Option<BaseId>
    requires { index_set_len variables.now < 2 ^ 32 - 1 }
    ensures { result ≡ target_named variables.now.keys (expr_tree target.now) }
{
    match target {
        Expr::Name { span: _, name } => variable_named(name, variables),
        _ => None,
    }
}

fn assigned_to(
    alloc: Global,
    target: &Expr,
    value: &Expr,
    variables: &IndexSet<Name>,
) -> Result<Option<Stmt>, AllocError>
    requires { index_set_len variables.now < 2 ^ 32 - 1 }
    ensures { IfOk result (λ found. option_map tree_of found ≡ assigned_to variables.now.keys (expr_tree target.now) (expr_tree value.now)) }
{
    let Some(target) = target_named(target, variables) else {
        return Ok(None);
    };
    match sum_of(alloc, value, variables)? {
        None => Ok(None),
        Some(value) => Ok(Some(Stmt::Assign { target, value })),
    }
}

// `name = sum`
fn assigned_in(
    alloc: Global,
    expr: &Expr,
    variables: &IndexSet<Name>,
) -> Result<Option<Stmt>, AllocError>
    requires { index_set_len variables.now < 2 ^ 32 - 1 }
    ensures { IfOk result (λ found. option_map tree_of found ≡ assigned_in variables.now.keys (expr_tree expr.now)) }
{
    match expr {
        Expr::Assignment {
            span: _,
            target,
            operator,
            value,
        } => match operator {
            AssignmentOperator::Plain => assigned_to(alloc, target.get(), value.get(), variables),
            _ => Ok(None),
        },
        _ => Ok(None),
    }
}

fn ladder_of(arms: Items<Arm>, otherwise: Option<Boxed<Stmt>>) -> Stmt
    ensures { tree_of result ≡ ladder (map arm_of arms) (otherwise_of (option_map tree_of otherwise)) }
{
    Stmt::If { arms, otherwise }
}

fn while_of(alloc: Global, arm: Arm) -> Result<Stmt, AllocError>
    ensures { IfOk result (λ s. tree_of s ≡ While (arm_of arm).0 (arm_of arm).1) }
{
    Ok(Stmt::While {
        test: arm.test,
        body: Boxed::new(alloc, arm.body)?,
    })
}

// The test of a statement at this place, which is noted.
fn tested(
    alloc: Global,
    span: Span,
    condition: &Expr,
    variables: &IndexSet<Name>,
    spans: &mut Vec<Span>,
) -> Result<Option<Test>, AllocError>
    requires { index_set_len variables.now < 2 ^ 32 - 1 }
    ensures found { IfOk result (λ found. option_map test_tree found ≡ test_of variables.now.keys (expr_tree condition.now)) }
    ensures noted { OnOk result (spans.new.items ≡ spans.old.items ++ span ∷ []) }
{
    spans.push(span)?;
    test_of(alloc, condition, variables)
}

// One `else if`.
#[cycle(statements)]
fn arm_in(
    alloc: Global,
    arm: &UnitArm,
    variables: &IndexSet<Name>,
    spans: &mut Vec<Span>,
) -> Result<Option<Arm>, AllocError>
    requires { index_set_len variables.now < 2 ^ 32 - 1 }
    ensures { IfOk result (λ found. option_map (λ a. (arm_of a, spans.new.items)) found ≡ arm_in variables.now.keys spans.old.items (arm_kids arm.now)) }
{
    let Some(test) = tested(alloc, arm.span, &arm.condition, variables, spans)? else {
        return Ok(None);
    };
    match statement_in(alloc, &arm.branch, variables, spans)? {
        None => Ok(None),
        Some(body) => Ok(Some(Arm { test, body })),
    }
}

// The arms of a ladder, the first of which is read.
#[cycle(statements)]
fn arms_in(
    alloc: Global,
    all: &[UnitArm],
    first: Arm,
    variables: &IndexSet<Name>,
    spans: &mut Vec<Span>,
) -> Result<Option<Items<Arm>>, AllocError>
    requires { index_set_len variables.now < 2 ^ 32 - 1 }
    ensures { IfOk result (λ found. option_map (λ f. (map arm_of f, spans.new.items)) found ≡ arms_in variables.now.keys (arm_of first ∷ []) spans.old.items (groups C (map arm_kids all.now))) }
{
    let mut found = Items::new(alloc);
    found.push(first)?;
    for each in all {
        match arm_in(alloc, each, variables, spans)? {
            None => return Ok(None),
            Some(arm) => found.push(arm)?,
        }
    }
    Ok(Some(found))
}

// A ladder, with what its last `else` has.
#[cycle(statements)]
fn last_in(
    alloc: Global,
    otherwise: &Option<Boxed<UnitStatement>>,
    arms: Items<Arm>,
    variables: &IndexSet<Name>,
    spans: &mut Vec<Span>,
) -> Result<Option<Stmt>, AllocError>
    requires { index_set_len variables.now < 2 ^ 32 - 1 }
    ensures { IfOk result (λ found. option_map (λ s. (tree_of s, spans.new.items)) found ≡ last_in variables.now.keys (map arm_of arms) spans.old.items (last_of (option_map statement_tree otherwise.now))) }
{
    match otherwise {
        None => Ok(Some(ladder_of(arms, None))),
        Some(last) => match statement_in(alloc, last.get(), variables, spans)? {
            None => Ok(None),
            Some(stmt) => {
                let boxed = Boxed::new(alloc, stmt)?;
                Ok(Some(ladder_of(arms, Some(boxed))))
            }
        },
    }
}

// The statement that an item is, if it is no declaration and of the language.
#[cycle(statements)]
fn item_in(
    alloc: Global,
    item: &UnitItem,
    variables: &IndexSet<Name>,
    spans: &mut Vec<Span>,
) -> Result<Option<Stmt>, AllocError>
    requires { index_set_len variables.now < 2 ^ 32 - 1 }
    ensures { IfOk result (λ found. option_map (λ s. (tree_of s, spans.new.items)) found ≡ item_in variables.now.keys spans.old.items (block_item_kids item.now)) }
{
    match item {
        BlockItem::Declaration(_) => Ok(None),
        BlockItem::Statement(statement) => statement_in(alloc, statement, variables, spans),
    }
}

/// The statements that these items are, if they are no declarations and all are of the language.
#[cycle(statements)]
pub fn statements_in(
    alloc: Global,
    all: &[UnitItem],
    variables: &IndexSet<Name>,
    spans: &mut Vec<Span>,
) -> Result<Option<Items<Stmt>>, AllocError>
    requires { index_set_len variables.now < 2 ^ 32 - 1 }
    ensures { IfOk result (λ found. option_map (λ f. (map tree_of f, spans.new.items)) found ≡ stmts_in variables.now.keys [] spans.old.items (items_kids all.now)) }
{
    let mut found = Items::new(alloc);
    for each in all {
        match item_in(alloc, each, variables, spans)? {
            None => return Ok(None),
            Some(stmt) => found.push(stmt)?,
        }
    }
    Ok(Some(found))
}

#[cycle(statements)]
fn statement_in(
    alloc: Global,
    tree: &UnitStatement,
    variables: &IndexSet<Name>,
    spans: &mut Vec<Span>,
) -> Result<Option<Stmt>, AllocError>
    requires { index_set_len variables.now < 2 ^ 32 - 1 }
    ensures { IfOk result (λ found. option_map (λ s. (tree_of s, spans.new.items)) found ≡ stmt_in variables.now.keys spans.old.items (statement_tree tree.now)) }
{
    match tree {
        Statement::Expression { span, value } => match value {
            None => Ok(None),
            Some(expr) => {
                spans.push(*span)?;
                match assigned_in(alloc, expr, variables)? {
                    None => Ok(None),
                    Some(stmt) => Ok(Some(stmt)),
                }
            }
        },
        Statement::Return { span, value } => match value {
            None => Ok(None),
            Some(expr) => {
                spans.push(*span)?;
                match sum_of(alloc, expr, variables)? {
                    None => Ok(None),
                    Some(sum) => Ok(Some(Stmt::Return(sum))),
                }
            }
        },
        Statement::While {
            span,
            condition,
            body,
        } => {
            let Some(test) = tested(alloc, *span, condition, variables, spans)? else {
                return Ok(None);
            };
            match statement_in(alloc, body.get(), variables, spans)? {
                None => Ok(None),
                Some(inner) => Ok(Some(while_of(alloc, Arm { test, body: inner })?)),
            }
        }
        Statement::If {
            span,
            condition,
            branch,
            more,
            otherwise,
        } => {
            let Some(test) = tested(alloc, *span, condition, variables, spans)? else {
                return Ok(None);
            };
            let Some(body) = statement_in(alloc, branch.get(), variables, spans)? else {
                return Ok(None);
            };
            let first = Arm { test, body };
            let Some(arms) = arms_in(alloc, more.as_slice(), first, variables, spans)? else {
                return Ok(None);
            };
            last_in(alloc, otherwise, arms, variables, spans)
        }
        Statement::Block { span: _, items } => {
            match statements_in(alloc, items.as_slice(), variables, spans)? {
                None => Ok(None),
                Some(stmts) => Ok(Some(Stmt::Block(stmts))),
            }
        }
        _ => Ok(None),
    }
}

//! Statements, and the expressions that they begin with.

ghost use Rattle.std.specs.Prelude.{◌≡◌, drop, map, option_copied, option_map, slice_get, unwrap_or};
ghost use Rattle.c_program.specs.Syntax as syntax;
ghost use Rattle.c_program.specs.Syntax.{Nothing};
ghost use Rattle.c_typed_expr.specs.Views.{expr_of};
ghost use Rattle.c_program.specs.Views.{stmt_of, laddered, numbered_of};
ghost use Rattle.stepper_shapes.specs.Views.{arm_of, loop_of, head_of, body_of, part_of, then_in, then_of, begins_with, statement_of, first_of};

use crate::operand::{Arm, Loop, Statement};
use c_program::program::Stmt;
use c_typed_expr::expr::TExpr;
use c_typed_stmt::stmt::Numbered;
use sqlite_items::{Boxed, Items};

/// What a loop's condition is, where it has one.
pub fn condition<'p>(l: &'p Boxed<Loop>) -> Option<&'p TExpr>
    ensures { first_of (option_copied result) ≡ begins_with (loop_of l.now) }
{
    l.get().cond.as_ref()
}

fn part_expression<'p>(part: &'p Option<Numbered<TExpr>>) -> Option<&'p TExpr>
    ensures { first_of (option_copied result) ≡ begins_with (part_of (option_map numbered_of part.now)) }
{
    match part {
        None => None,
        Some(n) => Some(&n.value),
    }
}

/// The condition of an arm.
fn arm_condition<'p>(arm: &'p Arm) -> &'p TExpr
    ensures { (otherwise : syntax.Stmt) → begins_with (arm_of arm.now otherwise) ≡ expr_of result.now }
{
    &arm.cond
}

/// What an arm does.
pub fn arm_body<'p>(arm: &'p Arm) -> &'p Stmt
    ensures { then_of (arm_of arm.now Nothing) ≡ stmt_of result.now }
{
    &arm.body
}

#[tactic(auto, using(crate::proofs::Runs::dropped_more, crate::proofs::Runs::dropped_none))]
fn stmt_expression<'p>(s: &'p Stmt) -> Option<&'p TExpr>
    ensures { first_of (option_copied result) ≡ begins_with (stmt_of s.now) }
{
    match s {
        Stmt::Expr(_, e) => Some(e),
        Stmt::Switch(_, e, _) => Some(e),
        Stmt::Return(_, value) => value.as_ref(),
        Stmt::If(arms, otherwise) => {
            match arms.as_slice().get(0) {
                Some(arm) => Some(arm_condition(arm)),
                None => {
                    match otherwise {
                        None => None,
                        Some(s) => stmt_expression(s.get()),
                    }
                }
            }
        }
        Stmt::Loop(l) => condition(l),
        Stmt::Init(_, _, _) => None,
        Stmt::Block(_) => None,
        Stmt::Case(_, _) => None,
        Stmt::Label(_, _) => None,
        Stmt::Goto(_, _) => None,
        Stmt::Break(_) => None,
        Stmt::Continue(_) => None,
        Stmt::Empty(_) => None,
        Stmt::Assert(_, _) => None,
    }
}

/// The expression that a ladder of `if`s begins with, from one of its arms on.
#[tactic(auto, using(crate::proofs::Runs::dropped_more, crate::proofs::Runs::dropped_none))]
fn ladder_expression<'p>(
    arms: &'p Items<Arm>,
    n: usize,
    otherwise: &'p Option<Boxed<Stmt>>,
) -> Option<&'p TExpr>
    ensures { first_of (option_copied result) ≡ begins_with (laddered (map arm_of (drop n arms.now)) (unwrap_or (option_map stmt_of otherwise.now) Nothing)) }
{
    match arms.as_slice().get(n) {
        Some(arm) => Some(arm_condition(arm)),
        None => {
            match otherwise {
                None => None,
                Some(s) => stmt_expression(s.get()),
            }
        }
    }
}

fn listed_expression<'p>(all: &'p Items<Stmt>, n: usize) -> Option<&'p TExpr>
    ensures { first_of (option_copied result) ≡ begins_with (unwrap_or (option_map stmt_of (slice_get all.now n)) Nothing) }
{
    match all.as_slice().get(n) {
        None => None,
        Some(s) => stmt_expression(s),
    }
}

fn then_expression<'p>(arms: &'p Items<Arm>, n: usize) -> Option<&'p TExpr>
    ensures { first_of (option_copied result) ≡ begins_with (then_in (slice_get arms.now n)) }
{
    match arms.as_slice().get(n) {
        None => None,
        Some(arm) => stmt_expression(arm_body(arm)),
    }
}

fn body_expression<'p>(l: &'p Boxed<Loop>) -> Option<&'p TExpr>
    ensures { first_of (option_copied result) ≡ begins_with (body_of (loop_of l.now)) }
{
    stmt_expression(&l.get().body)
}

/// The expression that a statement begins with; none where it begins with no expression.
pub fn first_expression<'p>(s: Statement<'p>) -> Option<&'p TExpr>
    ensures { first_of (option_copied result) ≡ begins_with (statement_of s.entry) }
{
    match s {
        Statement::Whole(s) => stmt_expression(s.get()),
        Statement::Listed(all, n) => listed_expression(all, n),
        Statement::Ladder(arms, n, otherwise) => ladder_expression(arms, n, otherwise),
        Statement::Then(arms, n) => then_expression(arms, n),
        Statement::Loop(l) => condition(l),
        Statement::Body(l) => body_expression(l),
        Statement::First(l) => part_expression(&l.get().first),
        Statement::Next(l) => part_expression(&l.get().next),
    }
}

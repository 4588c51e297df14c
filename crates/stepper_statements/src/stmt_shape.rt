//! One level of a statement.

ghost use Rattle.std.specs.Prelude.{◌≡◌, ◌<◌, length, drop, map, option_map, slice_get, unwrap_or};
ghost use Rattle.c_program.specs.Syntax as syntax;
ghost use Rattle.c_program.specs.Syntax.{If, Nothing};
ghost use Rattle.c_typed_expr.specs.Views.{expr_of};
ghost use Rattle.c_program.specs.Views.{stmt_of, laddered, numbered_of, returned};
ghost use Rattle.stepper_shapes.specs.Views.{arm_of, loop_of, body_of, part_of, then_in, then_of, begins_with, first_of, statement_of};
ghost use Rattle.stepper_statements.specs.Views.{stmt_shape_of};

use crate::loops::loop_shape;
use c_base::name::Name;
use c_base::number::{BaseId, StmtId};
use c_program::program::Stmt;
use c_typed_expr::expr::TExpr;
use c_typed_stmt::init::{Image, TInitItem};
use c_typed_stmt::stmt::Numbered;
use c_typed_term::predicate::TPred;
use sqlite_items::{Boxed, Items};
use stepper_shapes::operand::{Arm, Loop, Operand, Statement};
use stepper_shapes::statements::arm_body;

/// One level of a statement, with the numbers of statements and bases.
#[derive(Clone, Copy, Drop)]
pub enum StmtShape<'p> {
    Expression(u32, Operand<'p>),
    Return(u32, Operand<'p>),
    ReturnNothing(u32),
    If(u32, Operand<'p>, Statement<'p>, Statement<'p>),
    /// A `while` without invariants.
    While(&'p Boxed<Loop>),
    DoWhile(&'p Boxed<Loop>),
    For(&'p Boxed<Loop>),
    Block(&'p Items<BaseId>, &'p Items<Stmt>),
    Nothing,
    Empty(u32),
    Switch(u32, Operand<'p>, &'p Boxed<Stmt>),
    /// `case` with its value, or `default`.
    Case(Option<i128>, &'p Boxed<Stmt>),
    Label(&'p Name, &'p Boxed<Stmt>),
    Goto(u32, &'p Name),
    Break(u32),
    Continue(u32),
    /// An automatic object is initialised: what is made 0 first, and the items.
    Initialise(u32, u32, &'p Image, &'p Items<TInitItem>),
    Assert(u32, &'p TPred),
}

fn return_shape<'p>(id: StmtId, value: &'p Option<TExpr>, at: Statement<'p>) -> StmtShape<'p>
    requires { begins_with (statement_of at) ≡ first_of value.now }
    ensures { stmt_shape_of result ≡ returned id.0 (option_map expr_of value.now) }
{
    match value {
        None => StmtShape::ReturnNothing(id.0),
        Some(_) => StmtShape::Return(id.0, Operand::Of(at)),
    }
}

/// The number of an arm.
fn arm_number(arm: &Arm) -> u32
    ensures { (otherwise : syntax.Stmt) → arm_of arm.now otherwise ≡ If result (begins_with (arm_of arm.now otherwise)) (then_of (arm_of arm.now Nothing)) otherwise }
{
    arm.id.0
}

/// An arm of a ladder, with what stands behind its `else`.
fn arm_shape<'p>(
    arms: &'p Items<Arm>,
    n: usize,
    otherwise: &'p Option<Boxed<Stmt>>,
) -> StmtShape<'p>
    requires { n < length arms.now }
    ensures { stmt_shape_of result ≡ laddered (map arm_of (drop n arms.now)) (unwrap_or (option_map stmt_of otherwise.now) Nothing) }
{
    StmtShape::If(
        arm_number(&arms.as_slice()[n]),
        Operand::Of(Statement::Ladder(arms, n, otherwise)),
        Statement::Then(arms, n),
        Statement::Ladder(arms, n + 1, otherwise),
    )
}

/// One level of the statement that stands at the reference.
fn shape<'p>(s: &'p Stmt, at: Statement<'p>) -> StmtShape<'p>
    requires { statement_of at ≡ stmt_of s.now }
    ensures { stmt_shape_of result ≡ stmt_of s.now }
{
    match s {
        Stmt::Expr(id, _) => StmtShape::Expression(id.0, Operand::Of(at)),
        Stmt::Init(id, base, init) => StmtShape::Initialise(
            id.0,
            base.0,
            &init.cleared,
            &init.items,
        ),
        Stmt::Block(block) => StmtShape::Block(&block.locals, &block.stmts),
        Stmt::If(arms, otherwise) => {
            if !arms.is_empty() {
                return arm_shape(arms, 0, otherwise);
            }
            match otherwise {
                None => StmtShape::Nothing,
                Some(s) => shape(s.get(), Statement::Whole(s)),
            }
        }
        Stmt::Loop(l) => loop_shape(l),
        Stmt::Switch(id, _, body) => StmtShape::Switch(id.0, Operand::Of(at), body),
        Stmt::Case(value, body) => StmtShape::Case(*value, body),
        Stmt::Label(name, body) => StmtShape::Label(name, body),
        Stmt::Goto(id, name) => StmtShape::Goto(id.0, name),
        Stmt::Break(id) => StmtShape::Break(id.0),
        Stmt::Continue(id) => StmtShape::Continue(id.0),
        Stmt::Return(id, value) => return_shape(*id, value, at),
        Stmt::Empty(id) => StmtShape::Empty(id.0),
        Stmt::Assert(id, predicate) => StmtShape::Assert(id.0, predicate),
    }
}

/// A ladder of `if`s from one of its arms on.
fn ladder_shape<'p>(
    arms: &'p Items<Arm>,
    n: usize,
    otherwise: &'p Option<Boxed<Stmt>>,
) -> StmtShape<'p>
    ensures { stmt_shape_of result ≡ laddered (map arm_of (drop n arms.now)) (unwrap_or (option_map stmt_of otherwise.now) Nothing) }
{
    if n < arms.len() {
        return arm_shape(arms, n, otherwise);
    }
    match otherwise {
        None => StmtShape::Nothing,
        Some(s) => shape(s.get(), Statement::Whole(s)),
    }
}

fn listed_shape<'p>(all: &'p Items<Stmt>, n: usize) -> StmtShape<'p>
    ensures { stmt_shape_of result ≡ unwrap_or (option_map stmt_of (slice_get all.now n)) Nothing }
{
    match all.as_slice().get(n) {
        None => StmtShape::Nothing,
        Some(s) => shape(s, Statement::Listed(all, n)),
    }
}

fn then_shape<'p>(arms: &'p Items<Arm>, n: usize) -> StmtShape<'p>
    ensures { stmt_shape_of result ≡ then_in (slice_get arms.now n) }
{
    match arms.as_slice().get(n) {
        None => StmtShape::Nothing,
        Some(arm) => shape(arm_body(arm), Statement::Then(arms, n)),
    }
}

fn part_shape<'p>(part: &'p Option<Numbered<TExpr>>, at: Statement<'p>) -> StmtShape<'p>
    requires { statement_of at ≡ part_of (option_map numbered_of part.now) }
    ensures { stmt_shape_of result ≡ part_of (option_map numbered_of part.now) }
{
    match part {
        None => StmtShape::Nothing,
        Some(n) => StmtShape::Expression(n.id.0, Operand::Of(at)),
    }
}

/// One level of a statement.
pub fn statement_shape<'p>(s: Statement<'p>) -> StmtShape<'p>
    ensures { stmt_shape_of result ≡ statement_of s.entry }
{
    match s {
        Statement::Whole(whole) => shape(whole.get(), s),
        Statement::Listed(all, n) => listed_shape(all, n),
        Statement::Ladder(arms, n, otherwise) => ladder_shape(arms, n, otherwise),
        Statement::Then(arms, n) => then_shape(arms, n),
        Statement::Loop(l) => loop_shape(l),
        Statement::Body(l) => shape(&l.get().body, s),
        Statement::First(l) => part_shape(&l.get().first, s),
        Statement::Next(l) => part_shape(&l.get().next, s),
    }
}

//! What a `switch` selects (C11 6.8.4.2).

ghost use Rattle.std.specs.Prelude.{◌≡◌, List, ℤ, Some, IfOk};
ghost use Rattle.c_machine.specs.Jumps as jumps;
ghost use Rattle.c_machine.specs.Machine as machine;
ghost use Rattle.c_program.specs.Views.{program_of, stmt_of};
ghost use Rattle.stepper_shapes.specs.Views.{statement_of};
ghost use Rattle.stepper_values.specs.Views.{number_of, layout_of};
ghost use Rattle.stepper_work.specs.Effects.{HasEffect, Leads};
ghost use Rattle.stepper_flow.specs.Blocks.{selected_by};

use crate::blocks::numbers;
use c_base::number::BaseId;
use c_program::program::Stmt;
use sqlite_items::{Boxed, Items};
use std::alloc::AllocError;
use stepper_accesses::scopes::bear;
use stepper_expressions::pushes::push_two;
use stepper_expressions::stepper::Stepper;
use stepper_jumps::cases::find_selected;
use stepper_jumps::queues::queue_behind;
use stepper_shapes::operand::Statement;
use stepper_statements::stmt_shape::{StmtShape, statement_shape};
use stepper_values::number::{Number, wide};
use stepper_values::value::used;
use stepper_work::work::{Effect, State, Work};

/// The objects and the statements of a block.
#[derive(Clone, Copy, Drop)]
pub struct Opened<'p> {
    pub locals: &'p Items<BaseId>,
    pub stmts: &'p Items<Stmt>,
}

/// The block of a `switch`, behind labels.
fn block_in<'p>(s: Statement<'p>) -> Option<Opened<'p>>
    ensures { (n : ℤ) (rest : List machine.Work) → jumps.selected n (statement_of s.entry) rest ≡ selected_by n result rest }
{
    let mut here = s;
    'search: loop {
        match statement_shape(here) {
            StmtShape::Block(locals, stmts) => return Some(Opened { locals, stmts }),
            StmtShape::Label(_, body) => here = Statement::Whole(body),
            StmtShape::Expression(_, _) | StmtShape::Return(_, _) => return None,
            StmtShape::ReturnNothing(_) | StmtShape::If(_, _, _, _) => return None,
            StmtShape::While(_) | StmtShape::DoWhile(_) | StmtShape::For(_) => return None,
            StmtShape::Nothing | StmtShape::Empty(_) | StmtShape::Switch(_, _, _) => return None,
            StmtShape::Case(_, _) | StmtShape::Goto(_, _) | StmtShape::Break(_) => return None,
            StmtShape::Continue(_) | StmtShape::Assert(_, _) => return None,
            StmtShape::Initialise(_, _, _, _) => return None,
        }
    }
}

/// Enters the block at the statement that the number selects, where there is one.
fn enter_selected<'p>(
    stepper: &Stepper<'p>,
    n: Number,
    block: Opened<'p>,
    state: &mut State<'p>,
) -> Result<Effect, AllocError>
    ensures { IfOk result (Leads (λ s. machine.Goes (machine.enters (layout_of stepper.now.layout) s (selected_by (number_of n) (Some block.entry) s.control))) state.old state.new) }
{
    let Some(found) = find_selected(wide(n), block.stmts) else {
        return Ok(Effect::GoesOn);
    };
    let control = &mut state.control;
    push_two(
        control,
        Work::Close(block.locals, block.stmts),
        Work::Switched,
    )?;
    queue_behind(control, block.stmts, found.n)?;
    control.push(Work::Do(Statement::Whole(found.body)))?;
    let born = numbers(stepper.alloc, block.locals.as_slice())?;
    bear(
        stepper.alloc,
        &stepper.layout,
        &mut state.memory,
        born.as_slice(),
    )?;
    Ok(Effect::GoesOn)
}

/// Enters the block of a `switch`, where it has one and a label that the number selects.
fn enter_body<'p>(
    stepper: &Stepper<'p>,
    n: Number,
    body: &'p Boxed<Stmt>,
    state: &mut State<'p>,
) -> Result<Effect, AllocError>
    ensures { IfOk result (Leads (λ s. machine.Goes (machine.enters (layout_of stepper.now.layout) s (jumps.selected (number_of n) (stmt_of body.now) s.control))) state.old state.new) }
{
    match block_in(Statement::Whole(body)) {
        None => Ok(Effect::GoesOn),
        Some(block) => enter_selected(stepper, n, block, state),
    }
}

/// The held value selects a label in the block of a `switch`.
pub fn select<'p>(
    stepper: &Stepper<'p>,
    id: u32,
    body: &'p Boxed<Stmt>,
    state: &mut State<'p>,
) -> Result<Effect, AllocError>
    ensures { IfOk result (HasEffect (program_of stepper.now.program.now) (layout_of stepper.now.layout) (machine.Select id (stmt_of body.now)) state.old state.new) }
{
    let Some(held) = state.held.pop() else {
        return Ok(Effect::Stuck);
    };
    match used(held) {
        Err(kind) => Ok(Effect::StopsIn(kind, id)),
        Ok(value) => enter_body(stepper, value.number, body, state),
    }
}

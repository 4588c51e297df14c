//! Held truths that choose between statements (C11 6.8.4.1, 6.8.5).

ghost use Rattle.std.specs.Prelude.{◌≡◌, ◌∷◌, IfOk};
ghost use Rattle.c_machine.specs.Machine as machine;
ghost use Rattle.c_program.specs.Views.{program_of};
ghost use Rattle.stepper_shapes.specs.Views.{loop_of, head_of, body_of, begins_with, statement_of};
ghost use Rattle.stepper_values.specs.Views.{layout_of};
ghost use Rattle.stepper_work.specs.Effects.{HasEffect};

use sqlite_items::Boxed;
use std::alloc::AllocError;
use stepper_expressions::pushes::push_two;
use stepper_expressions::stepper::Stepper;
use stepper_shapes::operand::{Loop, Statement};
use stepper_statements::loops::loop_number;
use stepper_uses::choices::truth;
use stepper_work::work::{Effect, State, Work};

/// The held truth chooses a statement.
pub fn choose<'p>(
    stepper: &Stepper<'p>,
    id: u32,
    then: Statement<'p>,
    otherwise: Statement<'p>,
    state: &mut State<'p>,
) -> Result<Effect, AllocError>
    ensures { IfOk result (HasEffect (program_of stepper.now.program.now) (layout_of stepper.now.layout) (machine.Choose id (statement_of then.entry) (statement_of otherwise.entry)) state.old state.new) }
{
    let Some(held) = state.held.pop() else {
        return Ok(Effect::Stuck);
    };
    match truth(held) {
        Err(kind) => Ok(Effect::StopsIn(kind, id)),
        Ok(truth) => {
            let next = if truth { then } else { otherwise };
            state.control.push(Work::Do(next))?;
            Ok(Effect::GoesOn)
        }
    }
}

/// The held truth begins another turn of a `while`, or ends it.
pub fn turn<'p>(
    stepper: &Stepper<'p>,
    l: &'p Boxed<Loop>,
    state: &mut State<'p>,
) -> Result<Effect, AllocError>
    ensures { IfOk result (HasEffect (program_of stepper.now.program.now) (layout_of stepper.now.layout) (machine.Turn (head_of (loop_of l.now)).id (begins_with (loop_of l.now)) (body_of (loop_of l.now))) state.old state.new) }
{
    let Some(held) = state.held.pop() else {
        return Ok(Effect::Stuck);
    };
    match truth(held) {
        Err(kind) => Ok(Effect::StopsIn(kind, loop_number(l))),
        Ok(truth) => {
            if truth {
                push_two(
                    &mut state.control,
                    Work::Do(Statement::Body(l)),
                    Work::Loop(l),
                )?;
            }
            Ok(Effect::GoesOn)
        }
    }
}

/// The held truth begins another turn of a `for`, or ends it.
pub fn turn_for<'p>(
    stepper: &Stepper<'p>,
    l: &'p Boxed<Loop>,
    state: &mut State<'p>,
) -> Result<Effect, AllocError>
    ensures { IfOk result (HasEffect (program_of stepper.now.program.now) (layout_of stepper.now.layout) (machine.ForTurn (head_of (loop_of l.now)) (body_of (loop_of l.now))) state.old state.new) }
{
    let Some(held) = state.held.pop() else {
        return Ok(Effect::Stuck);
    };
    match truth(held) {
        Err(kind) => Ok(Effect::StopsIn(kind, loop_number(l))),
        Ok(truth) => {
            if truth {
                push_two(
                    &mut state.control,
                    Work::Do(Statement::Body(l)),
                    Work::ForNext(l),
                )?;
            }
            Ok(Effect::GoesOn)
        }
    }
}

/// The held truth begins another turn of a `do`, or ends it.
pub fn turn_do<'p>(
    stepper: &Stepper<'p>,
    l: &'p Boxed<Loop>,
    state: &mut State<'p>,
) -> Result<Effect, AllocError>
    ensures { IfOk result (HasEffect (program_of stepper.now.program.now) (layout_of stepper.now.layout) (machine.DoTurn (head_of (loop_of l.now)) (body_of (loop_of l.now))) state.old state.new) }
{
    let Some(held) = state.held.pop() else {
        return Ok(Effect::Stuck);
    };
    match truth(held) {
        Err(kind) => Ok(Effect::StopsIn(kind, loop_number(l))),
        Ok(truth) => {
            if truth {
                push_two(
                    &mut state.control,
                    Work::Do(Statement::Body(l)),
                    Work::DoTest(l),
                )?;
            }
            Ok(Effect::GoesOn)
        }
    }
}

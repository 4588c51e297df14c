//! Heads of loops (C11 6.8.5).

ghost use Rattle.std.specs.Prelude.{◌≡◌, ◌∷◌, IfOk, OnOk};
ghost use Rattle.c_machine.specs.Machine as machine;
ghost use Rattle.c_program.specs.Views.{program_of};
ghost use Rattle.stepper_shapes.specs.Views.{loop_of, head_of, body_of, begins_with};
ghost use Rattle.stepper_values.specs.Views.{layout_of};
ghost use Rattle.stepper_work.specs.Effects.{HasEffect};
ghost use Rattle.stepper_work.specs.Views.{control_of};

use sqlite_items::Boxed;
use std::alloc::AllocError;
use stepper_expressions::pushes::push_two;
use stepper_expressions::stepper::Stepper;
use stepper_held::stack::Stack;
use stepper_shapes::operand::{Loop, Operand, Statement};
use stepper_statements::loops::{condition_of, has_condition, has_first, has_next};
use stepper_work::work::{Effect, State, Work};

/// The head of a `while`.
pub fn begin_turn<'p>(
    stepper: &Stepper<'p>,
    l: &'p Boxed<Loop>,
    state: &mut State<'p>,
) -> Result<Effect, AllocError>
    ensures { IfOk result (HasEffect (program_of stepper.now.program.now) (layout_of stepper.now.layout) (machine.Loop (head_of (loop_of l.now)).id (begins_with (loop_of l.now)) (body_of (loop_of l.now))) state.old state.new) }
{
    let condition = Operand::Of(Statement::Loop(l));
    push_two(&mut state.control, Work::Evaluate(condition), Work::Turn(l))?;
    Ok(Effect::GoesOn)
}

/// A `for` begins with its first part.
#[tactic(auto, using(crate::proofs::Heads::begun_by))]
pub fn push_for<'p>(control: &mut Stack<Work<'p>>, l: &'p Boxed<Loop>) -> Result<(), AllocError>
    ensures { OnOk result (control_of control.new ≡ machine.begun (head_of (loop_of l.now)).first (machine.ForHead (head_of (loop_of l.now)) (body_of (loop_of l.now)) ∷ control_of control.old)) }
{
    control.push(Work::ForHead(l))?;
    if has_first(l) {
        control.push(Work::Do(Statement::First(l)))?;
    }
    Ok(())
}

/// The head of a `for`: its condition, or without one its body.
#[tactic(auto, using(crate::proofs::Heads::tested_by))]
pub fn begin_for<'p>(
    stepper: &Stepper<'p>,
    l: &'p Boxed<Loop>,
    state: &mut State<'p>,
) -> Result<Effect, AllocError>
    ensures { IfOk result (HasEffect (program_of stepper.now.program.now) (layout_of stepper.now.layout) (machine.ForHead (head_of (loop_of l.now)) (body_of (loop_of l.now))) state.old state.new) }
{
    let control = &mut state.control;
    if has_condition(l) {
        push_two(control, Work::Evaluate(condition_of(l)), Work::ForTurn(l))?;
    } else {
        push_two(control, Work::Do(Statement::Body(l)), Work::ForNext(l))?;
    }
    Ok(Effect::GoesOn)
}

/// What follows the body of a `for`: its third part.
#[tactic(auto, using(crate::proofs::Heads::begun_by))]
pub fn end_for<'p>(
    stepper: &Stepper<'p>,
    l: &'p Boxed<Loop>,
    state: &mut State<'p>,
) -> Result<Effect, AllocError>
    ensures { IfOk result (HasEffect (program_of stepper.now.program.now) (layout_of stepper.now.layout) (machine.ForNext (head_of (loop_of l.now)) (body_of (loop_of l.now))) state.old state.new) }
{
    state.control.push(Work::ForHead(l))?;
    if has_next(l) {
        state.control.push(Work::Do(Statement::Next(l)))?;
    }
    Ok(Effect::GoesOn)
}

/// What follows the body of a `do`: its condition.
#[tactic(auto, using(crate::proofs::Heads::tested_by))]
pub fn end_do<'p>(
    stepper: &Stepper<'p>,
    l: &'p Boxed<Loop>,
    state: &mut State<'p>,
) -> Result<Effect, AllocError>
    ensures { IfOk result (HasEffect (program_of stepper.now.program.now) (layout_of stepper.now.layout) (machine.DoTest (head_of (loop_of l.now)) (body_of (loop_of l.now))) state.old state.new) }
{
    let control = &mut state.control;
    if has_condition(l) {
        push_two(control, Work::Evaluate(condition_of(l)), Work::DoTurn(l))?;
    } else {
        push_two(control, Work::Do(Statement::Body(l)), Work::DoTest(l))?;
    }
    Ok(Effect::GoesOn)
}

//! Statements begin (C11 6.8).

ghost use Rattle.std.specs.Prelude.{◌≡◌, IfOk};
ghost use Rattle.c_machine.specs.Machine as machine;
ghost use Rattle.c_program.specs.Views.{program_of};
ghost use Rattle.stepper_shapes.specs.Views.{statement_of};
ghost use Rattle.stepper_statements.specs.Views.{stmt_shape_of};
ghost use Rattle.stepper_values.specs.Views.{layout_of};
ghost use Rattle.stepper_work.specs.Effects.{HasEffect};

use crate::blocks::enter_block;
use crate::initialisers::initialise;
use crate::jumps::{break_off, continue_on, go_to};
use crate::loops::push_for;
use std::alloc::AllocError;
use stepper_expressions::pushes::push_two;
use stepper_expressions::stepper::Stepper;
use stepper_shapes::operand::Statement;
use stepper_statements::stmt_shape::{StmtShape, statement_shape};
use stepper_values::value::Held;
use stepper_work::work::{Effect, State, Work};

/// Begins a statement of this form.
fn begin<'p>(
    stepper: &Stepper<'p>,
    shape: StmtShape<'p>,
    state: &mut State<'p>,
) -> Result<Effect, AllocError>
    ensures { IfOk result (HasEffect (program_of stepper.now.program.now) (layout_of stepper.now.layout) (machine.Do (stmt_shape_of shape.entry)) state.old state.new) }
{
    let control = &mut state.control;
    match shape {
        StmtShape::Expression(id, e) => push_two(control, Work::Evaluate(e), Work::Discard(id))?,
        StmtShape::Return(id, e) => push_two(control, Work::Evaluate(e), Work::Deliver(id))?,
        StmtShape::ReturnNothing(id) => {
            control.push(Work::Deliver(id))?;
            state.held.push(Held::Absent)?;
        }
        StmtShape::If(id, e, then, otherwise) => {
            push_two(
                control,
                Work::Evaluate(e),
                Work::Choose(id, then, otherwise),
            )?;
        }
        StmtShape::While(l) => control.push(Work::Loop(l))?,
        StmtShape::DoWhile(l) => {
            push_two(control, Work::Do(Statement::Body(l)), Work::DoTest(l))?;
        }
        StmtShape::For(l) => push_for(control, l)?,
        StmtShape::Switch(id, e, body) => {
            push_two(control, Work::Evaluate(e), Work::Select(id, body))?;
        }
        StmtShape::Case(_, body) => control.push(Work::Do(Statement::Whole(body)))?,
        StmtShape::Label(_, body) => control.push(Work::Do(Statement::Whole(body)))?,
        StmtShape::Nothing => {}
        StmtShape::Empty(_) => {}
        StmtShape::Block(locals, stmts) => return enter_block(stepper, locals, stmts, state),
        StmtShape::Goto(id, name) => return go_to(stepper, id, name, state),
        StmtShape::Break(id) => return break_off(stepper, id, state),
        StmtShape::Continue(id) => return continue_on(stepper, id, state),
        StmtShape::Initialise(id, base, cleared, items) => {
            return initialise(stepper, id, base, cleared, items, state);
        }
        StmtShape::Assert(_, _) => return Ok(Effect::Stuck),
    }
    Ok(Effect::GoesOn)
}

/// Carries out a statement, or begins to.
pub fn carry_out<'p>(
    stepper: &Stepper<'p>,
    s: Statement<'p>,
    state: &mut State<'p>,
) -> Result<Effect, AllocError>
    ensures { IfOk result (HasEffect (program_of stepper.now.program.now) (layout_of stepper.now.layout) (machine.Do (statement_of s.entry)) state.old state.new) }
{
    begin(stepper, statement_shape(s), state)
}

//! Returns, and the closing braces of functions (C11 6.8.6.4, 6.9.1p12, 5.1.2.2.3p1).

ghost use Rattle.std.specs.Prelude.{◌≡◌, ◌∷◌, ◌*◌, [], map, replicate, IfOk, OnOk};
ghost use Rattle.c_machine.specs.Machine as machine;
ghost use Rattle.c_memory.specs.Memories as memories;
ghost use Rattle.c_memory.specs.Values as values;
ghost use Rattle.c_program.specs.Views.{program_of};
ghost use Rattle.stepper_memory.specs.Views.{plain};
ghost use Rattle.stepper_values.specs.Views.{cell_of, held_of, layout_of};
ghost use Rattle.stepper_work.specs.Effects.{HasEffect, Answers};
ghost use Rattle.stepper_work.specs.Views.{result_of, control_of, state_of};

use c_base::kind::Kind;
use c_memory::scalar::Scalar;
use sqlite_items::Items;
use std::alloc::{AllocError, Global};
use stepper_exits::exits::leave_function;
use stepper_expressions::stepper::Stepper;
use stepper_held::returns::{delivered, handed};
use stepper_values::number::Number;
use stepper_values::value::{Cell, Held, plain as plain_value};
use stepper_work::work::{Effect, ResultType, State};

/// The dying objects die, and the caller goes on with the result.
fn hand_over<'p>(
    stepper: &Stepper<'p>,
    held: Held,
    dying: &[u32],
    state: &mut State<'p>,
) -> Result<(), AllocError>
    ensures control { OnOk result (state.new.control ≡ state.old.control) }
    ensures held { OnOk result (map held_of state.new.held ≡ machine.handed dying.now (held_of held) ∷ map held_of state.old.held) }
    ensures memory { OnOk result (plain state.new.memory ≡ memories.died dying.now (plain state.old.memory)) }
{
    state.held.push(handed(stepper.alloc, held, dying)?)?;
    state.memory.kill(dying)
}

/// A `return` hands a value to the caller.
fn leave<'p>(stepper: &Stepper<'p>, held: Held, state: &mut State<'p>) -> Result<Effect, AllocError>
    ensures { IfOk result (Answers (machine.Leaves (held_of held) (state_of state.old) (machine.exit_of [] (control_of state.old.control))) (state_of state.new)) }
{
    let mut dying = Items::new(stepper.alloc);
    match leave_function(&mut dying, &mut state.control)? {
        None => Ok(Effect::Stuck),
        Some(_) => {
            hand_over(stepper, held, dying.as_slice(), state)?;
            Ok(Effect::GoesOn)
        }
    }
}

/// A `return` hands the held value to the caller, if it may be used.
pub fn deliver<'p>(
    stepper: &Stepper<'p>,
    id: u32,
    state: &mut State<'p>,
) -> Result<Effect, AllocError>
    ensures { IfOk result (HasEffect (program_of stepper.now.program.now) (layout_of stepper.now.layout) (machine.Deliver id) state.old state.new) }
{
    let Some(held) = state.held.pop() else {
        return Ok(Effect::Stuck);
    };
    match delivered(held) {
        Err(kind) => Ok(Effect::StopsIn(kind, id)),
        Ok(held) => leave(stepper, held, state),
    }
}

fn unwritten(alloc: Global, bytes: u64) -> Result<Items<Cell>, AllocError>
    ensures { IfOk result (λ cells. map cell_of cells ≡ replicate (8 * bytes) values.Uninit) }
{
    let mut cells = Items::new(alloc);
    for _ in 0..8 * bytes as u128 {
        cells.push(Cell::Uninit)?;
    }
    Ok(cells)
}

/// What a function has that falls off its end.
fn fallen_at(alloc: Global, site: Option<u32>, returned: ResultType) -> Result<Held, AllocError>
    ensures { IfOk result (λ held. held_of held ≡ machine.fallen_at site (result_of returned)) }
{
    match returned {
        ResultType::Void => Ok(Held::Absent),
        ResultType::Returns(Scalar::Pointer) => Ok(Held::Unusable(Kind::Initialization)),
        ResultType::Returns(Scalar::Integer(_)) => {
            match site {
                None => Ok(Held::Usable(plain_value(alloc, Number::Natural(0)))),
                Some(_) => Ok(Held::Unusable(Kind::Initialization)),
            }
        }
        ResultType::ReturnsCells(bytes) => Ok(Held::Cells(unwritten(alloc, bytes)?)),
    }
}

/// A function falls off its end.
pub fn fall<'p>(
    stepper: &Stepper<'p>,
    id: u32,
    returned: ResultType,
    state: &mut State<'p>,
) -> Result<Effect, AllocError>
    ensures { IfOk result (HasEffect (program_of stepper.now.program.now) (layout_of stepper.now.layout) (machine.Brace id (result_of returned)) state.old state.new) }
{
    let mut dying = Items::new(stepper.alloc);
    match leave_function(&mut dying, &mut state.control)? {
        None => Ok(Effect::Stuck),
        Some(left) => {
            let held = fallen_at(stepper.alloc, left.site, returned)?;
            hand_over(stepper, held, dying.as_slice(), state)?;
            Ok(Effect::GoesOn)
        }
    }
}

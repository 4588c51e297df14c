//! Truths that decide, and what is held once more or no more (C11 6.5.13 to 6.5.17).

ghost use Rattle.std.specs.Prelude.{◌≡◌, IfOk};
ghost use Rattle.c_machine.specs.Machine as machine;
ghost use Rattle.c_base.specs.Operators.{truth_number};
ghost use Rattle.c_memory.specs.Values as values;
ghost use Rattle.c_program.specs.Views.{program_of};
ghost use Rattle.stepper_shapes.specs.Views.{operand_of};
ghost use Rattle.stepper_values.specs.Views.{value_of, held_of, layout_of, truth_result_of};
ghost use Rattle.stepper_work.specs.Effects.{HasEffect};

use c_base::kind::Kind;
use sqlite_items::Items;
use std::alloc::{AllocError, Global};
use stepper_expressions::pushes::push_two;
use stepper_expressions::stepper::Stepper;
use stepper_shapes::operand::Operand;
use stepper_values::number::{Number, is_zero};
use stepper_values::value::{Cell, Held, Value, add_cells, plain, used};
use stepper_work::work::{Effect, State, Work};

/// The truth of what is held, or the kind with which its use stops.
pub fn truth(held: Held) -> Result<bool, Kind>
    ensures { result ≡ truth_result_of (machine.used (held_of held)) }
{
    match used(held) {
        Ok(value) => Ok(!is_zero(value.number)),
        Err(kind) => Err(kind),
    }
}

fn truth_value(alloc: Global, truth: bool) -> Value
    ensures { value_of result ≡ values.plain (truth_number truth) }
{
    plain(alloc, Number::Natural(if truth { 1 } else { 0 }))
}

/// The held truth decides `&&`, `is_and`, or `||`, or the other operand does.
pub fn decide<'p>(
    stepper: &Stepper<'p>,
    is_and: bool,
    e: Operand<'p>,
    state: &mut State<'p>,
) -> Result<Effect, AllocError>
    ensures { IfOk result (HasEffect (program_of stepper.now.program.now) (layout_of stepper.now.layout) (machine.Decide is_and (operand_of e.entry)) state.old state.new) }
{
    let Some(held) = state.held.pop() else {
        return Ok(Effect::Stuck);
    };
    match truth(held) {
        Err(kind) => Ok(Effect::StopsHere(kind)),
        Ok(truth) => {
            if truth == is_and {
                push_two(&mut state.control, Work::Evaluate(e), Work::Settle)?;
            } else {
                let value = truth_value(stepper.alloc, truth);
                state.held.push(Held::Usable(value))?;
            }
            Ok(Effect::GoesOn)
        }
    }
}

/// The truth of the held value as a number.
pub fn settle<'p>(stepper: &Stepper<'p>, state: &mut State<'p>) -> Result<Effect, AllocError>
    ensures { IfOk result (HasEffect (program_of stepper.now.program.now) (layout_of stepper.now.layout) machine.Settle state.old state.new) }
{
    let Some(held) = state.held.pop() else {
        return Ok(Effect::Stuck);
    };
    match truth(held) {
        Err(kind) => Ok(Effect::StopsHere(kind)),
        Ok(truth) => {
            let value = truth_value(stepper.alloc, truth);
            state.held.push(Held::Usable(value))?;
            Ok(Effect::GoesOn)
        }
    }
}

/// The held truth picks one of two expressions.
pub fn pick<'p>(
    stepper: &Stepper<'p>,
    b: Operand<'p>,
    c: Operand<'p>,
    state: &mut State<'p>,
) -> Result<Effect, AllocError>
    ensures { IfOk result (HasEffect (program_of stepper.now.program.now) (layout_of stepper.now.layout) (machine.Pick (operand_of b.entry) (operand_of c.entry)) state.old state.new) }
{
    let Some(held) = state.held.pop() else {
        return Ok(Effect::Stuck);
    };
    match truth(held) {
        Err(kind) => Ok(Effect::StopsHere(kind)),
        Ok(truth) => {
            let next = if truth { b } else { c };
            state.control.push(Work::Evaluate(next))?;
            Ok(Effect::GoesOn)
        }
    }
}

fn copied_cells(alloc: Global, cells: &[Cell]) -> Result<Items<Cell>, AllocError>
    ensures { IfOk result (λ copy. copy ≡ cells.now) }
{
    let mut copy = Items::new(alloc);
    add_cells(alloc, &mut copy, cells)?;
    Ok(copy)
}

fn copied(alloc: Global, held: &Held) -> Result<Held, AllocError>
    ensures { IfOk result (λ copy. copy ≡ held.now) }
{
    match held {
        Held::Usable(value) => {
            let bases = Items::from_slice(alloc, value.bases.as_slice())?;
            Ok(Held::Usable(Value {
                number: value.number,
                bases,
            }))
        }
        Held::Unusable(kind) => Ok(Held::Unusable(*kind)),
        Held::Cells(cells) => Ok(Held::Cells(copied_cells(alloc, cells.as_slice())?)),
        Held::Absent => Ok(Held::Absent),
        Held::Part(cells) => Ok(Held::Part(copied_cells(alloc, cells.as_slice())?)),
    }
}

/// Holds once more what is held last.
pub fn hold_again<'p>(stepper: &Stepper<'p>, state: &mut State<'p>) -> Result<Effect, AllocError>
    ensures { IfOk result (HasEffect (program_of stepper.now.program.now) (layout_of stepper.now.layout) machine.Again state.old state.new) }
{
    let Some(held) = state.held.pop() else {
        return Ok(Effect::Stuck);
    };
    let copy = copied(stepper.alloc, &held)?;
    state.held.push(held)?;
    state.held.push(copy)?;
    Ok(Effect::GoesOn)
}

/// Holds once more what is held last, below the place that is held below it.
pub fn tuck<'p>(stepper: &Stepper<'p>, state: &mut State<'p>) -> Result<Effect, AllocError>
    ensures { IfOk result (HasEffect (program_of stepper.now.program.now) (layout_of stepper.now.layout) machine.Tuck state.old state.new) }
{
    let Some(held) = state.held.pop() else {
        return Ok(Effect::Stuck);
    };
    let Some(at) = state.held.pop() else {
        return Ok(Effect::Stuck);
    };
    let copy = copied(stepper.alloc, &held)?;
    state.held.push(copy)?;
    state.held.push(at)?;
    state.held.push(held)?;
    Ok(Effect::GoesOn)
}

/// Discards what is held last.
pub fn discard<'p>(stepper: &Stepper<'p>, state: &mut State<'p>) -> Result<Effect, AllocError>
    ensures { IfOk result (HasEffect (program_of stepper.now.program.now) (layout_of stepper.now.layout) machine.Drop state.old state.new) }
{
    match state.held.pop() {
        None => Ok(Effect::Stuck),
        Some(_) => Ok(Effect::GoesOn),
    }
}

/// The end of an expression statement: its value is discarded.
pub fn end_expression<'p>(
    stepper: &Stepper<'p>,
    id: u32,
    state: &mut State<'p>,
) -> Result<Effect, AllocError>
    ensures { IfOk result (HasEffect (program_of stepper.now.program.now) (layout_of stepper.now.layout) (machine.Discard id) state.old state.new) }
{
    match state.held.pop() {
        None => Ok(Effect::Stuck),
        Some(_) => Ok(Effect::GoesOn),
    }
}

//! Loads and stores of scalars (C11 6.3.2.1p2, 6.5.16.1, 6.7.3p7).

ghost use Rattle.std.specs.Prelude.{◌≡◌, IfOk};
ghost use Rattle.c_machine.specs.Machine as machine;
ghost use Rattle.c_memory.specs.Memories as memories;
ghost use Rattle.c_effects.specs.Ranges as ranges;
ghost use Rattle.c_program.specs.Views.{program_of};
ghost use Rattle.stepper_values.specs.Views.{value_of, layout_of};
ghost use Rattle.stepper_work.specs.Effects.{HasEffect, Leads};

use crate::hold::hold;
use c_base::kind::Kind;
use c_memory::scalar::Scalar;
use std::alloc::AllocError;
use stepper_accesses::reached::reached;
use stepper_accesses::stores;
use stepper_expressions::stepper::Stepper;
use stepper_held::places::loaded_from;
use stepper_values::number::{Number, size_of_scalar};
use stepper_values::value::{Held, Value, plain as plain_value, used};
use stepper_work::work::{Effect, State};

/// Loads from the held place.
#[tactic(auto, using(crate::proofs::Places::placed))]
pub fn fetch<'p>(
    stepper: &Stepper<'p>,
    scalar: Scalar,
    state: &mut State<'p>,
) -> Result<Effect, AllocError>
    ensures { IfOk result (HasEffect (program_of stepper.now.program.now) (layout_of stepper.now.layout) (machine.Fetch scalar) state.old state.new) }
{
    let Some(at) = state.held.pop() else {
        return Ok(Effect::Stuck);
    };
    let value = loaded_from(stepper.alloc, &stepper.layout, &state.memory, scalar, &at)?;
    hold(state, value)
}

/// Loads from the held address, which is volatile: 0 is one of the values that it may give.
#[tactic(auto, using(crate::proofs::Zeros::zero_fits))]
pub fn sample<'p>(
    stepper: &Stepper<'p>,
    scalar: Scalar,
    state: &mut State<'p>,
) -> Result<Effect, AllocError>
    ensures { IfOk result (HasEffect (program_of stepper.now.program.now) (layout_of stepper.now.layout) (machine.Sample scalar) state.old state.new) }
{
    let Some(at) = state.held.pop() else {
        return Ok(Effect::Stuck);
    };
    match used(at) {
        Err(kind) => Ok(Effect::StopsHere(kind)),
        Ok(at) => {
            let layout = &stepper.layout;
            let bytes = size_of_scalar(scalar, layout.machine) as u64;
            match reached(layout, &state.memory, bytes, &at) {
                None => Ok(Effect::StopsHere(Kind::MemAccess)),
                Some(_) => {
                    let zero = plain_value(stepper.alloc, Number::Natural(0));
                    state.held.push(Held::Usable(zero))?;
                    Ok(Effect::GoesOn)
                }
            }
        }
    }
}

/// Stores a value at the address; an initialiser, `named`, stores in the object that it names.
fn write<'p>(
    stepper: &Stepper<'p>,
    scalar: Scalar,
    at: &Value,
    value: Value,
    state: &mut State<'p>,
) -> Result<Effect, AllocError>
    ensures { IfOk result (Leads (λ s. machine.with_memory (value_of value) s (memories.stored (layout_of stepper.now.layout) s.memory scalar (value_of at.now) (value_of value))) state.old state.new) }
{
    match stores::store(
        stepper.alloc,
        &stepper.layout,
        &mut state.memory,
        scalar,
        at,
        &value,
    )? {
        None => {
            state.held.push(Held::Usable(value))?;
            Ok(Effect::GoesOn)
        }
        Some(kind) => Ok(Effect::StopsHere(kind)),
    }
}

/// Stores the held value at the address held below it, and holds the value.
pub fn store<'p>(
    stepper: &Stepper<'p>,
    scalar: Scalar,
    state: &mut State<'p>,
) -> Result<Effect, AllocError>
    ensures { IfOk result (HasEffect (program_of stepper.now.program.now) (layout_of stepper.now.layout) (machine.Store scalar) state.old state.new) }
{
    let Some(value) = state.held.pop() else {
        return Ok(Effect::Stuck);
    };
    let Some(at) = state.held.pop() else {
        return Ok(Effect::Stuck);
    };
    match used(at) {
        Err(kind) => Ok(Effect::StopsHere(kind)),
        Ok(at) => {
            match used(value) {
                Err(kind) => Ok(Effect::StopsHere(kind)),
                Ok(value) => write(stepper, scalar, &at, value, state),
            }
        }
    }
}

/// Stores a value in the object that an initialiser names.
fn write_named<'p>(
    stepper: &Stepper<'p>,
    scalar: Scalar,
    at: &Value,
    value: Value,
    state: &mut State<'p>,
) -> Result<Effect, AllocError>
    ensures { IfOk result (Leads (λ s. machine.with_memory (value_of value) s (ranges.put (layout_of stepper.now.layout) s.memory scalar (value_of at.now) (value_of value))) state.old state.new) }
{
    match stores::put(
        stepper.alloc,
        &stepper.layout,
        &mut state.memory,
        scalar,
        at,
        &value,
    )? {
        None => {
            state.held.push(Held::Usable(value))?;
            Ok(Effect::GoesOn)
        }
        Some(kind) => Ok(Effect::StopsHere(kind)),
    }
}

/// Stores the held value in an initialised object, at the address held below it, and holds the value.
pub fn put<'p>(
    stepper: &Stepper<'p>,
    scalar: Scalar,
    state: &mut State<'p>,
) -> Result<Effect, AllocError>
    ensures { IfOk result (HasEffect (program_of stepper.now.program.now) (layout_of stepper.now.layout) (machine.Put scalar) state.old state.new) }
{
    let Some(value) = state.held.pop() else {
        return Ok(Effect::Stuck);
    };
    let Some(at) = state.held.pop() else {
        return Ok(Effect::Stuck);
    };
    match used(at) {
        Err(kind) => Ok(Effect::StopsHere(kind)),
        Ok(at) => {
            match used(value) {
                Err(kind) => Ok(Effect::StopsHere(kind)),
                Ok(value) => write_named(stepper, scalar, &at, value, state),
            }
        }
    }
}

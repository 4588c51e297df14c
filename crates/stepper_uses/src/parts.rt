//! Places that are reached from held ones (C11 6.5.2.1, 6.5.2.3).

ghost use Rattle.std.specs.Prelude.{◌≡◌, Ok, IfOk};
ghost use Rattle.c_machine.specs.Machine as machine;
ghost use Rattle.c_program.specs.Views.{program_of};
ghost use Rattle.stepper_shapes.specs.Views.{implied_of};
ghost use Rattle.stepper_values.specs.Views.{value_of, held_of, layout_of};
ghost use Rattle.stepper_work.specs.Effects.{HasEffect, Leads};

use crate::hold::hold_any;
use std::alloc::AllocError;
use stepper_expressions::stepper::Stepper;
use stepper_held::places::{element_in, place_behind, place_of_cells};
use stepper_shapes::operand::ImpliedType;
use stepper_types::sizes::{implied_size, offset_within};
use stepper_values::value::{Held, Value, used};
use stepper_work::work::{Effect, State};

/// What is held last is a value without a place.
pub fn as_place<'p>(stepper: &Stepper<'p>, state: &mut State<'p>) -> Result<Effect, AllocError>
    ensures { IfOk result (HasEffect (program_of stepper.now.program.now) (layout_of stepper.now.layout) machine.AsPlace state.old state.new) }
{
    let Some(held) = state.held.pop() else {
        return Ok(Effect::Stuck);
    };
    state.held.push(place_of_cells(held))?;
    Ok(Effect::GoesOn)
}

/// Goes on from the held place to a member.
pub fn reach<'p>(
    stepper: &Stepper<'p>,
    composite: u32,
    member: u32,
    state: &mut State<'p>,
) -> Result<Effect, AllocError>
    ensures { IfOk result (HasEffect (program_of stepper.now.program.now) (layout_of stepper.now.layout) (machine.Reach composite member) state.old state.new) }
{
    let Some(held) = state.held.pop() else {
        return Ok(Effect::Stuck);
    };
    let layout = &stepper.layout;
    let bytes = offset_within(&stepper.program.comps, layout.machine, composite, member)?;
    let place = place_behind(stepper.alloc, layout, bytes, held)?;
    state.held.push(place)?;
    Ok(Effect::GoesOn)
}

/// Goes on from the place to the element with the index.
fn find_element<'p>(
    stepper: &Stepper<'p>,
    t: ImpliedType<'p>,
    count: u64,
    end: bool,
    place: Held,
    index: Value,
    state: &mut State<'p>,
) -> Result<Effect, AllocError>
    ensures { IfOk result (Leads (λ s. machine.with_index (program_of stepper.now.program.now) (layout_of stepper.now.layout) (implied_of t.entry) count end s (held_of place) (Ok (value_of index))) state.old state.new) }
{
    let layout = &stepper.layout;
    let bytes = implied_size(&stepper.program.comps, layout.machine, t)?;
    let element = element_in(stepper.alloc, layout, bytes, count, end, place, index)?;
    hold_any(state, element)
}

/// Goes on from the place held below to the element with the index held last.
pub fn index<'p>(
    stepper: &Stepper<'p>,
    t: ImpliedType<'p>,
    count: u64,
    end: bool,
    state: &mut State<'p>,
) -> Result<Effect, AllocError>
    ensures { IfOk result (HasEffect (program_of stepper.now.program.now) (layout_of stepper.now.layout) (machine.Index (implied_of t.entry) count end) state.old state.new) }
{
    let Some(index) = state.held.pop() else {
        return Ok(Effect::Stuck);
    };
    let Some(place) = state.held.pop() else {
        return Ok(Effect::Stuck);
    };
    match used(index) {
        Err(kind) => Ok(Effect::StopsHere(kind)),
        Ok(index) => find_element(stepper, t, count, end, place, index, state),
    }
}

/// The same, where the index is held below the place.
pub fn index_by<'p>(
    stepper: &Stepper<'p>,
    t: ImpliedType<'p>,
    count: u64,
    end: bool,
    state: &mut State<'p>,
) -> Result<Effect, AllocError>
    ensures { IfOk result (HasEffect (program_of stepper.now.program.now) (layout_of stepper.now.layout) (machine.IndexedBy (implied_of t.entry) count end) state.old state.new) }
{
    let Some(place) = state.held.pop() else {
        return Ok(Effect::Stuck);
    };
    let Some(index) = state.held.pop() else {
        return Ok(Effect::Stuck);
    };
    match used(index) {
        Err(kind) => Ok(Effect::StopsHere(kind)),
        Ok(index) => find_element(stepper, t, count, end, place, index, state),
    }
}

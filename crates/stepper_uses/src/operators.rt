//! Operators and conversions (C11 6.3, 6.5.3 to 6.5.12).

ghost use Rattle.std.specs.Prelude.{◌≡◌, IfOk};
ghost use Rattle.c_machine.specs.Machine as machine;
ghost use Rattle.c_machine.specs.Parts as parts;
ghost use Rattle.c_pointers.specs.Conversions.{applied_to_one};
ghost use Rattle.c_program.specs.Views.{program_of};
ghost use Rattle.c_types.specs.Compatible as types;
ghost use Rattle.stepper_shapes.specs.Views.{implied_of};
ghost use Rattle.stepper_uses.specs.Changes.{kept_as};
ghost use Rattle.stepper_values.specs.Views.{value_of, held_of, layout_of};
ghost use Rattle.stepper_work.specs.Effects.{HasEffect, Leads};

use crate::hold::hold;
use c_base::integer::IntKind;
use c_base::operators::{BinOp, UnOp};
use c_types::ctype::CType;
use std::alloc::AllocError;
use stepper_expressions::stepper::Stepper;
use stepper_shapes::expressions::scalar_of;
use stepper_shapes::operand::ImpliedType;
use stepper_types::conversions::{converted, increased};
use stepper_types::pointers::on_pointers;
use stepper_values::operators::{applied, applied_to_one};
use stepper_values::value::{Held, Value, used};
use stepper_work::work::{Effect, State};

/// Uses the held pointer as an address.
pub fn use_pointer<'p>(stepper: &Stepper<'p>, state: &mut State<'p>) -> Result<Effect, AllocError>
    ensures { IfOk result (HasEffect (program_of stepper.now.program.now) (layout_of stepper.now.layout) machine.Use state.old state.new) }
{
    match state.held.pop() {
        None => Ok(Effect::Stuck),
        Some(held) => hold(state, used(held)),
    }
}

/// Applies an operator to the two numbers held last.
pub fn apply<'p>(
    stepper: &Stepper<'p>,
    op: BinOp,
    kind: IntKind,
    state: &mut State<'p>,
) -> Result<Effect, AllocError>
    ensures { IfOk result (HasEffect (program_of stepper.now.program.now) (layout_of stepper.now.layout) (machine.Apply op kind) state.old state.new) }
{
    let Some(b) = state.held.pop() else {
        return Ok(Effect::Stuck);
    };
    let Some(a) = state.held.pop() else {
        return Ok(Effect::Stuck);
    };
    match used(a) {
        Err(kind) => Ok(Effect::StopsHere(kind)),
        Ok(a) => {
            match used(b) {
                Err(kind) => Ok(Effect::StopsHere(kind)),
                Ok(b) => {
                    let machine = stepper.layout.machine;
                    let value = applied(stepper.alloc, op, kind, machine, a, b)?;
                    hold(state, value)
                }
            }
        }
    }
}

fn compute_one<'p>(
    stepper: &Stepper<'p>,
    op: UnOp,
    kind: IntKind,
    value: Value,
    state: &mut State<'p>,
) -> Result<Effect, AllocError>
    ensures { IfOk result (Leads (λ s. machine.with_value s (applied_to_one op kind stepper.now.layout.machine (value_of value))) state.old state.new) }
{
    let computed = applied_to_one(stepper.alloc, op, kind, stepper.layout.machine, value);
    hold(state, computed)
}

/// Applies `-`, `!` or `~` to the held value.
pub fn apply_one<'p>(
    stepper: &Stepper<'p>,
    op: UnOp,
    kind: IntKind,
    state: &mut State<'p>,
) -> Result<Effect, AllocError>
    ensures { IfOk result (HasEffect (program_of stepper.now.program.now) (layout_of stepper.now.layout) (machine.ApplyOne op kind) state.old state.new) }
{
    let Some(held) = state.held.pop() else {
        return Ok(Effect::Stuck);
    };
    match used(held) {
        Err(kind) => Ok(Effect::StopsHere(kind)),
        Ok(value) => compute_one(stepper, op, kind, value, state),
    }
}

/// Applies an operator to two values among which are pointers.
pub fn apply_pointers<'p>(
    stepper: &Stepper<'p>,
    op: BinOp,
    left: ImpliedType<'p>,
    right: ImpliedType<'p>,
    state: &mut State<'p>,
) -> Result<Effect, AllocError>
    ensures { IfOk result (HasEffect (program_of stepper.now.program.now) (layout_of stepper.now.layout) (machine.ApplyPointers op (implied_of left.entry) (implied_of right.entry)) state.old state.new) }
{
    let Some(b) = state.held.pop() else {
        return Ok(Effect::Stuck);
    };
    let Some(a) = state.held.pop() else {
        return Ok(Effect::Stuck);
    };
    match used(a) {
        Err(kind) => Ok(Effect::StopsHere(kind)),
        Ok(a) => {
            match used(b) {
                Err(kind) => Ok(Effect::StopsHere(kind)),
                Ok(b) => combine(stepper, op, left, right, a, b, state),
            }
        }
    }
}

fn combine<'p>(
    stepper: &Stepper<'p>,
    op: BinOp,
    left: ImpliedType<'p>,
    right: ImpliedType<'p>,
    a: Value,
    b: Value,
    state: &mut State<'p>,
) -> Result<Effect, AllocError>
    ensures { IfOk result (Leads (λ s. machine.with_value s (parts.on_pointers (program_of stepper.now.program.now) (layout_of stepper.now.layout) op (implied_of left.entry) (implied_of right.entry) (value_of a) (value_of b))) state.old state.new) }
{
    let layout = &stepper.layout;
    let value = on_pointers(
        stepper.alloc,
        stepper.program,
        layout,
        op,
        left,
        right,
        a,
        b,
    )?;
    hold(state, value)
}

/// The held value of the type with 1 added, `up`, or subtracted.
pub fn increase<'p>(
    stepper: &Stepper<'p>,
    up: bool,
    t: ImpliedType<'p>,
    state: &mut State<'p>,
) -> Result<Effect, AllocError>
    ensures { IfOk result (HasEffect (program_of stepper.now.program.now) (layout_of stepper.now.layout) (machine.Increase up (implied_of t.entry)) state.old state.new) }
{
    let Some(held) = state.held.pop() else {
        return Ok(Effect::Stuck);
    };
    match used(held) {
        Err(kind) => Ok(Effect::StopsHere(kind)),
        Ok(value) => {
            let layout = &stepper.layout;
            let value = increased(stepper.alloc, stepper.program, layout, up, t, value)?;
            hold(state, value)
        }
    }
}

/// Converts a held scalar.
fn convert<'p>(
    stepper: &Stepper<'p>,
    t: ImpliedType<'p>,
    held: Held,
    state: &mut State<'p>,
) -> Result<Effect, AllocError>
    ensures { IfOk result (Leads (λ s. machine.with_conversion (layout_of stepper.now.layout) (implied_of t.entry) s (machine.used (held_of held))) state.old state.new) }
{
    match used(held) {
        Err(kind) => Ok(Effect::StopsHere(kind)),
        Ok(value) => {
            state
                .held
                .push(converted(stepper.alloc, &stepper.layout, t, value))?;
            Ok(Effect::GoesOn)
        }
    }
}

fn keep<'p>(held: Held, state: &mut State<'p>) -> Result<Effect, AllocError>
    ensures { IfOk result (Leads (λ s. machine.Goes (machine.holding (held_of held) s)) state.old state.new) }
{
    state.held.push(held)?;
    Ok(Effect::GoesOn)
}

fn is_void(t: ImpliedType<'_>) -> bool
    ensures { result ≡ types.is_void (implied_of t.entry) }
{
    match t {
        ImpliedType::Given(CType::Void) => true,
        ImpliedType::Void => true,
        ImpliedType::Given(CType::Int(_)) => false,
        ImpliedType::Given(CType::Ptr(_)) => false,
        ImpliedType::Given(CType::Array(_, _)) => false,
        ImpliedType::Given(CType::Comp(_)) => false,
        ImpliedType::Given(CType::Func(_)) => false,
        ImpliedType::PointerTo(_) => false,
        ImpliedType::Long => false,
    }
}

/// What is held that isn't a scalar, converted to void or left as it is.
fn kept(t: ImpliedType<'_>, held: Held) -> Held
    ensures { held_of result ≡ kept_as (implied_of t.entry) (held_of held) }
{
    if is_void(t) { Held::Absent } else { held }
}

fn change_held<'p>(
    stepper: &Stepper<'p>,
    t: ImpliedType<'p>,
    held: Held,
    state: &mut State<'p>,
) -> Result<Effect, AllocError>
    ensures { IfOk result (Leads (λ s. machine.with_change_of_type (layout_of stepper.now.layout) (implied_of t.entry) s (held_of held)) state.old state.new) }
{
    match scalar_of(t) {
        Some(_) => convert(stepper, t, held, state),
        None => {
            let held = kept(t, held);
            keep(held, state)
        }
    }
}

/// Converts what is held to a type; what is converted to void is discarded.
pub fn change<'p>(
    stepper: &Stepper<'p>,
    t: ImpliedType<'p>,
    state: &mut State<'p>,
) -> Result<Effect, AllocError>
    ensures { IfOk result (HasEffect (program_of stepper.now.program.now) (layout_of stepper.now.layout) (machine.Change (implied_of t.entry)) state.old state.new) }
{
    match state.held.pop() {
        None => Ok(Effect::Stuck),
        Some(held) => change_held(stepper, t, held, state),
    }
}

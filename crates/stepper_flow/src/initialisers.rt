//! Initialisers of automatic objects (C11 6.7.9).

ghost use Rattle.std.specs.Prelude.{◌≡◌, [], ◌∷◌, map, IfOk, OnOk};
ghost use Rattle.c_machine.specs.Machine as machine;
ghost use Rattle.c_machine.specs.Unfolding as plain;
ghost use Rattle.c_program.specs.Syntax.{Initialise};
ghost use Rattle.c_program.specs.Views.{program_of, item_of};
ghost use Rattle.c_typed_expr.specs.Views.{expr_of, lvalue_of};
ghost use Rattle.c_types.specs.Types as types;
ghost use Rattle.c_types.specs.Views.{type_of};
ghost use Rattle.stepper_values.specs.Views.{layout_of};
ghost use Rattle.stepper_work.specs.Effects.{HasEffect};
ghost use Rattle.stepper_work.specs.Views.{control_of};

use c_typed_expr::expr::{TExpr, TLval};
use c_typed_stmt::init::{Image, TInitItem};
use c_types::ctype::CType;
use sqlite_items::{Boxed, Items};
use std::alloc::AllocError;
use stepper_accesses::scopes::paste;
use stepper_expressions::cells::push_cells;
use stepper_expressions::pushes::push_three;
use stepper_expressions::stepper::Stepper;
use stepper_held::stack::Stack;
use stepper_shapes::expressions::{scalar_of, whole_place};
use stepper_shapes::operand::{ImpliedType, Operand};
use stepper_work::work::{Effect, State, Work};

/// A value for a part of the object.
fn push_value<'p>(
    control: &mut Stack<Work<'p>>,
    place: &'p Boxed<TLval>,
    t: &'p CType,
    e: &'p Boxed<TExpr>,
) -> Result<(), AllocError>
    ensures { OnOk result (control_of control.new ≡ plain.value_work (types.scalar_of (type_of t.now)) (type_of t.now) (lvalue_of place.now) (expr_of e.now) (control_of control.old)) }
{
    control.push(Work::Drop)?;
    let at = whole_place(place);
    let value = Operand::Whole(e);
    let t = ImpliedType::Given(t);
    match scalar_of(t) {
        Some(scalar) => {
            push_three(
                control,
                Work::Locate(at),
                Work::Evaluate(value),
                Work::Put(scalar),
            )
        }
        None => push_cells(control, true, t, at, value),
    }
}

fn push_item<'p>(
    control: &mut Stack<Work<'p>>,
    base: u32,
    item: &'p TInitItem,
) -> Result<(), AllocError>
    ensures { OnOk result (control_of control.new ≡ plain.items_work base (item_of item.now ∷ []) (control_of control.old)) }
{
    match item {
        TInitItem::Value(place, t, e) => push_value(control, place, t, e),
        TInitItem::Text(image) => control.push(Work::Paste(base, image)),
    }
}

/// The items of an initialiser, in source order.
#[tactic(auto, using(crate::proofs::InOrder::item_before, crate::proofs::InOrder::none_left))]
fn push_items<'p>(
    control: &mut Stack<Work<'p>>,
    base: u32,
    items: &'p Items<TInitItem>,
) -> Result<(), AllocError>
    ensures { OnOk result (control_of control.new ≡ plain.items_work base (map item_of items.now) (control_of control.old)) }
{
    let mut next = items.len();
    while next > 0 {
        next -= 1;
        push_item(control, base, &items.as_slice()[next])?;
    }
    Ok(())
}

/// What no item names is made 0, and then the items are stored.
pub fn initialise<'p>(
    stepper: &Stepper<'p>,
    id: u32,
    base: u32,
    cleared: &'p Image,
    items: &'p Items<TInitItem>,
    state: &mut State<'p>,
) -> Result<Effect, AllocError>
    ensures { IfOk result (HasEffect (program_of stepper.now.program.now) (layout_of stepper.now.layout) (machine.Do (Initialise id base cleared.now (map item_of items.now))) state.old state.new) }
{
    state.control.push(Work::Finish(id))?;
    push_items(&mut state.control, base, items)?;
    paste(
        stepper.alloc,
        &stepper.layout,
        &mut state.memory,
        base,
        cleared.as_slice(),
    )?;
    Ok(Effect::GoesOn)
}

/// Writes an initial content into a base.
pub fn paste_image<'p>(
    stepper: &Stepper<'p>,
    base: u32,
    image: &'p Image,
    state: &mut State<'p>,
) -> Result<Effect, AllocError>
    ensures { IfOk result (HasEffect (program_of stepper.now.program.now) (layout_of stepper.now.layout) (machine.Paste base image.now) state.old state.new) }
{
    paste(
        stepper.alloc,
        &stepper.layout,
        &mut state.memory,
        base,
        image.as_slice(),
    )?;
    Ok(Effect::GoesOn)
}

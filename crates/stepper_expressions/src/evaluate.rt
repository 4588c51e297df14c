//! Expressions and lvalues begin.

ghost use Rattle.std.specs.Prelude.{◌≡◌, ◌∷◌, map, pos, IfOk, OnOk};
ghost use Rattle.c_machine.specs.Machine as machine;
ghost use Rattle.c_machine.specs.Unfolding as plain;
ghost use Rattle.c_program.specs.Views.{program_of};
ghost use Rattle.c_typed_expr.specs.Views.{expr_of, listed};
ghost use Rattle.stepper_values.specs.Views.{number_of, held_of, layout_of};
ghost use Rattle.stepper_shapes.specs.Shapes.{shape_of, place_shape_of};
ghost use Rattle.stepper_shapes.specs.Views.{implied_of, place_of, operand_of};
ghost use Rattle.stepper_work.specs.Effects.{HasEffect};
ghost use Rattle.stepper_work.specs.Views.{work_of, control_of};

use crate::cells::{fetch_work, push_cells};
use crate::compounds::{push_compound, push_step};
use crate::pushes::{push_arguments, push_three, push_two};
use crate::stepper::Stepper;
use c_typed_expr::expr::TExpr;
use sqlite_items::Items;
use std::alloc::AllocError;
use stepper_held::stack::Stack;
use stepper_places::natures::callee_type;
use stepper_shapes::expressions::{operand_shape, place_shape};
use stepper_shapes::operand::{Operand, Place, PlaceShape, Shape};
use stepper_values::number::Number;
use stepper_values::places::address_of;
use stepper_values::value::{Held, plain};
use stepper_work::work::{Effect, State, Work};

/// A number that a type may have; any other is answered as want of memory.
fn narrow(n: i128) -> Result<Number, AllocError>
    ensures { IfOk result (λ number. number_of number ≡ n) }
{
    if n >= 0 {
        if n > u64::MAX as i128 {
            return Err(AllocError);
        }
        return Ok(Number::Natural(n as u64));
    }
    let above = -1 - n;
    if above > u64::MAX as i128 {
        return Err(AllocError);
    }
    Ok(Number::Negative(above as u64))
}

#[tactic(auto, using(crate::proofs::Lists::counted))]
/// A call: the function's place, its arguments in order, and the call itself.
fn push_call<'p>(
    stepper: &Stepper<'p>,
    control: &mut Stack<Work<'p>>,
    site: u32,
    place: Place<'p>,
    arguments: &'p Items<TExpr>,
) -> Result<(), AllocError>
    ensures { OnOk result (control_of control.new ≡ machine.Locate (place_of place.entry) ∷ plain.arguments_work (listed (map expr_of arguments.now)) (machine.Enter site (machine.called_type (program_of stepper.now.program.now) (place_of place.entry)) (plain.count (listed (map expr_of arguments.now))) ∷ control_of control.old)) }
{
    let t = callee_type(stepper.program, place);
    control.push(Work::Enter(site, t, arguments.len()))?;
    push_arguments(control, arguments)?;
    control.push(Work::Locate(place))
}

impl<'p> Stepper<'p> {
    /// Begins an expression of this form.
    fn unfold(&self, shape: Shape<'p>, state: &mut State<'p>) -> Result<Effect, AllocError>
        ensures { IfOk result (HasEffect (program_of self.now.program.now) (layout_of self.now.layout) (machine.Evaluate (shape_of shape.entry)) state.old state.new) }
    {
        let control = &mut state.control;
        match shape {
            Shape::Number(_, n) => {
                let number = narrow(n)?;
                state.held.push(Held::Usable(plain(self.alloc, number)))?;
            }
            Shape::Load(scalar, place) => {
                let fetch = fetch_work(self.program, place, scalar);
                push_two(control, Work::Locate(place), fetch)?;
            }
            Shape::Binary(op, kind, a, b) => {
                push_three(
                    control,
                    Work::Evaluate(a),
                    Work::Evaluate(b),
                    Work::Apply(op, kind),
                )?;
            }
            Shape::Assign(scalar, place, e) => {
                push_three(
                    control,
                    Work::Locate(place),
                    Work::Evaluate(e),
                    Work::Store(scalar),
                )?;
            }
            Shape::LoadCells(t, place) => {
                push_two(control, Work::Locate(place), Work::FetchCells(t))?;
            }
            Shape::AssignCells(t, place, e) => {
                push_cells(control, false, t, place, e)?;
            }
            Shape::Address(_, place) => {
                control.push(Work::Locate(place))?;
            }
            Shape::Unary(op, kind, e) => {
                push_two(control, Work::Evaluate(e), Work::ApplyOne(op, kind))?;
            }
            Shape::Convert(t, e) => {
                push_two(control, Work::Evaluate(e), Work::Change(t))?;
            }
            Shape::OnPointers(op, left, right, a, b) => {
                let apply = Work::ApplyPointers(op, left, right);
                push_three(control, Work::Evaluate(a), Work::Evaluate(b), apply)?;
            }
            Shape::Logic(is_and, a, b) => {
                push_two(control, Work::Evaluate(a), Work::Decide(is_and, b))?;
            }
            Shape::Conditional(_, a, b, c) => {
                push_two(control, Work::Evaluate(a), Work::Pick(b, c))?;
            }
            Shape::Compound(c) => {
                push_compound(self.program, control, c)?;
            }
            Shape::Step(up, behind, t, place) => {
                push_step(self.program, control, up, behind, t, place)?;
            }
            Shape::Comma(a, b) => {
                push_three(control, Work::Evaluate(a), Work::Drop, Work::Evaluate(b))?;
            }
            Shape::Call(site, _, place, arguments) => {
                push_call(self, control, site.0, place, arguments)?;
            }
        }
        Ok(Effect::GoesOn)
    }

    /// Evaluates an expression, or begins to.
    pub fn evaluate(&self, e: Operand<'p>, state: &mut State<'p>) -> Result<Effect, AllocError>
        ensures { IfOk result (HasEffect (program_of self.now.program.now) (layout_of self.now.layout) (machine.Evaluate (operand_of e.entry)) state.old state.new) }
    {
        self.unfold(operand_shape(e), state)
    }

    /// Begins a place of this form.
    fn unfold_place(
        &self,
        shape: PlaceShape<'p>,
        state: &mut State<'p>,
    ) -> Result<Effect, AllocError>
        ensures { IfOk result (HasEffect (program_of self.now.program.now) (layout_of self.now.layout) (machine.Locate (place_shape_of shape.entry)) state.old state.new) }
    {
        let control = &mut state.control;
        match shape {
            PlaceShape::Variable(base) => {
                let at = address_of(self.alloc, &self.layout, base)?;
                state.held.push(Held::Usable(at))?;
            }
            PlaceShape::Pointed(e, _, _) => {
                push_two(control, Work::Evaluate(e), Work::Use)?;
            }
            PlaceShape::Temporary(e, _) => {
                push_two(control, Work::Evaluate(e), Work::AsPlace)?;
            }
            PlaceShape::Member(place, composite, member) => {
                push_two(control, Work::Locate(place), Work::Reach(composite, member))?;
            }
            PlaceShape::Element(place, e, t, n, end) => {
                let index = Work::Index(t, n, end);
                push_three(control, Work::Locate(place), Work::Evaluate(e), index)?;
            }
            PlaceShape::ElementOf(e, place, t, n, end) => {
                let index = Work::IndexedBy(t, n, end);
                push_three(control, Work::Evaluate(e), Work::Locate(place), index)?;
            }
        }
        Ok(Effect::GoesOn)
    }

    /// Finds a place, or begins to.
    pub fn locate(&self, place: Place<'p>, state: &mut State<'p>) -> Result<Effect, AllocError>
        ensures { IfOk result (HasEffect (program_of self.now.program.now) (layout_of self.now.layout) (machine.Locate (place_of place.entry)) state.old state.new) }
    {
        self.unfold_place(place_shape(place), state)
    }
}

//! Assignments of structs and unions (C11 6.5.16.1p3), and loads.

ghost use Rattle.std.specs.Prelude.{◌≡◌, OnOk, option_map};
ghost use Rattle.c_machine.specs.Unfolding as plain;
ghost use Rattle.c_program.specs.Views.{program_of};
ghost use Rattle.stepper_expressions.specs.Forms.{copied_from, kind_of};
ghost use Rattle.stepper_shapes.specs.Shapes.{shape_of};
ghost use Rattle.stepper_shapes.specs.Views.{implied_of, place_of, operand_of};
ghost use Rattle.stepper_work.specs.Views.{work_of, control_of};

use crate::pushes::push_two;
use c_base::integer::IntKind;
use c_base::operators::BinOp;
use c_memory::scalar::Scalar;
use c_program::program::TypedProgram;
use c_types::ctype::CType;
use std::alloc::AllocError;
use stepper_held::stack::Stack;
use stepper_places::natures::{is_temporary, is_volatile};
use stepper_shapes::expressions::operand_shape;
use stepper_shapes::operand::{ImpliedType, Operand, Place, Shape};
use stepper_work::work::Work;

/// A load at the place, which is a choice where the place is volatile.
pub fn fetch_work<'p>(program: &TypedProgram, place: Place<'_>, scalar: Scalar) -> Work<'p>
    ensures { work_of result ≡ plain.fetched_by (program_of program.now) (place_of place.entry) scalar }
{
    if is_volatile(program, place) {
        Work::Sample(scalar)
    } else {
        Work::Fetch(scalar)
    }
}

/// The place whose cells are the value.
fn source_place<'p>(shape: Shape<'p>) -> Option<Place<'p>>
    ensures { option_map place_of result ≡ copied_from (shape_of shape.entry) }
{
    match shape {
        Shape::LoadCells(_, place) => Some(place),
        Shape::Number(_, _) | Shape::Load(_, _) | Shape::Binary(_, _, _, _) => None,
        Shape::Assign(_, _, _) | Shape::AssignCells(_, _, _) | Shape::Address(_, _) => None,
        Shape::Unary(_, _, _) | Shape::Convert(_, _) | Shape::OnPointers(_, _, _, _, _) => None,
        Shape::Logic(_, _, _) | Shape::Conditional(_, _, _, _) | Shape::Compound(_) => None,
        Shape::Step(_, _, _, _) | Shape::Comma(_, _) | Shape::Call(_, _, _, _) => None,
    }
}

/// The cells of the value are copied from its place, or stored.
#[tactic(auto, using(crate::proofs::Forms::source_by_form))]
fn push_source<'p>(
    control: &mut Stack<Work<'p>>,
    named: bool,
    t: ImpliedType<'p>,
    value: Operand<'p>,
) -> Result<(), AllocError>
    ensures { OnOk result (control_of control.new ≡ plain.source_work named (implied_of t.entry) (operand_of value.entry) (operand_of value.entry) (control_of control.old)) }
{
    match source_place(operand_shape(value)) {
        None => push_two(control, Work::Evaluate(value), Work::StoreCells(named, t)),
        Some(place) => {
            if is_temporary(place) {
                push_two(control, Work::Evaluate(value), Work::StoreCells(named, t))
            } else {
                push_two(control, Work::Locate(place), Work::CopyCells(named, t))
            }
        }
    }
}

/// An assignment of a struct or union; `named`, where an initialiser names its object.
pub fn push_cells<'p>(
    control: &mut Stack<Work<'p>>,
    named: bool,
    t: ImpliedType<'p>,
    place: Place<'p>,
    value: Operand<'p>,
) -> Result<(), AllocError>
    ensures { OnOk result (control_of control.new ≡ plain.cells_work named (implied_of t.entry) (place_of place.entry) (operand_of value.entry) (control_of control.old)) }
{
    push_source(control, named, t, value)?;
    control.push(Work::Locate(place))
}

fn integer_kind(t: ImpliedType<'_>) -> Option<IntKind>
    ensures { result ≡ kind_of (implied_of t.entry) }
{
    match t {
        ImpliedType::Given(CType::Int(kind)) => Some(*kind),
        ImpliedType::Long => Some(IntKind::Long),
        ImpliedType::Given(CType::Ptr(_)) => None,
        ImpliedType::Given(CType::Void) => None,
        ImpliedType::Given(CType::Array(_, _)) => None,
        ImpliedType::Given(CType::Comp(_)) => None,
        ImpliedType::Given(CType::Func(_)) => None,
        ImpliedType::PointerTo(_) => None,
        ImpliedType::Void => None,
    }
}

/// An operator by the types of its operands.
#[tactic(auto, using(crate::proofs::Forms::operator_by_kinds))]
pub fn operator_work<'p>(op: BinOp, left: ImpliedType<'p>, right: ImpliedType<'p>) -> Work<'p>
    ensures { work_of result ≡ plain.operator_work op (implied_of left.entry) (implied_of right.entry) }
{
    match (integer_kind(left), integer_kind(right)) {
        (Some(kind), Some(_)) => Work::Apply(op, kind),
        (Some(_), None) => Work::ApplyPointers(op, left, right),
        (None, _) => Work::ApplyPointers(op, left, right),
    }
}

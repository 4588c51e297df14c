//! Conversions, and `++` and `--` (C11 6.3, 6.5.2.4, 6.5.3.1).

ghost use Rattle.std.specs.Prelude.{◌≡◌, pos, IfOk};
ghost use Rattle.c_machine.specs.Parts as parts;
ghost use Rattle.c_program.specs.Views.{program_of};
ghost use Rattle.c_memory.specs.Operations.{applied_to};
ghost use Rattle.c_memory.specs.Values as values;
ghost use Rattle.c_types.specs.Types as types;
ghost use Rattle.c_types.specs.Views.{type_of};
ghost use Rattle.stepper_values.specs.Views.{value_of, value_result_of, held_of, layout_of};
ghost use Rattle.stepper_shapes.specs.Views.{implied_of};

use crate::sizes::{size_of_kind, size_within};
use c_base::integer::IntKind;
use c_base::kind::Kind;
use c_base::operators::BinOp;
use c_program::program::TypedProgram;
use c_types::ctype::CType;
use std::alloc::{AllocError, Global};
use stepper_shapes::expressions::scalar_of;
use stepper_shapes::operand::ImpliedType;
use stepper_values::layout::Layout;
use stepper_values::number::Number;
use stepper_values::operators::{applied, converted_to, converted_value};
use stepper_values::pointers::moved;
use stepper_values::value::{Held, Value, plain};

/// A value converted to a scalar type, or to void.
pub fn converted(alloc: Global, layout: &Layout, t: ImpliedType<'_>, value: Value) -> Held
    ensures { held_of result ≡ parts.converted (layout_of layout.now) (implied_of t.entry) (value_of value) }
{
    match scalar_of(t) {
        None => Held::Absent,
        Some(scalar) => Held::Usable(converted_to(alloc, scalar, layout.machine, value)),
    }
}

/// Operands below int are of int (C11 6.3.1.1p2).
fn promoted(layout: &Layout, kind: IntKind) -> IntKind
    ensures { result ≡ parts.promoted (layout_of layout.now) kind }
{
    if size_of_kind(kind, layout.machine) < size_of_kind(IntKind::Int, layout.machine) {
        IntKind::Int
    } else {
        kind
    }
}

fn one(alloc: Global) -> Value
    ensures { value_of result ≡ values.plain (pos 1) }
{
    plain(alloc, Number::Natural(1))
}

fn signed_op(up: bool) -> BinOp
    ensures { result ≡ parts.signed_op up }
{
    if up { BinOp::Add } else { BinOp::Sub }
}

fn increased_number(
    alloc: Global,
    layout: &Layout,
    up: bool,
    kind: IntKind,
    value: Value,
) -> Result<Result<Value, Kind>, AllocError>
    ensures { IfOk result (λ v. value_result_of v ≡ parts.in_kind (layout_of layout.now) kind (applied_to (parts.signed_op up) (parts.promoted (layout_of layout.now) kind) layout.now.machine (value_of value) (values.plain (pos 1)))) }
{
    let wide = promoted(layout, kind);
    match applied(
        alloc,
        signed_op(up),
        wide,
        layout.machine,
        value,
        one(alloc),
    )? {
        Ok(v) => Ok(Ok(converted_value(alloc, kind, layout.machine, v))),
        Err(kind) => Ok(Err(kind)),
    }
}

fn increased_pointer(
    alloc: Global,
    program: &TypedProgram,
    layout: &Layout,
    up: bool,
    to: &CType,
    value: Value,
) -> Result<Result<Value, Kind>, AllocError>
    ensures { IfOk result (λ v. value_result_of v ≡ parts.increased (program_of program.now) (layout_of layout.now) up (types.Pointer (type_of to.now)) (value_of value)) }
{
    let bytes = size_within(&program.comps, layout.machine, to)?;
    Ok(Ok(moved(!up, layout.machine, bytes, value, one(alloc))?))
}

/// A value of the type with 1 added, `up`, or subtracted.
pub fn increased(
    alloc: Global,
    program: &TypedProgram,
    layout: &Layout,
    up: bool,
    t: ImpliedType<'_>,
    value: Value,
) -> Result<Result<Value, Kind>, AllocError>
    ensures { IfOk result (λ v. value_result_of v ≡ parts.increased (program_of program.now) (layout_of layout.now) up (implied_of t.entry) (value_of value)) }
{
    match t {
        ImpliedType::Given(CType::Int(kind)) => increased_number(alloc, layout, up, *kind, value),
        ImpliedType::Long => increased_number(alloc, layout, up, IntKind::Long, value),
        ImpliedType::Given(CType::Ptr(to)) => increased_pointer(
            alloc,
            program,
            layout,
            up,
            to.get(),
            value,
        ),
        ImpliedType::PointerTo(to) => increased_pointer(alloc, program, layout, up, to, value),
        ImpliedType::Given(CType::Void) => Ok(Ok(value)),
        ImpliedType::Given(CType::Array(_, _)) => Ok(Ok(value)),
        ImpliedType::Given(CType::Comp(_)) => Ok(Ok(value)),
        ImpliedType::Given(CType::Func(_)) => Ok(Ok(value)),
        ImpliedType::Void => Ok(Ok(value)),
    }
}

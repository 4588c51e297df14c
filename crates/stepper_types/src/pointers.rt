//! Operators on pointers, and the function that an address is (C11 6.5.6, 6.5.8, 6.5.9, 6.5.2.2p9).

ghost use Rattle.std.specs.Prelude.{◌≡◌, ◌≤◌, ◌^◌, map, Some, IfOk};
ghost use Rattle.c_base.specs.Operators as operators;
ghost use Rattle.c_machine.specs.Parts as parts;
ghost use Rattle.c_base.specs.declared.operators.BinOp.TheVariants.{Add, Sub};
ghost use Rattle.c_pointers.specs.Addresses as addresses;
ghost use Rattle.c_pointers.specs.Pointers as pointers;
ghost use Rattle.c_program.specs.StaticCalls as calls;
ghost use Rattle.c_program.specs.Syntax.{base_at};
ghost use Rattle.c_program.specs.Typing as typing;
ghost use Rattle.c_program.specs.Views.{base_of, program_of};
ghost use Rattle.c_types.specs.Compatible.{is_compatible};
ghost use Rattle.c_types.specs.Types as types;
ghost use Rattle.c_types.specs.Views.{type_of};
ghost use Rattle.stepper_values.specs.Views.{value_of, value_result_of, layout_of};
ghost use Rattle.stepper_shapes.specs.Views.{implied_of};

use crate::bases::base_in;
use crate::sizes::size_within;
use c_base::integer::IntKind;
use c_base::kind::Kind;
use c_base::operators::BinOp;
use c_program::base::BaseSort;
use c_program::program::{Base, TypedProgram};
use c_types::ctype::CType;
use std::alloc::{AllocError, Global};
use stepper_shapes::operand::ImpliedType;
use stepper_values::layout::Layout;
use stepper_values::number::wide;
use stepper_values::places::object_of;
use stepper_values::pointers::{comparison, difference, moved, only_base};
use stepper_values::value::Value;

fn is_pointer(t: ImpliedType<'_>) -> bool
    ensures { result ≡ typing.is_pointer (implied_of t.entry) }
{
    match t {
        ImpliedType::Given(CType::Ptr(_)) => true,
        ImpliedType::PointerTo(_) => true,
        ImpliedType::Given(CType::Int(_)) => false,
        ImpliedType::Given(CType::Void) => false,
        ImpliedType::Given(CType::Array(_, _)) => false,
        ImpliedType::Given(CType::Comp(_)) => false,
        ImpliedType::Given(CType::Func(_)) => false,
        ImpliedType::Long => false,
        ImpliedType::Void => false,
    }
}

/// Bytes of what a pointer of the type points to.
fn target_size(
    program: &TypedProgram,
    layout: &Layout,
    t: ImpliedType<'_>,
) -> Result<u64, AllocError>
    ensures value { IfOk result (λ n. n ≡ parts.target_size (program_of program.now) (layout_of layout.now) (implied_of t.entry)) }
    ensures small { IfOk result (λ n. n ≤ 2 ^ 60) }
{
    match t {
        ImpliedType::Given(CType::Ptr(to)) => size_within(&program.comps, layout.machine, to.get()),
        ImpliedType::PointerTo(to) => size_within(&program.comps, layout.machine, to),
        ImpliedType::Given(CType::Int(_)) => Ok(0),
        ImpliedType::Given(CType::Void) => Ok(0),
        ImpliedType::Given(CType::Array(_, _)) => Ok(0),
        ImpliedType::Given(CType::Comp(_)) => Ok(0),
        ImpliedType::Given(CType::Func(_)) => Ok(0),
        ImpliedType::Long => Ok(0),
        ImpliedType::Void => Ok(0),
    }
}

/// A pointer and a number that is added, in either order.
fn added(
    program: &TypedProgram,
    layout: &Layout,
    left: ImpliedType<'_>,
    right: ImpliedType<'_>,
    a: Value,
    b: Value,
) -> Result<Result<Value, Kind>, AllocError>
    ensures { IfOk result (λ v. value_result_of v ≡ parts.on_pointers (program_of program.now) (layout_of layout.now) Add (implied_of left.entry) (implied_of right.entry) (value_of a) (value_of b)) }
{
    if is_pointer(left) {
        let size = target_size(program, layout, left)?;
        Ok(Ok(moved(false, layout.machine, size, a, b)?))
    } else {
        let size = target_size(program, layout, right)?;
        Ok(Ok(moved(false, layout.machine, size, b, a)?))
    }
}

/// How many elements lie between two pointers. That the elements have no bytes is answered as want of memory, since no program has
/// such a type.
fn apart(
    alloc: Global,
    layout: &Layout,
    size: u64,
    a: &Value,
    b: &Value,
) -> Result<Result<Value, Kind>, AllocError>
    ensures { IfOk result (λ v. value_result_of v ≡ pointers.difference (layout_of layout.now) size (value_of a.now) (value_of b.now)) }
{
    if size == 0 {
        return Err(AllocError);
    }
    Ok(difference(alloc, layout, size, a, b))
}

fn subtracted(
    alloc: Global,
    program: &TypedProgram,
    layout: &Layout,
    left: ImpliedType<'_>,
    right: ImpliedType<'_>,
    a: Value,
    b: Value,
) -> Result<Result<Value, Kind>, AllocError>
    ensures { IfOk result (λ v. value_result_of v ≡ parts.on_pointers (program_of program.now) (layout_of layout.now) Sub (implied_of left.entry) (implied_of right.entry) (value_of a) (value_of b)) }
{
    let size = target_size(program, layout, left)?;
    if is_pointer(right) {
        apart(alloc, layout, size, &a, &b)
    } else {
        Ok(Ok(moved(true, layout.machine, size, a, b)?))
    }
}

/// An operator with a pointer among its operands.
pub fn on_pointers(
    alloc: Global,
    program: &TypedProgram,
    layout: &Layout,
    op: BinOp,
    left: ImpliedType<'_>,
    right: ImpliedType<'_>,
    a: Value,
    b: Value,
) -> Result<Result<Value, Kind>, AllocError>
    ensures { IfOk result (λ v. value_result_of v ≡ parts.on_pointers (program_of program.now) (layout_of layout.now) op (implied_of left.entry) (implied_of right.entry) (value_of a) (value_of b)) }
{
    match op {
        BinOp::Add => added(program, layout, left, right, a, b),
        BinOp::Sub => subtracted(alloc, program, layout, left, right, a, b),
        BinOp::Lt | BinOp::Le | BinOp::Gt | BinOp::Ge | BinOp::Eq | BinOp::Ne => Ok(comparison(
            alloc, op, layout, &a, &b,
        )),
        BinOp::Mul | BinOp::Div | BinOp::Rem | BinOp::And | BinOp::Or => Ok(comparison(
            alloc, op, layout, &a, &b,
        )),
        BinOp::Xor | BinOp::Shl | BinOp::Shr => Ok(comparison(alloc, op, layout, &a, &b)),
    }
}

/// The value is the base's address.
fn is_at_start(layout: &Layout, base: u32, value: &Value) -> bool
    ensures { result ≡ operators.is_zero (addresses.distance (layout_of layout.now) base (value_of value.now)) }
{
    let bytes = wide(value.number) - object_of(layout, base).address as i128;
    bytes <= 0 && 0 <= bytes
}

fn is_func(sort: BaseSort) -> bool
    ensures { result ≡ calls.is_func sort }
{
    match sort {
        BaseSort::Func => true,
        BaseSort::Static | BaseSort::Local | BaseSort::Formal => false,
        BaseSort::Text | BaseSort::Context => false,
    }
}

fn is_pointer_to(t: &CType, to: &CType) -> bool
    ensures { result ≡ is_compatible (type_of t.now) (types.Pointer (type_of to.now)) }
{
    match t {
        CType::Ptr(of) => of.get().is_compatible(to),
        CType::Void => false,
        CType::Int(_) => false,
        CType::Array(_, _) => false,
        CType::Comp(_) => false,
        CType::Func(_) => false,
    }
}

fn has_type(base: &Base, t: ImpliedType<'_>) -> bool
    ensures { result ≡ is_compatible (type_of base.now.ctype) (implied_of t.entry) }
{
    match t {
        ImpliedType::Given(t) => base.ctype.is_compatible(t),
        ImpliedType::PointerTo(to) => is_pointer_to(&base.ctype, to),
        ImpliedType::Long => base.ctype.is_compatible(&CType::Int(IntKind::Long)),
        ImpliedType::Void => base.ctype.is_compatible(&CType::Void),
    }
}

fn is_of_type(base: &Base, t: ImpliedType<'_>) -> bool
    ensures { result ≡ calls.is_function_of (implied_of t.entry) (Some (base_of base.now)) }
{
    is_func(base.sort) && has_type(base, t)
}

/// The base is a function of a type that is compatible with this one (C11 6.2.7).
fn is_function_of(program: &TypedProgram, t: ImpliedType<'_>, base: u32) -> bool
    ensures { result ≡ calls.is_function_of (implied_of t.entry) (base_at (map base_of program.now.bases) base) }
{
    match base_in(program, base) {
        None => false,
        Some(b) => is_of_type(b, t),
    }
}

/// The function of a compatible type whose address the value is.
pub fn called_function(
    program: &TypedProgram,
    layout: &Layout,
    t: ImpliedType<'_>,
    value: &Value,
) -> Result<u32, Kind>
    ensures { result ≡ parts.called_function (program_of program.now) (layout_of layout.now) (implied_of t.entry) (value_of value.now) }
{
    let Some(base) = only_base(layout, value) else {
        return Err(Kind::FunctionPointer);
    };
    if is_function_of(program, t, base) && is_at_start(layout, base, value) {
        Ok(base)
    } else {
        Err(Kind::FunctionPointer)
    }
}

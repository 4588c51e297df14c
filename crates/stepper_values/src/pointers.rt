//! C's operators on pointers (C11 6.5.6, 6.5.8, 6.5.9, 6.5.2.1).

ghost use Rattle.std.specs.Prelude.{◌≡◌, ◌≤◌, ◌<◌, ◌*◌, ◌^◌, ◌==◌, ◌-ℤ◌, ◌≤ℤ◌, ◌&&◌, neg_ℤ, pos, cond, not, int_div, unsigned_abs, None, Some, IfOk};
ghost use Rattle.std.specs.List.{list_any};
ghost use Rattle.std.specs.FinSet as sets;
ghost use Rattle.c_machine.specs.Parts as parts;
ghost use Rattle.c_pointers.specs.Addresses as addresses;
ghost use Rattle.c_pointers.specs.Pointers as pointers;
ghost use Rattle.stepper_values.specs.Views.{number_of, bases_of, value_of, value_result_of, layout_of};

use crate::layout::Layout;
use crate::number::{Number, compared, is_zero, moved_number, wide};
use crate::places::object_of;
use crate::value::{Value, plain};
use c_base::integer::Machine;
use c_base::kind::Kind;
use c_base::operators::BinOp;
use std::alloc::{AllocError, Global};

/// Two lists one behind the other.
fn united_bases(value: Value, other: Value, number: Number) -> Result<Value, AllocError>
    ensures { IfOk result (λ v. value_of v ≡ record { number = number_of number; provenance = sets.union (value_of value).provenance (value_of other).provenance }) }
{
    let mut bases = value.bases;
    bases.append(other.bases)?;
    Ok(Value { number, bases })
}

/// A pointer so many elements behind another, or, `back`, before it.
pub fn moved(
    back: bool,
    machine: Machine,
    size: u64,
    pointer: Value,
    count: Value,
) -> Result<Value, AllocError>
    requires { size ≤ 2 ^ 62 }
    ensures { IfOk result (λ v. value_of v ≡ cond back (pointers.moved_back machine size (value_of pointer) (value_of count)) (pointers.moved machine size (value_of pointer) (value_of count))) }
{
    let number = moved_number(back, machine, size, pointer.number, count.number);
    united_bases(pointer, count, number)
}

/// The list names another base than this one.
fn has_others(bases: &[u32], base: u32) -> bool
    ensures { result ≡ list_any (λ b. not (b == base)) bases.now }
{
    bases.iter().any(|b| !(*b == base))
}

/// The only base from whose address the value was made.
pub fn only_base(layout: &Layout, value: &Value) -> Option<u32>
    ensures { result ≡ addresses.only_base (layout_of layout.now) (value_of value.now) }
{
    let bases = value.bases.as_slice();
    if bases.is_empty() {
        return None;
    }
    let first = bases[0];
    if has_others(bases, first) {
        return None;
    }
    if first as usize >= layout.objects.len() {
        return None;
    }
    Some(first)
}

/// The value was made from no address.
fn is_plain(value: &Value) -> bool
    ensures { result ≡ addresses.is_plain (value_of value.now) }
{
    value.bases.as_slice().is_empty()
}

/// How many bytes the value lies behind the base's first one.
fn distance(layout: &Layout, base: u32, value: &Value) -> i128
    ensures value { result ≡ addresses.distance (layout_of layout.now) base (value_of value.now) }
    ensures least { neg_ℤ (pos (2 ^ 65)) ≤ℤ result }
    ensures greatest { result ≤ℤ pos (2 ^ 65) }
{
    wide(value.number) - object_of(layout, base).address as i128
}

fn is_in_or_behind(layout: &Layout, base: u32, value: &Value) -> bool
    ensures { result ≡ addresses.is_in_or_behind (layout_of layout.now) base (value_of value.now) }
{
    let bytes = distance(layout, base, value);
    0 <= bytes && bytes <= object_of(layout, base).size as i128
}

fn is_inside(layout: &Layout, base: u32, value: &Value) -> bool
    ensures { result ≡ addresses.is_inside (layout_of layout.now) base (value_of value.now) }
{
    let bytes = distance(layout, base, value);
    0 <= bytes && bytes + 1 <= object_of(layout, base).size as i128
}

/// Both point into one object, or to its end.
fn are_of_one_object(layout: &Layout, a: &Value, b: &Value) -> bool
    ensures { result ≡ pointers.are_of_one_object (layout_of layout.now) (value_of a.now) (value_of b.now) }
{
    match (only_base(layout, a), only_base(layout, b)) {
        (Some(base), Some(other)) => base == other
            && is_in_or_behind(layout, base, a)
            && is_in_or_behind(layout, base, b),
        (Some(_), None) => false,
        (None, _) => false,
    }
}

/// How many elements one number of bytes is more than another.
fn quotient(size: u64, a: u64, b: u64) -> Number
    requires { 0 < size }
    ensures { number_of result ≡ int_div (pos a -ℤ pos b) (pos size) }
{
    if b <= a {
        return Number::Natural((a - b) / size);
    }
    let elements = (b - a) / size;
    if elements == 0 {
        Number::Natural(0)
    } else {
        Number::Negative(elements - 1)
    }
}

/// How many elements lie between two pointers into one object, or the kind of the undefined step.
pub fn difference(
    alloc: Global,
    layout: &Layout,
    size: u64,
    a: &Value,
    b: &Value,
) -> Result<Value, Kind>
    requires { 0 < size }
    ensures { value_result_of result ≡ pointers.difference (layout_of layout.now) size (value_of a.now) (value_of b.now) }
{
    if !are_of_one_object(layout, a, b) {
        return Err(Kind::DifferingBlocks);
    }
    match (a.number, b.number) {
        (Number::Natural(x), Number::Natural(y)) => Ok(plain(alloc, quotient(size, x, y))),
        (Number::Natural(_), Number::Negative(_)) => Err(Kind::DifferingBlocks),
        (Number::Negative(_), _) => Err(Kind::DifferingBlocks),
    }
}

/// A null pointer.
fn is_null(value: &Value) -> bool
    ensures { result ≡ pointers.is_null (value_of value.now) }
{
    is_plain(value) && is_zero(value.number)
}

fn points_to_some(layout: &Layout, value: &Value) -> bool
    ensures { result ≡ pointers.points_to_some (layout_of layout.now) (value_of value.now) (addresses.only_base (layout_of layout.now) (value_of value.now)) }
{
    match only_base(layout, value) {
        Some(base) => is_in_or_behind(layout, base, value),
        None => false,
    }
}

/// Both point to bytes of objects, which are different ones.
fn point_apart(layout: &Layout, a: &Value, b: &Value) -> bool
    ensures { result ≡ pointers.points_apart (layout_of layout.now) (value_of a.now) (value_of b.now) (addresses.only_base (layout_of layout.now) (value_of a.now)) (addresses.only_base (layout_of layout.now) (value_of b.now)) }
{
    match (only_base(layout, a), only_base(layout, b)) {
        (Some(base), Some(other)) => !(base == other)
            && is_inside(layout, base, a)
            && is_inside(layout, other, b),
        (Some(_), None) => false,
        (None, _) => false,
    }
}

fn are_comparable(layout: &Layout, a: &Value, b: &Value) -> bool
    ensures { result ≡ pointers.are_comparable (layout_of layout.now) (value_of a.now) (value_of b.now) }
{
    (is_plain(a) && is_plain(b))
        || (is_null(a) && points_to_some(layout, b))
        || (is_null(b) && points_to_some(layout, a))
        || are_of_one_object(layout, a, b)
        || point_apart(layout, a, b)
}

fn may_compare(op: BinOp, layout: &Layout, a: &Value, b: &Value) -> bool
    ensures { result ≡ pointers.may_compare op (layout_of layout.now) (value_of a.now) (value_of b.now) }
{
    match op {
        BinOp::Eq | BinOp::Ne => are_comparable(layout, a, b),
        BinOp::Lt | BinOp::Le | BinOp::Gt | BinOp::Ge => are_of_one_object(layout, a, b),
        BinOp::Add | BinOp::Sub | BinOp::Mul | BinOp::Div | BinOp::Rem => are_of_one_object(
            layout, a, b,
        ),
        BinOp::And | BinOp::Or | BinOp::Xor | BinOp::Shl | BinOp::Shr => are_of_one_object(
            layout, a, b,
        ),
    }
}

/// What a comparison of pointers gives, or its kind of undefined step.
pub fn comparison(
    alloc: Global,
    op: BinOp,
    layout: &Layout,
    a: &Value,
    b: &Value,
) -> Result<Value, Kind>
    ensures { value_result_of result ≡ pointers.comparison op (layout_of layout.now) (value_of a.now) (value_of b.now) }
{
    if !may_compare(op, layout, a, b) {
        return Err(Kind::PtrComparison);
    }
    let truth = compared(op, a.number, b.number);
    Ok(plain(alloc, Number::Natural(if truth { 1 } else { 0 })))
}

fn is_index(count: u64, end: bool, index: Number) -> bool
    ensures { result ≡ parts.is_index count end (number_of index) }
{
    match index {
        Number::Natural(n) => if end { n <= count } else { n < count },
        Number::Negative(_) => false,
    }
}

/// How many bits an element lies behind the first one, if there is one with the index.
pub fn element_offset(bytes: u64, count: u64, end: bool, index: Number) -> Option<u128>
    requires { bytes ≤ 2 ^ 60 }
    ensures { result ≡ cond (parts.is_index count end (number_of index)) (Some (8 * (bytes * unsigned_abs (number_of index)))) None }
{
    match index {
        Number::Natural(n) => {
            if is_index(count, end, index) {
                Some(8 * (bytes as u128 * n as u128))
            } else {
                None
            }
        }
        Number::Negative(_) => None,
    }
}

/// The place of an element of an array of `count` elements, or the kind of the undefined step; `end` tells whether the array's end is a place
/// too.
pub fn element_at(
    machine: Machine,
    size: u64,
    count: u64,
    end: bool,
    array: Value,
    index: Value,
) -> Result<Result<Value, Kind>, AllocError>
    requires { size ≤ 2 ^ 62 }
    ensures { IfOk result (λ place. value_result_of place ≡ pointers.element_at machine size count end (value_of array) (value_of index)) }
{
    if !is_index(count, end, index.number) {
        return Ok(Err(Kind::IndexBound));
    }
    Ok(Ok(moved(false, machine, size, array, index)?))
}

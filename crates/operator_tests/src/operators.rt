//! Operators on pointers to elements of 4 bytes.

use aops::Computed;
use aops_by_type::{Operand, abs_binary};
use avalue_values::{AVal, Mem};
use c_base::integer::{IntKind, Machine};
use c_base::kind::Kind;
use c_base::operators::BinOp;
use ival_core::Ival;
use pointer_tests::places::{Two, byte, is_mix, is_number, number};
use std::alloc::Global;

const LONG: Operand = Operand::Integer(IntKind::Long);

const POINTER: Operand = Operand::Pointer(4);

pub(crate) fn plus(alloc: Global, a: &AVal, b: &AVal) -> Mem<Computed> {
    abs_binary(alloc, BinOp::Add, POINTER, LONG, Machine::Lp64, &Two, a, b)
}

pub(crate) fn minus(alloc: Global, a: &AVal, b: &AVal) -> Mem<Computed> {
    abs_binary(alloc, BinOp::Sub, POINTER, LONG, Machine::Lp64, &Two, a, b)
}

pub(crate) fn distance(alloc: Global, a: &AVal, b: &AVal) -> Mem<Computed> {
    abs_binary(
        alloc,
        BinOp::Sub,
        POINTER,
        POINTER,
        Machine::Lp64,
        &Two,
        a,
        b,
    )
}

pub(crate) fn less(alloc: Global, a: &AVal, b: &AVal) -> Mem<Computed> {
    abs_binary(
        alloc,
        BinOp::Lt,
        POINTER,
        POINTER,
        Machine::Lp64,
        &Two,
        a,
        b,
    )
}

pub(crate) fn equal(alloc: Global, a: &AVal, b: &AVal) -> Mem<Computed> {
    abs_binary(
        alloc,
        BinOp::Eq,
        POINTER,
        POINTER,
        Machine::Lp64,
        &Two,
        a,
        b,
    )
}

pub(crate) fn is_defined(c: &Computed, n: i32) -> bool {
    is_number(&c.value, n)
        && !c.kinds.allows(Kind::PtrComparison)
        && !c.kinds.allows(Kind::DifferingBlocks)
}

pub(crate) fn is_undefined(c: &Computed, kind: Kind) -> bool {
    c.value.is_nothing() && c.kinds.allows(kind)
}

/// Whether the first byte of base 1 moved by the value leaves the base alone to be told.
fn leaves(alloc: Global, count: &AVal) -> Mem<bool> {
    let first = byte(alloc, 1, 0)?;
    let moved = plus(alloc, &first, count)?;
    Ok(is_mix(&moved.value, 1))
}

fn product(alloc: Global, a: i32, b: i32) -> Mem<Computed> {
    let one = number(a);
    let other = number(b);
    abs_binary(
        alloc,
        BinOp::Mul,
        LONG,
        LONG,
        Machine::Lp64,
        &Two,
        &one,
        &other,
    )
}

fn leaves_far(alloc: Global) -> Mem<bool> {
    let count = product(alloc, 1 << 30, 0x7fff_ffff)?;
    leaves(alloc, &count.value)
}

/// An address isn't a count.
fn leaves_by_address(alloc: Global) -> Mem<bool> {
    let count = byte(alloc, 1, 0)?;
    leaves(alloc, &count)
}

/// A pointer to elements of so many bytes that some counts of them are more bytes than a set may hold.
const FAR: Operand = Operand::Pointer(3 << 60);

fn far_plus(alloc: Global, a: &AVal, b: &AVal) -> Mem<Computed> {
    abs_binary(alloc, BinOp::Add, FAR, LONG, Machine::Lp64, &Two, a, b)
}

fn far_minus(alloc: Global, a: &AVal, b: &AVal) -> Mem<Computed> {
    abs_binary(alloc, BinOp::Sub, FAR, LONG, Machine::Lp64, &Two, a, b)
}

fn is_only(v: &AVal, n: i128) -> bool {
    match v.numbers_alone() {
        None => false,
        Some(numbers) => numbers.as_single() == Some(n),
    }
}

/// The pointer 5, made from no address: 3 times 2 to the 60, times 2 to the 62 and one more, leaves 3 times 2 to the 60 modulo 2 to the 64.
fn numbers_move_far(alloc: Global) -> Mem<bool> {
    let count = AVal::number(Ival::single((1 << 62) + 1));
    let up = far_plus(alloc, &number(5), &count)?;
    let down = far_minus(alloc, &number(5), &count)?;
    Ok(is_only(&up.value, (3 << 60) + 5) && is_only(&down.value, (13 << 60) + 5))
}

/// 2 to the 30 elements are near, and 2 to the 30 times almost 2 to the 31 aren't.
fn far_moves(alloc: Global) -> Mem<bool> {
    Ok(!leaves(alloc, &number(1 << 30))? && leaves_far(alloc)? && leaves_by_address(alloc)?)
}

fn null_or_byte(alloc: Global) -> Mem<AVal> {
    let one = byte(alloc, 1, 4)?;
    one.join(alloc, &number(0))
}

fn may_be_either(c: &Computed) -> bool {
    !c.kinds.allows(Kind::PtrComparison)
        && number(0).included(&c.value)
        && number(1).included(&c.value)
}

/// A pointer that may be null is tested without a kind, and may be either.
fn null_tests(alloc: Global) -> Mem<bool> {
    let maybe = null_or_byte(alloc)?;
    let tested = equal(alloc, &number(0), &maybe)?;
    Ok(may_be_either(&tested))
}

#[test]
fn far_moves_leave_the_base(rt: HostRuntime) {
    assert!(rt; far_moves(rt.alloc()) == Ok(true));
}

#[test]
fn numbers_that_are_pointers_move_any_way(rt: HostRuntime) {
    assert!(rt; numbers_move_far(rt.alloc()) == Ok(true));
}

#[test]
fn a_null_test_has_no_kind(rt: HostRuntime) {
    assert!(rt; null_tests(rt.alloc()) == Ok(true));
}

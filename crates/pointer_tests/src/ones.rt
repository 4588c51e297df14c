//! Operators with one operand, and conversions.

use crate::places::{byte, is_byte, is_mix, is_number, number};
use aops_convert::abs_convert;
use aops_unary::abs_unary;
use avalue_values::{AVal, Mem};
use c_base::integer::{IntKind, Machine};
use c_base::kind::Kind;
use c_base::operators::UnOp;
use c_types::ctype::CType;
use sqlite_items::Boxed;
use std::alloc::Global;

fn gives(alloc: Global, op: UnOp, n: i32, expected: i32) -> Mem<bool> {
    let answer = abs_unary(alloc, op, IntKind::Int, Machine::Lp64, &number(n))?;
    Ok(is_number(&answer.value, expected) && !answer.kinds.allows(Kind::SignedOverflow))
}

fn numbers(alloc: Global) -> Mem<bool> {
    Ok(
        gives(alloc, UnOp::Neg, 5, -5)?
            && gives(alloc, UnOp::Compl, 5, -6)?
            && gives(alloc, UnOp::Not, 5, 0)?
            && gives(alloc, UnOp::Not, 0, 1)?,
    )
}

/// The least number has no negative.
fn overflow(alloc: Global) -> Mem<bool> {
    let answer = abs_unary(
        alloc,
        UnOp::Neg,
        IntKind::Int,
        Machine::Lp64,
        &number(-0x8000_0000),
    )?;
    Ok(answer.value.is_nothing() && answer.kinds.allows(Kind::SignedOverflow))
}

/// An address that is negated leaves its base alone.
fn address(alloc: Global) -> Mem<bool> {
    let first = byte(alloc, 1, 4)?;
    let answer = abs_unary(alloc, UnOp::Neg, IntKind::ULong, Machine::Lp64, &first)?;
    Ok(is_mix(&answer.value, 1))
}

fn to_kind(alloc: Global, kind: IntKind, v: &AVal) -> Mem<AVal> {
    abs_convert(alloc, &CType::Int(kind), Machine::Lp64, v)
}

fn becomes(alloc: Global, kind: IntKind, n: i32, expected: i32) -> Mem<bool> {
    let answer = to_kind(alloc, kind, &number(n))?;
    Ok(is_number(&answer, expected))
}

fn converted_numbers(alloc: Global) -> Mem<bool> {
    Ok(
        becomes(alloc, IntKind::UChar, -1, 255)?
            && becomes(alloc, IntKind::SChar, 200, -56)?
            && becomes(alloc, IntKind::Bool, 7, 1)?
            && becomes(alloc, IntKind::Bool, 0, 0)?,
    )
}

/// An address in an integer of this kind.
fn address_in(alloc: Global, kind: IntKind) -> Mem<AVal> {
    let first = byte(alloc, 1, 4)?;
    to_kind(alloc, kind, &first)
}

fn address_in_pointer(alloc: Global) -> Mem<AVal> {
    let first = byte(alloc, 1, 4)?;
    let to = CType::Ptr(Boxed::new(alloc, CType::Void)?);
    abs_convert(alloc, &to, Machine::Lp64, &first)
}

fn is_told(v: &AVal) -> bool {
    is_byte(v, 1, 4)
}

fn is_mixed_in(alloc: Global, kind: IntKind) -> Mem<bool> {
    let answer = address_in(alloc, kind)?;
    Ok(is_mix(&answer, 1))
}

/// An address stays in a pointer and in an unsigned long; in a char and in a long its base alone is told.
fn converted_addresses(alloc: Global) -> Mem<bool> {
    Ok(
        is_told(&address_in_pointer(alloc)?)
            && is_told(&address_in(alloc, IntKind::ULong)?)
            && is_mixed_in(alloc, IntKind::Char)?
            && is_mixed_in(alloc, IntKind::Long)?,
    )
}

#[test]
fn numbers_have_one_result(rt: HostRuntime) {
    assert!(rt; numbers(rt.alloc()) == Ok(true));
}

#[test]
fn the_least_number_has_no_negative(rt: HostRuntime) {
    assert!(rt; overflow(rt.alloc()) == Ok(true));
}

#[test]
fn a_negated_address_is_a_mix(rt: HostRuntime) {
    assert!(rt; address(rt.alloc()) == Ok(true));
}

#[test]
fn numbers_are_converted(rt: HostRuntime) {
    assert!(rt; converted_numbers(rt.alloc()) == Ok(true));
}

#[test]
fn addresses_are_converted(rt: HostRuntime) {
    assert!(rt; converted_addresses(rt.alloc()) == Ok(true));
}

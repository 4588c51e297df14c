//! The widening of values and cells.

use crate::places::{Two, byte, number};
use avalue::Cellv;
use avalue_values::{AVal, Mem};
use ival_core::Ival;
use std::alloc::Global;

fn has_bounds(v: &AVal, low: i128, high: i128) -> bool {
    match v.numbers_alone() {
        None => false,
        Some(numbers) => numbers.bounds() == Some((low, high)),
    }
}

/// A bound that moves goes to the next mark.
fn numbers(alloc: Global) -> Mem<bool> {
    let grown = number(0).widen(alloc, &number(1), &Two, &[-5, 100])?;
    Ok(has_bounds(&grown, 0, 100))
}

/// The bytes 0 and 4 of base 1, widened.
fn widened(alloc: Global) -> Mem<AVal> {
    let first = byte(alloc, 1, 0)?;
    let second = byte(alloc, 1, 4)?;
    first.widen(alloc, &second, &Two, &[])
}

fn holds_byte(alloc: Global, v: &AVal, offset: i32) -> Mem<bool> {
    let one = byte(alloc, 1, offset)?;
    Ok(one.included(v))
}

/// Offsets go to the end of the base before they go on.
fn offsets(alloc: Global) -> Mem<bool> {
    let grown = widened(alloc)?;
    Ok(holds_byte(alloc, &grown, 8)? && !holds_byte(alloc, &grown, 12)?)
}

fn cell(value: AVal) -> Cellv {
    Cellv {
        value: Some(value),
        uninit: false,
        dead: false,
    }
}

fn grown_by(alloc: Global, from: &Cellv, n: i32) -> Mem<Cellv> {
    from.widen_in(alloc, 8, &cell(number(n)), &Two, &[])
}

fn are_alike(a: &Cellv, b: &Cellv) -> bool {
    a.included(b) && b.included(a)
}

/// A cell of 8 bits goes to 127 and then to 255.
fn cells(alloc: Global) -> Mem<bool> {
    let grown = grown_by(alloc, &cell(number(0)), 1)?;
    let again = grown_by(alloc, &grown, 128)?;
    let half = cell(AVal::number(Ival::range(0, 127, 0, 1)));
    let whole = cell(AVal::number(Ival::range(0, 255, 0, 1)));
    Ok(are_alike(&grown, &half) && are_alike(&again, &whole))
}

#[test]
fn numbers_grow_to_marks(rt: HostRuntime) {
    assert!(rt; numbers(rt.alloc()) == Ok(true));
}

#[test]
fn offsets_grow_to_the_end_of_the_base(rt: HostRuntime) {
    assert!(rt; offsets(rt.alloc()) == Ok(true));
}

#[test]
fn cells_grow_to_the_ends_of_their_bits(rt: HostRuntime) {
    assert!(rt; cells(rt.alloc()) == Ok(true));
}

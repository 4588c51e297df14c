//! Values: numbers, addresses and mixes.

use avalue::{AVal, Mem, Part};
use c_base::number::BaseId;
use ival_core::Ival;
use std::alloc::Global;

/// Whether part `n` is an address of the base with this offset among its offsets.
fn has_address(v: &AVal, n: usize, base: u32, offset: i128) -> bool {
    match v.part(n) {
        None => false,
        Some(part) => match part {
            Part::Number(_) => false,
            Part::Mix(_) => false,
            Part::Address(id, offsets) => id.0 == base && offsets.contains(offset),
        },
    }
}

fn has_number(v: &AVal, n: i128) -> bool {
    match v.part(0) {
        None => false,
        Some(part) => match part {
            Part::Number(numbers) => numbers.contains(n),
            Part::Mix(_) => false,
            Part::Address(_, _) => false,
        },
    }
}

fn is_mix_of(v: &AVal, n: usize, base: u32) -> bool {
    match v.part(n) {
        None => false,
        Some(part) => match part {
            Part::Number(_) => false,
            Part::Mix(id) => id.0 == base,
            Part::Address(_, _) => false,
        },
    }
}

fn ends_at(v: &AVal, n: usize) -> bool {
    v.part(n).is_none()
}

/// 7, and the bytes 0 and 8 of base 2, and byte 4 of base 5.
fn sample(alloc: Global) -> Mem<AVal> {
    let first = AVal::address(alloc, BaseId(5), Ival::single(4))?;
    let second = AVal::address(alloc, BaseId(2), Ival::single(0))?;
    let third = AVal::address(alloc, BaseId(2), Ival::single(8))?;
    let number = AVal::number(Ival::single(7));
    first
        .join(alloc, &second)?
        .join(alloc, &third)?
        .join(alloc, &number)
}

fn joins(alloc: Global) -> Mem<bool> {
    let all = sample(alloc)?;
    Ok(
        has_number(&all, 7)
            && has_address(&all, 1, 2, 0)
            && has_address(&all, 1, 2, 8)
            && has_address(&all, 2, 5, 4)
            && ends_at(&all, 3),
    )
}

fn inclusions(alloc: Global) -> Mem<bool> {
    let all = sample(alloc)?;
    let part = AVal::address(alloc, BaseId(2), Ival::single(8))?;
    let other = AVal::address(alloc, BaseId(2), Ival::single(4))?;
    let mix = AVal::mix(alloc, &[BaseId(5), BaseId(2), BaseId(5)])?;
    Ok(
        part.included(&all)
            && !other.included(&all)
            && !all.included(&part)
            && all.included(&mix)
            && !mix.included(&all),
    )
}

/// Byte 8 of base 2 and byte 1 of base 3, and 7.
fn other(alloc: Global) -> Mem<AVal> {
    let first = AVal::address(alloc, BaseId(2), Ival::single(8))?;
    let second = AVal::address(alloc, BaseId(3), Ival::single(1))?;
    first
        .join(alloc, &second)?
        .join(alloc, &AVal::number(Ival::single(7)))
}

fn meets(alloc: Global) -> Mem<bool> {
    let all = sample(alloc)?;
    let both = all.meet(alloc, &other(alloc)?)?;
    let mix = AVal::mix(alloc, &[BaseId(3), BaseId(5)])?;
    let mixed = mix.meet(alloc, &all)?;
    Ok(
        has_number(&both, 7)
            && has_address(&both, 1, 2, 8)
            && !has_address(&both, 1, 2, 0)
            && ends_at(&both, 2)
            && has_number(&mixed, 7)
            && has_address(&mixed, 1, 5, 4)
            && ends_at(&mixed, 2),
    )
}

fn mixes(alloc: Global) -> Mem<bool> {
    let mix = AVal::mix(alloc, &[BaseId(5), BaseId(2), BaseId(5)])?;
    let more = mix.join(alloc, &AVal::address(alloc, BaseId(3), Ival::single(1))?)?;
    let copy = more.duplicate(alloc)?;
    let left = copy.forget_base(alloc, BaseId(3))?;
    Ok(
        is_mix_of(&more, 0, 2)
            && is_mix_of(&more, 1, 3)
            && is_mix_of(&more, 2, 5)
            && ends_at(&more, 3)
            && is_mix_of(&left, 1, 5)
            && ends_at(&left, 2),
    )
}

#[test]
fn values_join(rt: HostRuntime) {
    assert!(rt; joins(rt.alloc()) == Ok(true));
}

#[test]
fn values_are_compared(rt: HostRuntime) {
    assert!(rt; inclusions(rt.alloc()) == Ok(true));
}

#[test]
fn values_meet(rt: HostRuntime) {
    assert!(rt; meets(rt.alloc()) == Ok(true));
}

#[test]
fn mixes_have_their_bases(rt: HostRuntime) {
    assert!(rt; mixes(rt.alloc()) == Ok(true));
}

//! Single calls.

use crate::sample::{get, holds, is_one, is_pair, number, put};
use avalue::{Cellv, Mem};
use offmap::OffMap;
use run_slots::offsets::Steps;
use run_slots::slots::Slots;
use std::alloc::Global;

fn bytes(alloc: Global, count: u64, n: u64) -> Mem<OffMap<Cellv>> {
    if count == 0 || count > 1_000_000_000 {
        return OffMap::uninit(alloc, 8);
    }
    OffMap::repeated(alloc, 8, count, &number(n))
}

/// One byte of a number of 32 bits.
fn second_byte(alloc: Global) -> Mem<bool> {
    let map = OffMap::uninit(alloc, 32)?;
    let map = put(alloc, &map, 0, 32, 258)?;
    let Some(byte) = get(alloc, &map, 8, 8)? else {
        return Ok(false);
    };
    Ok(is_one(&byte) && holds(&byte, 8, 1))
}

/// Whether it is one range of bytes that hold 1 and 7 and nothing else.
fn are_both(map: &OffMap<Cellv>, count: u64) -> bool {
    let ranges = map.ranges();
    if ranges.len() != 1 {
        return false;
    }
    let range = &ranges[0];
    range.bits == 8 && range.count == count && is_pair(&range.cell, 1, 7)
}

/// A store at one of two bytes.
fn weak_bytes(alloc: Global) -> Mem<bool> {
    let map = bytes(alloc, 2, 1)?;
    let offsets = [0, 8];
    if map.bits() != 16 {
        return Ok(false);
    }
    let map = map.store_weak(alloc, &offsets, 8, &number(7))?;
    Ok(are_both(&map, 2))
}

/// The same for very many: one range.
fn weak_slots(alloc: Global) -> Mem<bool> {
    let count = 1_000_000_000;
    let map = bytes(alloc, count, 1)?;
    if map.bits() != 8_000_000_000 {
        return Ok(false);
    }
    let slots = Slots { bits: 8, gap: 0 };
    let map = map.store_slots(alloc, 0, slots, count - 1, &number(7))?;
    if map.bits() != 8_000_000_000 {
        return Ok(false);
    }
    let steps = Steps {
        first: 0,
        step: 8,
        more: count - 1,
    };
    let all = map.load_steps(alloc, steps, 8)?;
    Ok(are_both(&map, count) && is_pair(&all, 1, 7))
}

/// Numbers of 32 bits beside bytes, very many of both: which includes which, and their join.
fn nested(alloc: Global) -> Mem<bool> {
    let small = bytes(alloc, 1_000_000_000, 0)?;
    let large = OffMap::repeated(alloc, 32, 250_000_000, &number(0))?;
    if small.bits() != large.bits() {
        return Ok(false);
    }
    let joined = OffMap::join(alloc, &small, &large)?;
    let other = OffMap::join(alloc, &large, &small)?;
    Ok(
        small.included(&large)
            && large.included(&small)
            && joined.ranges().len() == 1
            && other.ranges().len() == 1,
    )
}

/// A store in one of very many numbers, and a store of what was there before.
fn one_of_many(alloc: Global) -> Mem<bool> {
    let map = OffMap::repeated(alloc, 32, 1_073_741_824, &number(0))?;
    let changed = put(alloc, &map, 32_000, 32, 7)?;
    let Some(cell) = get(alloc, &changed, 32_000, 32)? else {
        return Ok(false);
    };
    let back = put(alloc, &changed, 32_000, 32, 0)?;
    Ok(
        map.ranges().len() == 1
            && changed.ranges().len() == 3
            && back.ranges().len() == 1
            && is_one(&cell)
            && holds(&cell, 32, 7),
    )
}

/// The join of very many numbers with those of which one is another.
fn one_is_joined(alloc: Global) -> Mem<bool> {
    let map = OffMap::repeated(alloc, 32, 1_073_741_824, &number(0))?;
    let changed = put(alloc, &map, 32_000, 32, 7)?;
    if map.bits() != changed.bits() {
        return Ok(false);
    }
    let joined = OffMap::join(alloc, &map, &changed)?;
    if joined.bits() != map.bits() || joined.bits() != changed.bits() {
        return Ok(false);
    }
    let Some(cell) = get(alloc, &joined, 32_000, 32)? else {
        return Ok(false);
    };
    Ok(
        joined.ranges().len() == 3
            && is_pair(&cell, 0, 7)
            && map.included(&joined)
            && changed.included(&joined)
            && !joined.included(&changed),
    )
}

#[test]
fn a_byte_of_a_number_is_its_second(rt: HostRuntime) {
    assert!(rt; second_byte(rt.alloc()) == Ok(true));
}

#[test]
fn a_weak_store_leaves_both(rt: HostRuntime) {
    assert!(rt; weak_bytes(rt.alloc()) == Ok(true));
}

#[test]
fn a_weak_store_to_many_slots_is_one_range(rt: HostRuntime) {
    assert!(rt; weak_slots(rt.alloc()) == Ok(true));
}

#[test]
fn many_elements_in_few_are_joined_at_once(rt: HostRuntime) {
    assert!(rt; nested(rt.alloc()) == Ok(true));
}

#[test]
fn a_store_in_many_elements_leaves_three_ranges(rt: HostRuntime) {
    assert!(rt; one_of_many(rt.alloc()) == Ok(true));
}

#[test]
fn a_join_of_many_elements_changes_one(rt: HostRuntime) {
    assert!(rt; one_is_joined(rt.alloc()) == Ok(true));
}

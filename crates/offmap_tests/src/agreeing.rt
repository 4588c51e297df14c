//! Numbers that have the same bits in an element.

use crate::sample::{get, holds, is_one, number, put};
use avalue::{AVal, Cellv, Mem};
use ival_core::Ival;
use offmap::OffMap;
use std::alloc::Global;

/// The cell of 1 and 257.
fn both() -> Cellv {
    Cellv {
        value: Some(AVal::number(Ival::single(1).join(&Ival::single(257)))),
        uninit: false,
        dead: false,
    }
}

/// Two bytes: the cell, and behind it 2.
fn bytes(alloc: Global, cell: &Cellv) -> Mem<OffMap<Cellv>> {
    let map = OffMap::uninit(alloc, 16)?;
    if map.bits() != 16 {
        return Ok(map);
    }
    let map = map.store(alloc, 0, 8, cell)?;
    put(alloc, &map, 8, 8, 2)
}

/// Whether a load of some bits finds this number alone.
fn finds(alloc: Global, map: &OffMap<Cellv>, bits: u64, n: u64) -> Mem<bool> {
    let Some(cell) = get(alloc, map, 0, bits)? else {
        return Ok(false);
    };
    Ok(is_one(&cell) && holds(&cell, bits, n))
}

/// 1 and 257 are one byte: so are parts of it, and what it is read with.
fn agreeing(alloc: Global) -> Mem<bool> {
    let first = bytes(alloc, &both())?;
    let second = bytes(alloc, &number(1))?;
    if first.bits() != second.bits() {
        return Ok(false);
    }
    if !first.included(&second) || !second.included(&first) {
        return Ok(false);
    }
    let joined = OffMap::join(alloc, &first, &second)?;
    if !finds(alloc, &joined, 8, 1)? {
        return Ok(false);
    }
    if !finds(alloc, &first, 4, 1)? {
        return Ok(false);
    }
    finds(alloc, &first, 16, 513)
}

#[test]
fn numbers_with_the_same_bits_are_one(rt: HostRuntime) {
    assert!(rt; agreeing(rt.alloc()) == Ok(true));
}

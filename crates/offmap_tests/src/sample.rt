//! Cells with numbers, and what maps hold of them.
ghost use Rattle.std.specs.Prelude.{◌≡◌, ℕ, ◌≤◌};

use avalue::{AVal, Cellv, Mem};
use ival_core::Ival;
use offmap::OffMap;
use std::alloc::Global;

/// The cell of one number.
pub fn number(n: u64) -> Cellv {
    let n = i128::from(n);
    Cellv {
        value: Some(AVal::number(Ival::single(n))),
        uninit: false,
        dead: false,
    }
}

/// 2 to the number of bits, of at most 64.
fn modulus(bits: u64) -> i128 {
    let mut m = 1;
    let mut left = bits.min(64);
    while left > 0 {
        m = i128::wrapping_mul(m, 2);
        left -= 1;
    }
    m
}

/// Whether both numbers have the same low bits.
fn agree(a: i128, b: i128, bits: u64) -> bool {
    let m = modulus(bits);
    if m <= 0 {
        return false;
    }
    a.rem_euclid(m) == b.rem_euclid(m)
}

/// Whether one of a cell's numbers has the low bits of this one.
pub fn holds(cell: &Cellv, bits: u64, n: u64) -> bool {
    let Some(value) = &cell.value else {
        return false;
    };
    let Some(numbers) = value.numbers() else {
        return false;
    };
    let n = i128::from(n);
    if let Some(list) = numbers.numbers() {
        let mut i = 0;
        while i < list.len() {
            if agree(list[i], n, bits) {
                return true;
            }
            i += 1;
        }
        return false;
    }
    let Some((low, high)) = numbers.bounds() else {
        return false;
    };
    if high.wrapping_sub(low) >= modulus(bits) {
        return true;
    }
    numbers.contains(n) || numbers.contains(n.wrapping_sub(modulus(bits)))
}

/// Whether a cell has one number alone.
pub fn is_one(cell: &Cellv) -> bool {
    let Some(value) = &cell.value else {
        return false;
    };
    let Some(numbers) = value.numbers() else {
        return false;
    };
    numbers.as_single().is_some()
}

/// Whether a cell has these two numbers alone, the lower one first, and no flag.
pub fn is_pair(cell: &Cellv, low: i128, high: i128) -> bool {
    if cell.uninit || cell.dead {
        return false;
    }
    let Some(value) = &cell.value else {
        return false;
    };
    let Some(numbers) = value.numbers() else {
        return false;
    };
    let Some(list) = numbers.numbers() else {
        return false;
    };
    value.addresses().is_empty() && list.len() == 2 && list[0] == low && list[1] == high
}

/// The map with the number there, or the map itself where that doesn't fit.
pub fn put(alloc: Global, map: &OffMap<Cellv>, at: u64, bits: u64, n: u64) -> Mem<OffMap<Cellv>> {
    let all = map.bits();
    if bits == 0 || bits > 64 || bits > all || at > all - bits {
        return map.copy(alloc, 0, all);
    }
    map.store(alloc, at, bits, &number(n))
}

/// The cell there, or none where that doesn't fit.
pub fn get(alloc: Global, map: &OffMap<Cellv>, at: u64, bits: u64) -> Mem<Option<Cellv>> {
    let all = map.bits();
    if bits == 0 || bits > 64 || bits > all || at > all - bits {
        return Ok(None);
    }
    let cell = map.load(alloc, at, bits)?;
    Ok(Some(cell))
}

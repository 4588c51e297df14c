//! Random stores, copies, loads and joins of maps, beside plain lists of bits.

use crate::draw::Random;
use crate::sample::{get, holds, is_one, put};
use avalue::{Cellv, Mem};
use offmap::OffMap;
use std::alloc::Global;

const BITS: u64 = 256;

impl Random {
    /// A size of an access: mostly bytes, words and the like.
    fn size(&mut self) -> u64 {
        match self.draw(6) {
            0 => 8,
            1 => 16,
            2 => 32,
            3 => 64,
            _ => self.draw(64) % 64 + 1,
        }
    }

    /// An offset, mostly of bytes.
    fn offset(&mut self) -> u64 {
        let at = self.draw(BITS);
        if self.draw(3) == 0 {
            return at;
        }
        at / 8 * 8
    }

    fn number(&mut self) -> u64 {
        let low = self.draw(0);
        let high = self.draw(0);
        match self.draw(3) {
            0 => low % 4,
            1 => low,
            _ => high.wrapping_shl(33) ^ low,
        }
    }
}

/// A map and the bits that it should have.
#[derive(Drop)]
struct Sample {
    map: OffMap<Cellv>,
    bits: Vec<bool>,
}

/// The number of some bits.
fn read(bits: &[bool], at: u64, size: u64) -> u64 {
    let mut n = 0_u64;
    let mut i = size;
    while i > 0 {
        i -= 1;
        let here = at.wrapping_add(i) as usize;
        n = n.wrapping_shl(1);
        if let Some(bit) = bits.get(here) {
            if *bit {
                n |= 1;
            }
        }
    }
    n
}

fn write(bits: &mut [bool], at: u64, size: u64, n: u64) {
    let mut rest = n;
    let mut i = 0;
    while i < size {
        let here = at.wrapping_add(i) as usize;
        if let Some(bit) = bits.get_mut(here) {
            *bit = rest % 2 == 1;
        }
        rest /= 2;
        i += 1;
    }
}

/// All bits zero.
fn zeros(alloc: Global) -> Mem<Sample> {
    let mut bits = Vec::new(alloc);
    let mut i = 0;
    while i < BITS {
        bits.push(false)?;
        i += 1;
    }
    let map = OffMap::uninit(alloc, BITS)?;
    let map = put(alloc, &map, 0, 64, 0)?;
    let map = put(alloc, &map, 64, 64, 0)?;
    let map = put(alloc, &map, 128, 64, 0)?;
    let map = put(alloc, &map, 192, 64, 0)?;
    Ok(Sample { map, bits })
}

/// A store of a random number.
fn store(alloc: Global, random: &mut Random, sample: &mut Sample) -> Mem<()> {
    let size = random.size();
    let at = random.offset();
    let n = random.number();
    if size > BITS || at > BITS - size {
        return Ok(());
    }
    sample.map = put(alloc, &sample.map, at, size, n)?;
    write(&mut sample.bits, at, size, n);
    Ok(())
}

/// Whether a load finds the number of the bits, and that alone.
fn load(alloc: Global, random: &mut Random, sample: &Sample) -> Mem<bool> {
    let size = random.size();
    let at = random.offset();
    let Some(cell) = get(alloc, &sample.map, at, size)? else {
        return Ok(true);
    };
    Ok(is_one(&cell) && holds(&cell, size, read(&sample.bits, at, size)))
}

/// Copies some bits to another place.
fn shift(alloc: Global, random: &mut Random, sample: &mut Sample) -> Mem<()> {
    let size = random.draw(100);
    let from = random.offset();
    let to = random.offset();
    let all = sample.map.bits();
    if size > all || from > all - size || to > all - size {
        return Ok(());
    }
    let part = sample.map.copy(alloc, from, size)?;
    if part.bits() != size {
        return Ok(());
    }
    sample.map = sample.map.paste(alloc, to, &part)?;
    let mut i = 0;
    let mut moved = Vec::new(alloc);
    while i < size {
        let here = from.wrapping_add(i) as usize;
        moved.push(sample.bits.get(here).copied().unwrap_or(false))?;
        i += 1;
    }
    let mut i = 0;
    while i < moved.len() {
        let there = (to as usize).wrapping_add(i);
        if let Some(bit) = sample.bits.get_mut(there) {
            *bit = moved[i];
        }
        i += 1;
    }
    Ok(())
}

/// Whether the join includes both maps, and finds the bits of both.
fn join(alloc: Global, random: &mut Random, first: &Sample, second: &Sample) -> Mem<bool> {
    if first.map.bits() != second.map.bits() {
        return Ok(false);
    }
    let joined = OffMap::join(alloc, &first.map, &second.map)?;
    if joined.bits() != first.map.bits() || joined.bits() != second.map.bits() {
        return Ok(false);
    }
    if !first.map.included(&joined) || !second.map.included(&joined) {
        return Ok(false);
    }
    let size = random.size();
    let at = random.offset();
    let Some(cell) = get(alloc, &joined, at, size)? else {
        return Ok(true);
    };
    Ok(
        holds(&cell, size, read(&first.bits, at, size))
            && holds(&cell, size, read(&second.bits, at, size)),
    )
}

/// So many random changes, each followed by a load.
fn changes(alloc: Global, count: u64) -> Mem<bool> {
    let mut random = Random { state: 1 };
    let mut first = zeros(alloc)?;
    let mut second = zeros(alloc)?;
    let mut i = 0;
    while i < count {
        match random.draw(8) {
            0 => shift(alloc, &mut random, &mut first)?,
            1 => shift(alloc, &mut random, &mut second)?,
            2 | 3 | 4 => store(alloc, &mut random, &mut second)?,
            _ => store(alloc, &mut random, &mut first)?,
        }
        if !load(alloc, &mut random, &first)? {
            return Ok(false);
        }
        if random.draw(10) == 0 {
            if !join(alloc, &mut random, &first, &second)? {
                return Ok(false);
            }
        }
        i += 1;
    }
    Ok(true)
}

#[test]
fn random_changes_are_those_of_the_bits(rt: HostRuntime) {
    assert!(rt; changes(rt.alloc(), 100_000) == Ok(true));
}

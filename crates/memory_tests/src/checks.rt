//! Whether memories and their rows describe the bytes, and no more where they are single.

use crate::bytes::{Byte, Layout, Span, describes, is_exact};
use crate::places::{ButLast, OBJECTS, Spot, is_last, place_of};
use crate::steps::{Sample, lives};
use avalue::{Cellv, Entry, Mem};
use cell_instances::OneContent;
use memory_maps::Memory;
use memory_orders::{included, join};
use memory_reads::read;
use memory_rows::row;
use memory_singles::is_single;
use std::alloc::Global;

/// Whether the cell describes the bits in both layouts.
fn describes_span(cell: &Cellv, bytes: &[Byte], span: &Span) -> bool {
    describes(cell, &Layout::low(), bytes, span) && describes(cell, &Layout::high(), bytes, span)
}

/// Whether a read of so many bytes there describes them, and no more where that is asked.
fn finds(
    alloc: Global,
    memory: &Memory<Cellv>,
    bytes: &[Byte],
    spot: &Spot,
    count: u8,
    exactly: bool,
) -> Mem<bool> {
    let bits = u64::from(count) * 8;
    if bits == 0 || bits > 64 {
        return Ok(true);
    }
    let Some(place) = place_of(memory, spot.target, spot.offset, bits) else {
        return Ok(true);
    };
    let places = [place];
    let cell = read(alloc, memory, &places, bits)?;
    let span = Span {
        first: (spot.index() as u64).wrapping_mul(8),
        bits,
    };
    Ok(describes_span(&cell, bytes, &span) && (!exactly || is_exact(&cell, bytes, &span)))
}

/// Whether a read finds the bytes, and nothing else where the memory is single.
pub(crate) fn reads(alloc: Global, sample: &Sample, spot: &Spot, count: u8) -> Mem<bool> {
    let exactly = is_single(&OneContent, &ButLast, &sample.memory) && !is_last(spot);
    finds(alloc, &sample.memory, &sample.bytes, spot, count, exactly)
}

/// Whether the memory is single, and its join with itself too, which the memory includes.
pub(crate) fn stays_single(alloc: Global, sample: &Sample) -> Mem<bool> {
    if !is_single(&OneContent, &ButLast, &sample.memory) {
        return Ok(false);
    }
    let joined = join(alloc, &sample.memory, &sample.memory)?;
    Ok(is_single(&OneContent, &ButLast, &joined) && included(&joined, &sample.memory))
}

/// Whether the join of two memories includes both, and describes the bytes of both.
pub(crate) fn joins(
    alloc: Global,
    first: &Sample,
    second: &Sample,
    spot: &Spot,
    count: u8,
) -> Mem<bool> {
    let joined = join(alloc, &first.memory, &second.memory)?;
    if !included(&first.memory, &joined) || !included(&second.memory, &joined) {
        return Ok(false);
    }
    if !finds(alloc, &joined, &first.bytes, spot, count, false)? {
        return Ok(false);
    }
    finds(alloc, &joined, &second.bytes, spot, count, false)
}

/// Whether each element of the entry describes its bits.
fn entry_describes(entry: &Entry, bytes: &[Byte]) -> bool {
    let bits = u64::from(entry.size.unwrap_or(1));
    if bits == 0 || entry.high >= 128 || entry.low > entry.high {
        return false;
    }
    let all = entry.high - entry.low + 1;
    let mut first = u64::from(entry.base.0)
        .wrapping_mul(128)
        .wrapping_add(entry.low);
    for _ in 0..all / bits {
        let span = Span { first, bits };
        if !describes_span(&entry.cell, bytes, &span) {
            return false;
        }
        first = first.wrapping_add(bits);
    }
    all % bits == 0
}

/// How many of the first entries are those of the base, if they follow each other and describe its bits from the first on.
fn count_of(entries: &[Entry], bytes: &[Byte], base: u32, bits: u64) -> Option<usize> {
    let mut low = 0;
    let mut count = 0_usize;
    for entry in entries {
        if entry.base.0 != base {
            break;
        }
        if entry.low != low || !entry_describes(entry, bytes) {
            return None;
        }
        low = entry.high.wrapping_add(1);
        count = count.wrapping_add(1);
    }
    if low == bits { Some(count) } else { None }
}

/// How many bits of the object a row has.
fn bits_shown(sample: &Sample, base: u32) -> u64 {
    if base < 3 && lives(sample, base) {
        return 128;
    }
    0
}

/// Whether these are the entries of the objects that live and are shown, from the given one on.
fn are_rows(sample: &Sample, entries: &[Entry]) -> bool {
    let mut at = 0_usize;
    for base in 0..OBJECTS {
        let bits = bits_shown(sample, base);
        let Some(rest) = entries.get(at..) else {
            return false;
        };
        let Some(count) = count_of(rest, &sample.bytes, base, bits) else {
            return false;
        };
        at = at.wrapping_add(count);
    }
    at == entries.len()
}

/// Whether the row has the objects that live and are shown, in order, each with all its bits.
pub(crate) fn rows(alloc: Global, sample: &Sample) -> Mem<bool> {
    let row = row(alloc, &ButLast, &sample.memory)?;
    Ok(are_rows(sample, row.0.as_slice()))
}

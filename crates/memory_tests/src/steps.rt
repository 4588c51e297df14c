//! Steps of a memory and of its bytes.

use crate::bytes::Byte;
use crate::places::{OBJECTS, Sixteen, Spot, first_byte, place_of};
use avalue::{AVal, Cellv, Mem, Target};
use c_base::number::BaseId;
use ival_core::Ival;
use memory_cells::EachDeath;
use memory_maps::Memory;
use memory_scopes::{leave_scope, release};
use memory_writes::write;
use offmap_tests::sample::number;
use std::alloc::Global;

/// A memory of objects with 16 bytes and slots with 8, and the bytes that these should have, one object after another and then the slots.
#[derive(Drop)]
pub(crate) struct Sample {
    pub(crate) memory: Memory<Cellv>,
    pub(crate) bytes: Vec<Byte>,
}

/// What is written.
#[derive(Clone, Copy, Drop)]
pub(crate) enum Content {
    Number(u64),
    Address { base: u32, offset: u8 },
}

impl Content {
    fn cell(&self, alloc: Global) -> Mem<Cellv> {
        match self {
            Content::Number(n) => Ok(number(*n)),
            Content::Address { base, offset } => {
                let offset = Ival::single(i128::from(*offset));
                let value = AVal::address(alloc, BaseId(*base), offset)?;
                Ok(Cellv {
                    value: Some(value),
                    uninit: false,
                    dead: false,
                })
            }
        }
    }

    /// Its byte with this index.
    fn byte(&self, index: u8) -> Byte {
        match self {
            Content::Number(n) => Byte::Number((n.wrapping_shr(u32::from(index) * 8) & 0xff) as u8),
            Content::Address { base, offset } => Byte::Piece {
                base: *base,
                offset: *offset,
                index,
            },
        }
    }
}

/// Nothing lives, and no slot is held.
pub(crate) fn nothing(alloc: Global) -> Mem<Sample> {
    let mut bytes = Vec::new(alloc);
    for _ in 0..80 {
        bytes.push(Byte::Unwritten)?;
    }
    Ok(Sample {
        memory: Memory::none(),
        bytes,
    })
}

fn put_bytes(bytes: &mut [Byte], spot: &Spot, count: u8, content: Content) {
    for i in 0..count {
        let here = spot.index().wrapping_add(i as usize);
        if let Some(byte) = bytes.get_mut(here) {
            *byte = content.byte(i);
        }
    }
}

/// A write of so many bytes at the spot, where they fit.
#[tactic(auto, using(crate::proofs::Fitting::one_fits))]
pub(crate) fn store(
    alloc: Global,
    sample: &mut Sample,
    spot: &Spot,
    count: u8,
    content: Content,
) -> Mem<()> {
    let bits = u64::from(count) * 8;
    if bits == 0 || bits > 64 {
        return Ok(());
    }
    let Some(place) = place_of(&sample.memory, spot.target, spot.offset, bits) else {
        return Ok(());
    };
    let places = [place];
    sample.memory = write(alloc, &sample.memory, &places, bits, &content.cell(alloc)?)?;
    put_bytes(&mut sample.bytes, spot, count, content);
    Ok(())
}

/// A write at the first of two spots, of which the memory doesn't know which it is.
#[tactic(auto, using(crate::proofs::Fitting::two_fit))]
pub(crate) fn store_either(
    alloc: Global,
    sample: &mut Sample,
    spots: &(Spot, Spot),
    count: u8,
    content: Content,
) -> Mem<()> {
    let bits = u64::from(count) * 8;
    if bits == 0 || bits > 64 {
        return Ok(());
    }
    let Some(first) = place_of(&sample.memory, spots.0.target, spots.0.offset, bits) else {
        return Ok(());
    };
    let Some(second) = place_of(&sample.memory, spots.1.target, spots.1.offset, bits) else {
        return Ok(());
    };
    let places = [second, first];
    sample.memory = write(alloc, &sample.memory, &places, bits, &content.cell(alloc)?)?;
    put_bytes(&mut sample.bytes, &spots.0, count, content);
    Ok(())
}

/// A slot that isn't held is made by a write of 8 bytes.
#[tactic(auto, using(crate::proofs::Fitting::new_fits))]
pub(crate) fn hold(alloc: Global, sample: &mut Sample, slot: u32, content: Content) -> Mem<()> {
    let target = Target::Slot(slot);
    if sample.memory.find(target).is_some() {
        return Ok(());
    }
    let places = [(target, Ival::single(0))];
    sample.memory = write(alloc, &sample.memory, &places, 64, &content.cell(alloc)?)?;
    put_bytes(&mut sample.bytes, &Spot { target, offset: 0 }, 8, content);
    Ok(())
}

/// The slot is let go; whether it isn't held any more.
pub(crate) fn let_go(alloc: Global, sample: &mut Sample, slot: u32) -> Mem<bool> {
    sample.memory = release(alloc, &sample.memory, slot)?;
    Ok(sample.memory.find(Target::Slot(slot)).is_none())
}

/// What was made from the address of the object is dead, and its own bytes are not written when it is born anew.
fn bury_bytes(bytes: &mut [Byte], base: u32) {
    let first = first_byte(Target::Base(BaseId(base)));
    let mut i = 0;
    while i < bytes.len() {
        if i >= first && i - first < 16 {
            bytes[i] = Byte::Unwritten;
        } else if is_made_from(&bytes[i], base) {
            bytes[i] = Byte::Dead;
        }
        i += 1;
    }
}

fn is_made_from(byte: &Byte, dead: u32) -> bool {
    match byte {
        Byte::Piece { base, .. } => *base == dead,
        _ => false,
    }
}

/// Two objects die; whether neither lives any more.
pub(crate) fn die(alloc: Global, sample: &mut Sample, first: u32, second: u32) -> Mem<bool> {
    let bases = [BaseId(first), BaseId(second)];
    sample.memory = leave_scope(alloc, &sample.memory, &EachDeath, &bases)?;
    bury_bytes(&mut sample.bytes, first);
    bury_bytes(&mut sample.bytes, second);
    let memory = &sample.memory;
    Ok(
        memory.find(Target::Base(bases[0])).is_none()
            && memory.find(Target::Base(bases[1])).is_none(),
    )
}

/// Whether the object lives.
pub(crate) fn lives(sample: &Sample, base: u32) -> bool {
    sample.memory.find(Target::Base(BaseId(base))).is_some()
}

/// Each object that doesn't live is born; whether all live then.
pub(crate) fn bear(alloc: Global, sample: &mut Sample) -> Mem<bool> {
    for base in 0..OBJECTS {
        if !lives(sample, base) {
            let bases = [BaseId(base)];
            sample.memory = sample.memory.enter_scope(alloc, &Sixteen, &bases)?;
        }
    }
    Ok(lives(sample, 0) && lives(sample, 1) && lives(sample, 2) && lives(sample, 3))
}

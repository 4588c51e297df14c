//! Objects and slots, and places at which accesses fit.
ghost use Rattle.std.specs.Prelude.{◌≤◌, MatchOption, ⊤};
ghost use Rattle.memory_maps.specs.Memories.{map_at};
ghost use Rattle.memory_reads.specs.Reads.{FitsIn};

use avalue::{Cellv, Sizes, Target};
use c_base::number::BaseId;
use ival_core::Ival;
use memory_maps::Memory;
use memory_singles::Shown;

pub(crate) const OBJECTS: u32 = 4;

pub(crate) const SLOTS: u32 = 2;

/// All objects have 16 bytes.
pub(crate) struct Sixteen;

impl Sizes for Sixteen {
    ghost size_of = { λ s b. 16 };

    fn size(&self, _base: BaseId) -> u64 {
        16
    }
}

/// Rows show all objects but the last.
pub(crate) struct ButLast;

impl Shown for ButLast {
    ghost use Rattle.std.specs.Prelude.{nat_lt};

    ghost shown = { λ _ base. nat_lt base 3 };

    fn is_shown(&self, base: u64) -> bool {
        base < 3
    }
}

/// A byte of an object or a slot.
#[derive(Clone, Copy, Drop)]
pub(crate) struct Spot {
    pub(crate) target: Target,
    pub(crate) offset: u8,
}

/// Where the first byte of an object or a slot stands in the list of all bytes. Slots have 8.
pub(crate) fn first_byte(target: Target) -> usize {
    match target {
        Target::Base(base) => (base.0 as usize).wrapping_mul(16),
        Target::Slot(slot) => (slot as usize).wrapping_mul(8).wrapping_add(64),
    }
}

impl Spot {
    /// Where its byte stands in the list.
    pub(crate) fn index(&self) -> usize {
        first_byte(self.target).wrapping_add(self.offset as usize)
    }
}

/// Whether it is in the object that isn't shown.
pub(crate) fn is_last(spot: &Spot) -> bool {
    match spot.target {
        Target::Base(base) => base.0 == 3,
        Target::Slot(_) => false,
    }
}

/// The byte as a place, where so many bits from there on fit.
#[tactic(auto, using(crate::proofs::Fitting::spot_fits))]
pub(crate) fn place_of(
    memory: &Memory<Cellv>,
    target: Target,
    offset: u8,
    bits: u64,
) -> Option<(Target, Ival)>
    requires { bits ≤ 64 }
    ensures { MatchOption result ⊤ (λ p. FitsIn bits p.1 (map_at memory.now p.0)) }
{
    match memory.find(target) {
        None => None,
        Some(map) => {
            if u64::from(offset) * 8 + bits > map.bits() {
                return None;
            }
            Some((target, Ival::single(i128::from(offset))))
        }
    }
}

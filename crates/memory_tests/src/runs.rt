//! Random runs.

use crate::checks::{joins, reads, rows, stays_single};
use crate::places::{OBJECTS, SLOTS, Spot, is_last};
use crate::steps::{Content, Sample, bear, die, hold, let_go, lives, nothing, store, store_either};
use avalue::{Mem, Target};
use c_base::number::BaseId;
use offmap_tests::draw::Random;
use std::alloc::Global;

/// Two memories in which the same objects live and the same slots are held.
#[derive(Drop)]
struct Pair {
    first: Sample,
    second: Sample,
}

/// A run: in a single one all places are single, and no address is cut.
#[derive(Drop)]
struct Run {
    random: Random,
    single: bool,
}

impl Run {
    fn below(&mut self, bound: u32) -> u32 {
        match bound {
            2 => (self.random.draw(2) & 1) as u32,
            _ => (self.random.draw(4) & 3) as u32,
        }
    }

    fn offset(&mut self) -> u8 {
        let offset = (self.random.draw(16) & 15) as u8;
        if self.random.draw(4) == 0 {
            return offset;
        }
        offset / 8 * 8
    }

    fn spot(&mut self) -> Spot {
        if self.random.draw(5) == 0 {
            let slot = self.below(SLOTS);
            let target = Target::Slot(slot);
            return Spot { target, offset: 0 };
        }
        let base = self.below(OBJECTS);
        let target = Target::Base(BaseId(base));
        let offset = self.offset();
        Spot { target, offset }
    }

    fn count(&mut self) -> u8 {
        match self.random.draw(4) {
            0 => 1,
            1 => 4,
            _ => 8,
        }
    }

    fn number(&mut self) -> Content {
        let low = self.random.draw(0);
        let high = self.random.draw(0);
        Content::Number(high.wrapping_shl(33) ^ low)
    }

    /// An address of an object that lives, or a number.
    fn address(&mut self, sample: &Sample) -> Content {
        let base = self.below(OBJECTS);
        if !lives(sample, base) {
            return self.number();
        }
        let offset = self.offset();
        Content::Address { base, offset }
    }

    /// Eight bytes: an address, or a number.
    fn word(&mut self, sample: &Sample) -> Content {
        if self.random.draw(2) == 0 {
            return self.number();
        }
        self.address(sample)
    }

    /// A write of a number or an address, at any place.
    fn stores_any(&mut self, alloc: Global, sample: &mut Sample) -> Mem<()> {
        let spot = self.spot();
        if self.random.draw(3) == 0 {
            let word = self.word(sample);
            return store(alloc, sample, &spot, 8, word);
        }
        let count = self.count();
        let number = self.number();
        store(alloc, sample, &spot, count, number)
    }

    /// A write at one of two places.
    fn stores_either(&mut self, alloc: Global, sample: &mut Sample) -> Mem<()> {
        let spots = (self.spot(), self.spot());
        if self.random.draw(2) == 0 {
            let word = self.word(sample);
            return store_either(alloc, sample, &spots, 8, word);
        }
        let number = self.number();
        store_either(alloc, sample, &spots, 1, number)
    }

    /// A write that leaves the memory single: the first two objects have numbers, and no address is cut but in the last, which isn't shown.
    fn stores_one(&mut self, alloc: Global, sample: &mut Sample) -> Mem<()> {
        let mut spot = self.spot();
        let has_words = has_words(&spot);
        if is_last(&spot) {
            let other = Spot {
                target: spot.target,
                offset: self.offset(),
            };
            let word = self.word(sample);
            return store_either(alloc, sample, &(spot, other), 8, word);
        }
        if has_words {
            spot.offset = spot.offset / 8 * 8;
            let word = self.word(sample);
            return store(alloc, sample, &spot, 8, word);
        }
        let count = self.count();
        let number = self.number();
        store(alloc, sample, &spot, count, number)
    }

    fn stores(&mut self, alloc: Global, sample: &mut Sample) -> Mem<()> {
        if self.single {
            return self.stores_one(alloc, sample);
        }
        if self.random.draw(10) == 0 {
            return self.stores_either(alloc, sample);
        }
        self.stores_any(alloc, sample)
    }

    /// The same slot is made in both.
    fn holds(&mut self, alloc: Global, pair: &mut Pair) -> Mem<()> {
        let slot = self.below(SLOTS);
        let word = self.word(&pair.first);
        hold(alloc, &mut pair.first, slot, word)?;
        let word = self.word(&pair.second);
        hold(alloc, &mut pair.second, slot, word)
    }

    /// The same slot is let go in both; whether it is held no more.
    fn releases(&mut self, alloc: Global, pair: &mut Pair) -> Mem<bool> {
        let slot = self.below(SLOTS);
        if !let_go(alloc, &mut pair.first, slot)? {
            return Ok(false);
        }
        let_go(alloc, &mut pair.second, slot)
    }

    /// The same objects die in both; whether they live no more.
    fn buries(&mut self, alloc: Global, pair: &mut Pair) -> Mem<bool> {
        let first = self.below(OBJECTS);
        let second = self.below(OBJECTS);
        if !die(alloc, &mut pair.first, first, second)? {
            return Ok(false);
        }
        die(alloc, &mut pair.second, first, second)
    }

    /// All objects live in both, if so.
    fn bears(&mut self, alloc: Global, pair: &mut Pair) -> Mem<bool> {
        if !bear(alloc, &mut pair.first)? {
            return Ok(false);
        }
        bear(alloc, &mut pair.second)
    }

    /// Whether a random change was as it should be.
    fn changes(&mut self, alloc: Global, pair: &mut Pair) -> Mem<bool> {
        match self.random.draw(20) {
            0 => return self.buries(alloc, pair),
            1 => return self.bears(alloc, pair),
            2 => return self.bears(alloc, pair),
            3 => return self.releases(alloc, pair),
            4 => self.holds(alloc, pair)?,
            _ => {}
        }
        self.stores(alloc, &mut pair.first)?;
        self.stores(alloc, &mut pair.second)?;
        Ok(true)
    }

    /// Whether reads and the row describe the bytes.
    fn describes(&mut self, alloc: Global, sample: &Sample) -> Mem<bool> {
        let spot = self.spot();
        let count = self.count();
        if !reads(alloc, sample, &spot, count)? {
            return Ok(false);
        }
        if self.single && !stays_single(alloc, sample)? {
            return Ok(false);
        }
        rows(alloc, sample)
    }

    /// Whether a change leaves both memories and their join as they should be.
    fn step(&mut self, alloc: Global, pair: &mut Pair) -> Mem<bool> {
        if !self.changes(alloc, pair)? {
            return Ok(false);
        }
        if !self.describes(alloc, &pair.first)? || !self.describes(alloc, &pair.second)? {
            return Ok(false);
        }
        let spot = self.spot();
        let count = self.count();
        joins(alloc, &pair.first, &pair.second, &spot, count)
    }
}

/// Whether the object or slot holds words alone, in a single run.
fn has_words(spot: &Spot) -> bool {
    match spot.target {
        Target::Base(base) => base.0 >= 2,
        Target::Slot(_) => true,
    }
}

fn two(alloc: Global) -> Mem<Pair> {
    let first = nothing(alloc)?;
    let second = nothing(alloc)?;
    Ok(Pair { first, second })
}

/// So many random steps.
fn runs(alloc: Global, seed: u64, count: u64, single: bool) -> Mem<bool> {
    let mut run = Run {
        random: Random { state: seed },
        single,
    };
    let mut pair = two(alloc)?;
    for _ in 0..count {
        if !run.step(alloc, &mut pair)? {
            return Ok(false);
        }
    }
    Ok(true)
}

#[test]
fn random_steps_are_those_of_the_bytes(rt: HostRuntime) {
    assert!(rt; runs(rt.alloc(), 3, 1_000, false) == Ok(true));
}

#[test]
fn single_steps_are_exact(rt: HostRuntime) {
    assert!(rt; runs(rt.alloc(), 5, 1_000, true) == Ok(true));
}

//! Slots that may have a cell. Where a run holds many of them, what they become is made once for all.
ghost use Rattle.std.specs.Prelude.{◌≡◌, ℕ, ◌+◌, ◌*◌, ◌<◌, ◌≤◌, ◌^◌, IfOk, OnOk};
ghost use Rattle.cell_laws.specs.Elements.{width};
ghost use Rattle.cell_runs.specs.Runs.{elements, Extends};
ghost use Rattle.run_places.specs.Spots.{AreRuns};
ghost use Rattle.run_slots.specs.Slots.{weak_slot, weak_slots, slots_weakened};
ghost use Rattle.run_slots.specs.Walks.{IsAt, bits_before};
ghost use Rattle.run_slots.specs.Weakens.{Weakens};

use crate::stretch::stretch_at;
use crate::walk::walk;
use cell_runs::Mem;
use cell_runs::cells::Cells;
use cell_runs::parts::{copy_part, copy_rest, take_runs};
use cell_runs::runs::Run;
use run_joins::join::join;
use run_merges::join::Join;
use run_places::repeats::push_times;
use run_places::spots::Spot;
use std::alloc::Global;

/// Slots: so many bits each, and so many bits behind each that stay as they are.
#[derive(Clone, Copy, Drop)]
pub struct Slots {
    pub bits: u64,
    pub gap: u64,
}

/// Adds a slot of so many bits, which may have these elements or what it had.
fn weaken_slot<C: Cells>(
    alloc: Global,
    runs: &[Run<C>],
    spot: Spot,
    bits: u64,
    put: &[Run<C>],
    out: &mut Vec<Run<C>>,
) -> Mem<()>
    requires runs { AreRuns C.fine runs.now }
    requires put { AreRuns C.fine put.now }
    requires even { width (elements put.now) ≡ bits }
    requires spot { IsAt runs.now (bits_before runs.now spot) spot }
    requires enough { bits_before runs.now spot + bits ≤ width (elements runs.now) }
    ensures { OnOk result (Extends out.old.items out.new.items
        (weak_slot C.ops (elements put.now) (elements runs.now) (bits_before runs.now spot) bits)) }
{
    let mut part = Vec::new(alloc);
    copy_part(alloc, &runs[spot.index..], spot.skip, bits, &mut part)?;
    join(alloc, &Join, &part, put, out)
}

/// Adds one slot after the other, with the bits behind each.
fn weaken_each<C: Cells>(
    alloc: Global,
    runs: &[Run<C>],
    spot: Spot,
    slots: Slots,
    put: &[Run<C>],
    count: u64,
    out: &mut Vec<Run<C>>,
) -> Mem<()>
    requires runs { AreRuns C.fine runs.now }
    requires put { AreRuns C.fine put.now }
    requires even { width (elements put.now) ≡ slots.bits }
    requires spot { IsAt runs.now (bits_before runs.now spot) spot }
    requires enough { bits_before runs.now spot + count * (slots.bits + slots.gap) ≤ width (elements runs.now) }
    ensures { OnOk result (Extends out.old.items out.new.items
        (weak_slots C.ops slots.bits slots.gap (elements put.now) (elements runs.now) (bits_before runs.now spot) count)) }
{
    let mut at = spot;
    let mut left = count;
    while left > 0 {
        weaken_slot(alloc, runs, at, slots.bits, put, out)?;
        let behind = walk(runs, at, slots.bits);
        copy_part(alloc, &runs[behind.index..], behind.skip, slots.gap, out)?;
        at = walk(runs, behind, slots.gap);
        left -= 1;
    }
    Ok(())
}

/// Adds the slots from a spot on, with the bits behind each, and answers the spot behind all.
fn weaken_slots<C: Cells>(
    alloc: Global,
    runs: &[Run<C>],
    spot: Spot,
    slots: Slots,
    put: &[Run<C>],
    count: u64,
    out: &mut Vec<Run<C>>,
) -> Mem<Spot>
    requires runs { AreRuns C.fine runs.now }
    requires put { AreRuns C.fine put.now }
    requires even { width (elements put.now) ≡ slots.bits }
    requires some { 0 < slots.bits }
    requires spot { IsAt runs.now (bits_before runs.now spot) spot }
    requires enough { bits_before runs.now spot + count * (slots.bits + slots.gap) ≤ width (elements runs.now) }
    ensures { IfOk result (λ behind. Weakens C.ops runs.now (elements put.now) slots (bits_before runs.now spot) count behind out.old.items out.new.items) }
{
    let mut at = spot;
    let mut left = count;
    while left > 0 {
        let wide = slots.bits + slots.gap;
        let next = stretch_at(runs, at, wide, wide, left);
        let mut made = Vec::new(alloc);
        weaken_each(alloc, runs, at, slots, put, next.size, &mut made)?;
        push_times(alloc, &made, next.repeats, out)?;
        at = walk(runs, at, next.size * next.repeats * wide);
        left -= next.size * next.repeats;
    }
    Ok(at)
}

/// Adds the runs with slots that may each have these elements or what they had: the first at the bit `at`, and `more` others.
pub fn weaken<C: Cells>(
    alloc: Global,
    runs: &[Run<C>],
    at: u64,
    slots: Slots,
    more: u64,
    put: &[Run<C>],
    out: &mut Vec<Run<C>>,
) -> Mem<()>
    requires runs { AreRuns C.fine runs.now }
    requires put { AreRuns C.fine put.now }
    requires even { width (elements put.now) ≡ slots.bits }
    requires some { 0 < slots.bits }
    requires apart { slots.bits + slots.gap < 2 ^ 64 }
    requires enough { at + more * (slots.bits + slots.gap) + slots.bits ≤ width (elements runs.now) }
    ensures { OnOk result (Extends out.old.items out.new.items
        (slots_weakened C.ops (elements runs.now) at slots.bits slots.gap more (elements put.now))) }
{
    take_runs(alloc, runs, at, out)?;
    let first = walk(runs, Spot { index: 0, skip: 0 }, at);
    let last = weaken_slots(alloc, runs, first, slots, put, more, out)?;
    weaken_slot(alloc, runs, last, slots.bits, put, out)?;
    let end = at + more * (slots.bits + slots.gap) + slots.bits;
    copy_rest(alloc, runs, end, out)
}

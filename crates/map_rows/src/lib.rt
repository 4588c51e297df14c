//! The row of an object: the ranges of its map as entries.
#![tactic(auto)]

ghost use Rattle.std.specs.Prelude.{◌≡◌, ◌↔◌, ℕ, ◌+◌, ◌*◌, ◌<◌, ◌≤◌, ◌^◌, IfOk, List, Some, length, map};
ghost use Rattle.std.specs.List.{AllByRecursion};
ghost use Rattle.c_base.specs.declared.integer.Machine.TheVariants.{Lp64};
ghost use Rattle.c_memory.specs.Layouts.{Layout};
ghost use Rattle.c_memory.specs.Memories.{Memory};
ghost use Rattle.c_memory.specs.Values.{Cell};
ghost use Rattle.c_memory.specs.Rows.{AreRanges as CoverBits, DescribesEntry};
ghost use Rattle.cell_laws.specs.Elements.{AllFine, width};
ghost use Rattle.cell_laws.specs.Meaning.{Describes};
ghost use Rattle.cell_runs.specs.declared.runs.Run.{Run as PlainRun};
ghost use Rattle.cell_runs.specs.Runs.{elements, AllSome};
ghost use Rattle.avalue_base.specs.Values.{Cellv as PlainCell};
ghost use Rattle.avalue_base.specs.Ops.{Fine};
ghost use Rattle.avalue_base.specs.Meaning.{Allows};
ghost use Rattle.offmap.specs.Maps.{AreRanges};
ghost use Rattle.map_rows.specs.Entries.{plain_entry, size_in, range_entry, row_from};

use avalue::{Cellv, Entry, Mem, Row};
use c_base::number::BaseId;
use cell_runs::runs::Run;
use offmap::OffMap;
use sqlite_items::Items;
use std::alloc::Global;

/// The size of a range's elements, where they may have values.
fn size_of(run: &Run<Cellv>) -> Option<u32>
    requires few { run.now.bits ≤ 64 }
    ensures { result ≡ size_in run.now }
{
    if run.cell.is_blank() {
        return None;
    }
    Some(run.bits as u32)
}

/// The entry of a range whose first bit is `low`.
fn entry_of(alloc: Global, base: BaseId, low: u64, run: &Run<Cellv>) -> Mem<Entry>
    requires bits { 0 < run.now.bits }
    requires few { run.now.bits ≤ 64 }
    requires count { 0 < run.now.count }
    requires small { low + run.now.bits * run.now.count < 2 ^ 64 }
    ensures { IfOk result (λ e. plain_entry e ≡ range_entry base.0 low run.now) }
{
    let cell = run.cell.duplicate(alloc)?;
    let size = size_of(run);
    let bits = run.bits * run.count;
    Ok(Entry {
        base,
        low,
        high: low + bits - 1,
        size,
        cell,
    })
}

/// The entries of ranges that follow each other from the first bit on.
fn entries_of(alloc: Global, base: BaseId, runs: &[Run<Cellv>]) -> Mem<Items<Entry>>
    requires some { AllSome runs.now }
    requires fine { AllFine (Fine Lp64) (elements runs.now) }
    requires small { width (elements runs.now) < 2 ^ 64 }
    ensures { IfOk result (λ entries. map plain_entry entries ≡ row_from base.0 0 runs.now) }
{
    let mut entries = Items::new(alloc);
    let mut low = 0;
    let mut i = 0;
    while i < runs.len() {
        let run = &runs[i];
        let entry = entry_of(alloc, base, low, run)?;
        entries.push(entry)?;
        low += run.bits * run.count;
        i += 1;
    }
    Ok(entries)
}

/// The ranges of an object's map as entries of the base.
pub fn entries(alloc: Global, object: &OffMap<Cellv>, base: BaseId) -> Mem<Row>
    ensures ranges { IfOk result (λ row. (rs : List (PlainRun PlainCell)) → AreRanges object.now rs →
        map plain_entry row.0 ≡ row_from base.0 0 rs) }
    ensures cover { IfOk result (λ row. CoverBits 0 (width object.now) (map plain_entry row.0)) }
    ensures meaning { IfOk result (λ row. (l : Layout) (memory : Memory) (cells : List Cell) →
        memory base.0 ≡ Some cells → length cells ≡ width object.now →
        Describes (Allows l) object.now cells ↔ AllByRecursion (DescribesEntry l memory) (map plain_entry row.0)) }
{
    object.facts();
    let entries = entries_of(alloc, base, object.ranges())?;
    Ok(Row(entries))
}

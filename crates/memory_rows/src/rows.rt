//! The row, in ascending order of the objects' numbers.
ghost use Rattle.std.specs.Prelude.{◌≡◌, ◌++◌, ℕ, ◌<◌, ◌^◌, true, IfOk, OnOk, List, map};
ghost use Rattle.cell_runs.specs.declared.runs.Run.{Run as PlainRun};
ghost use Rattle.avalue_base.specs.Values.{Cellv as PlainCell};
ghost use Rattle.offmap.specs.Maps.{AreRanges};
ghost use Rattle.map_rows.specs.Entries.{plain_entry};
ghost use Rattle.memory_rows.specs.MemoryRows.{HaveRanges, HasRanges, entries_if, row_of};
ghost use Rattle.memory_rows.specs.RowMeaning.{IsSoundRow, IsExactRow};

use avalue::{Cellv, Entry, Mem, Row};
use c_base::number::BaseId;
use map_rows::entries;
use memory_maps::Memory;
use memory_singles::Shown;
use offmap::OffMap;
use sqlite_items::Items;
use std::alloc::Global;

/// Adds the entries of an object, if it is shown.
fn add_entries<P: Shown>(
    alloc: Global,
    shown: &P,
    key: u64,
    object: &OffMap<Cellv>,
    all: &mut Items<Entry>,
) -> Mem<()>
    requires { key < 2 ^ 32 }
    ensures entries { OnOk result ((ranges : List (PlainRun PlainCell)) → (P.shown shown.now key ≡ true → AreRanges object.now ranges) →
        map plain_entry all.new ≡ map plain_entry all.old ++ entries_if (P.shown shown.now key) key ranges) }
    ensures ranges { HasRanges object.now }
{
    let _ranges = object.ranges();
    if !shown.is_shown(key) {
        return Ok(());
    }
    let part = entries(alloc, object, BaseId(key as u32))?;
    all.append(part.0)
}

/// The ranges of each object that is shown, as entries.
pub fn row<P: Shown>(alloc: Global, shown: &P, memory: &Memory<Cellv>) -> Mem<Row>
    ensures value { IfOk result (λ row. (ranges : ℕ → List (PlainRun PlainCell)) →
        HaveRanges (P.shown shown.now) memory.now.0 ranges →
        map plain_entry row.0 ≡ row_of (P.shown shown.now) ranges memory.now.0) }
    ensures sound { IfOk result (λ row. IsSoundRow (P.shown shown.now) memory.now (map plain_entry row.0)) }
    ensures exact { IfOk result (λ row. IsExactRow (P.shown shown.now) memory.now (map plain_entry row.0)) }
{
    memory.facts();
    let mut all = Items::new(alloc);
    for (key, object) in memory.bases().walk(0) {
        add_entries(alloc, shown, key, object, &mut all)?;
    }
    Ok(Row(all))
}

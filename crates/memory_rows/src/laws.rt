//! What rows of memories mean: each law is the contract of a function that does nothing.
ghost use Rattle.std.specs.Prelude.{ℕ, Bool, List};
ghost use Rattle.c_base.specs.declared.integer.Machine.TheVariants.{Lp64};
ghost use Rattle.cell_runs.specs.declared.runs.Run.{Run as PlainRun};
ghost use Rattle.avalue_base.specs.Values.{Cellv};
ghost use Rattle.avalue_base.specs.Ops.{Fine};
ghost use Rattle.ptree.specs.Entries.{IsAscending};
ghost use Rattle.memory_maps.specs.Memories.{MapsOf, IsMemory};
ghost use Rattle.memory_rows.specs.MemoryRows.{HaveRanges, row_of};
ghost use Rattle.memory_rows.specs.RowMeaning.{IsSoundRow, IsExactRow};

/// A memory that the maps describe is described by their row.
pub fn row_describes()
    ensures { (shown : ℕ → Bool) (ranges : ℕ → List (PlainRun Cellv)) (m : MapsOf Cellv) → IsMemory (Fine Lp64) m → IsAscending m.0 →
        HaveRanges shown m.0 ranges → IsSoundRow shown m (row_of shown ranges m.0) }
{}

/// Of the objects that are shown, the row describes only what the maps do.
pub fn row_describes_no_more()
    ensures { (shown : ℕ → Bool) (ranges : ℕ → List (PlainRun Cellv)) (m : MapsOf Cellv) → IsMemory (Fine Lp64) m → IsAscending m.0 →
        HaveRanges shown m.0 ranges → IsExactRow shown m (row_of shown ranges m.0) }
{}

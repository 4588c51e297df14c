//! What reads mean: the law is the contract of a function that does nothing.
ghost use Rattle.std.specs.Prelude.{◌≡◌, ℕ, ℤ, List, take, drop, Option, Some};
ghost use Rattle.cell_laws.specs.Access.{IsSize};
ghost use Rattle.cell_laws.specs.Elements.{Element};
ghost use Rattle.cell_runs.specs.declared.runs.Run.{Run as PlainRun};
ghost use Rattle.avalue.specs.declared.row.Target.{Target};
ghost use Rattle.ival_core.specs.Sets.{Has};
ghost use Rattle.map_accesses.specs.Accesses.{bit_at};
ghost use Rattle.memory_maps.specs.Memories.{MapsOf, IsMemory};
ghost use Rattle.memory_maps.specs.Meaning.{DescribesMemory};
ghost use Rattle.memory_reads.specs.Reads.{Place, AllFitIn, HaveRanges, IsPlace, bits_at, read};

use cell_runs::cells::Cells;
use offmap_laws::concrete::Concrete;

/// A read gives the content of each described memory at each offset of each place.
pub fn read_gives<C: Cells, M: Concrete<C>>()
    ensures { (world : M.World) (m : MapsOf C) (ranges : Target → List (PlainRun C)) (k : ℕ) (ps : List Place) (p : Place) (z : ℤ)
        (objects held : ℕ → Option (List M.Bit)) (ks : List M.Bit) → IsSize k → IsMemory C.fine m → HaveRanges m ranges → AllFitIn m k ps →
        DescribesMemory (M.allows world) m objects held → IsPlace ps p → Has p.1.shape z → bits_at objects held p.0 ≡ Some ks →
        M.gives world k (read C.ops m ranges k ps) (take k (drop (bit_at 8 z) ks)) }
{}

//! Reads.
ghost use Rattle.std.specs.Prelude.{◌≡◌, ℕ, ◌<◌, ◌≤◌, IfOk, List};
ghost use Rattle.cell_laws.specs.Access.{IsSize};
ghost use Rattle.cell_runs.specs.declared.runs.Run.{Run as PlainRun};
ghost use Rattle.memory_reads.specs.Reads.{AllFitIn, FitsIn, HaveRanges, read_place as read_at_place, read as read_at};
ghost use Rattle.memory_maps.specs.Memories.{map_at};
ghost use Rattle.avalue.specs.declared.row.Target.{Target as PlainTarget};

use avalue::Target;
use cell_runs::Mem;
use cell_runs::cells::Cells;
use ival_core::Ival;
use map_accesses::load;
use memory_maps::Memory;
use std::alloc::Global;

/// The cell of so many bits at one place.
fn read_place<C: Cells>(
    alloc: Global,
    memory: &Memory<C>,
    place: &(Target, Ival),
    bits: u64,
) -> Mem<C>
    requires size { IsSize bits }
    requires fits { FitsIn bits place.now.1 (map_at memory.now place.now.0) }
    ensures { IfOk result (λ c. (ranges : PlainTarget → List (PlainRun C)) → HaveRanges memory.now ranges →
        c ≡ read_at_place C.ops memory.now ranges bits place.now) }
{
    match memory.find(place.0) {
        None => C::void(alloc),
        Some(map) => load(alloc, map, &place.1, 8, bits),
    }
}

/// The cell of so many bits at the places: it gives the content at each of these.
pub fn read<C: Cells>(
    alloc: Global,
    memory: &Memory<C>,
    places: &[(Target, Ival)],
    bits: u64,
) -> Mem<C>
    requires size { IsSize bits }
    requires fit { AllFitIn memory.now bits places.now }
    ensures { IfOk result (λ c. (ranges : PlainTarget → List (PlainRun C)) → HaveRanges memory.now ranges →
        c ≡ read_at C.ops memory.now ranges bits places.now) }
{
    let mut i = places.len();
    if i == 0 {
        return C::void(alloc);
    }
    i -= 1;
    let mut cell = read_place(alloc, memory, &places[i], bits)?;
    while i > 0 {
        i -= 1;
        let here = read_place(alloc, memory, &places[i], bits)?;
        cell = here.join(alloc, &cell)?;
    }
    Ok(cell)
}

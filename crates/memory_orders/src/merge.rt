//! One memory of two, object by object and slot by slot.
ghost use Rattle.std.specs.Prelude.{◌≡◌, IfOk};
ghost use Rattle.std.specs.Option.{option_copied};
ghost use Rattle.cell_laws.specs.Join.{joined_cell};
ghost use Rattle.run_merges.specs.Widened.{widened_cell};
ghost use Rattle.memory_orders.specs.Merging.{merged_map, merged_memory, HaveOneShape, IsAbove};

use cell_runs::Mem;
use cell_runs::cells::Cells;
use memory_maps::Memory;
use offmap::OffMap;
use ptree::Merger;
use run_merges::join::Join;
use run_merges::widen::{Widening, Widens};
use run_places::merge::Merge;
use std::alloc::Global;

/// Makes one map of two where both are there and as long.
#[derive(Drop)]
struct Merging<'a, M> {
    by: &'a M,
}

impl<'a, C: Cells, M: Merge<C>> Merger<OffMap<C>> for Merging<'a, M> {
    ghost merged = { λ m _ a b. merged_map C.ops (M.merged m.by.now) a b };

    fn merge(
        &self,
        alloc: Global,
        _key: u64,
        a: Option<&OffMap<C>>,
        b: Option<&OffMap<C>>,
    ) -> Mem<Option<OffMap<C>>> {
        match (a, b) {
            (Some(first), Some(second)) => {
                if first.bits() != second.bits() {
                    return Ok(None);
                }
                Ok(Some(OffMap::merge(alloc, self.by, first, second)?))
            }
            _ => Ok(None),
        }
    }
}

/// The memory of the objects and slots that both have and that are as long in both, each with the map that `by` makes of its two.
pub fn merge<C: Cells, M: Merge<C>>(
    alloc: Global,
    by: &M,
    first: &Memory<C>,
    second: &Memory<C>,
) -> Mem<Memory<C>>
    ensures value { IfOk result (λ m. m ≡ merged_memory C.ops (M.merged by.now) first.now second.now) }
    ensures upper { IfOk result (λ m. HaveOneShape first.now second.now → IsAbove C.ops first.now second.now m) }
{
    first.facts();
    second.facts();
    let merging = Merging { by };
    let bases = first.bases().merge(alloc, second.bases(), &merging)?;
    let slots = first.slots().merge(alloc, second.slots(), &merging)?;
    Ok(Memory::of(bases, slots))
}

/// The memory that allows what either of two of one shape does.
pub fn join<C: Cells>(alloc: Global, first: &Memory<C>, second: &Memory<C>) -> Mem<Memory<C>>
    ensures value { IfOk result (λ m. m ≡ merged_memory C.ops (joined_cell C.ops) first.now second.now) }
    ensures upper { IfOk result (λ m. HaveOneShape first.now second.now → IsAbove C.ops first.now second.now m) }
{
    merge(alloc, &Join, first, second)
}

/// The widening of two memories of one shape, cell by cell as `by` says.
pub fn widen<C: Cells, W: Widens<C>>(
    alloc: Global,
    by: &W,
    first: &Memory<C>,
    second: &Memory<C>,
) -> Mem<Memory<C>>
    ensures value { IfOk result (λ m. m
        ≡ merged_memory C.ops (widened_cell C.ops (W.widened by.now)) first.now second.now) }
    ensures upper { IfOk result (λ m. HaveOneShape first.now second.now → IsAbove C.ops first.now second.now m) }
{
    merge(alloc, &Widening { by }, first, second)
}

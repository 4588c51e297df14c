//! Writes: strong exactly where one object or slot and one offset is given.
ghost use Rattle.std.specs.Prelude.{◌≡◌, ℕ, ◌<◌, ◌≤◌, IfOk};
ghost use Rattle.std.specs.Option.{option_copied};
ghost use Rattle.cell_laws.specs.Access.{IsSize};
ghost use Rattle.memory_maps.specs.Memories.{map_at};
ghost use Rattle.memory_reads.specs.Reads.{AllFitIn, FitsIn};
ghost use Rattle.memory_writes.specs.Writes.{one_place as one_of_places, FitsOne, FitTo, weak_place, weak_all, strong_map, strong, written};

use avalue::Target;
use cell_runs::Mem;
use cell_runs::cells::Cells;
use ival_core::Ival;
use map_accesses::offsets::bit_at;
use map_accesses::store_weak;
use memory_maps::Memory;
use offmap::OffMap;
use std::alloc::Global;

/// The memory in which so many bits at one place may have the cell or what they had.
fn write_weak_at<C: Cells>(
    alloc: Global,
    memory: &Memory<C>,
    place: &(Target, Ival),
    bits: u64,
    cell: &C,
) -> Mem<Memory<C>>
    requires size { IsSize bits }
    requires fits { FitsIn bits place.now.1 (map_at memory.now place.now.0) }
    ensures { IfOk result (λ m. m ≡ weak_place C.ops bits cell.now place.now memory.now) }
{
    match memory.find(place.0) {
        None => memory.duplicate(),
        Some(map) => {
            let stored = store_weak(alloc, map, &place.1, 8, bits, cell)?;
            memory.with_map(alloc, place.0, stored)
        }
    }
}

/// The memory in which so many bits at each of the places may have the cell or what they had.
fn write_weak<C: Cells>(
    alloc: Global,
    memory: &Memory<C>,
    places: &[(Target, Ival)],
    bits: u64,
    cell: &C,
) -> Mem<Memory<C>>
    requires size { IsSize bits }
    requires fit { AllFitIn memory.now bits places.now }
    ensures { IfOk result (λ m. m ≡ weak_all C.ops bits cell.now places.now memory.now) }
{
    let mut made = memory.duplicate()?;
    let mut i = 0;
    while i < places.len() {
        made.facts();
        made = write_weak_at(alloc, &made, &places[i], bits, cell)?;
        i += 1;
    }
    Ok(made)
}

/// The map in which so many bits at the offset have the cell; where there is none, one with this content alone.
fn store_at<C: Cells>(
    alloc: Global,
    found: Option<&OffMap<C>>,
    offset: i128,
    bits: u64,
    cell: &C,
) -> Mem<OffMap<C>>
    requires size { IsSize bits }
    requires fits { FitsOne bits offset (option_copied found) }
    ensures { IfOk result (λ m. m ≡ strong_map C.ops bits cell.now offset (option_copied found.entry)) }
{
    match found {
        None => OffMap::repeated(alloc, bits, 1, cell),
        Some(map) => {
            map.facts();
            map.store(alloc, bit_at(offset, 8), bits, cell)
        }
    }
}

/// The memory in which so many bits at one offset have the cell. A slot that isn't held is made.
fn write_strong<C: Cells>(
    alloc: Global,
    memory: &Memory<C>,
    target: Target,
    offset: i128,
    bits: u64,
    cell: &C,
) -> Mem<Memory<C>>
    requires size { IsSize bits }
    requires fits { FitsOne bits offset (map_at memory.now target) }
    ensures { IfOk result (λ m. m ≡ strong C.ops bits cell.now target offset memory.now) }
{
    let map = store_at(alloc, memory.find(target), offset, bits, cell)?;
    memory.with_map(alloc, target, map)
}

/// The one object or slot with the one offset, if no more are given.
fn one_place(places: &[(Target, Ival)]) -> Option<(Target, i128)>
    ensures { result ≡ one_of_places places.now }
{
    if places.len() != 1 {
        return None;
    }
    match places[0].1.as_single() {
        None => None,
        Some(offset) => Some((places[0].0, offset)),
    }
}

/// The memory after the cell was written to so many bits at the places.
pub fn write<C: Cells>(
    alloc: Global,
    memory: &Memory<C>,
    places: &[(Target, Ival)],
    bits: u64,
    cell: &C,
) -> Mem<Memory<C>>
    requires size { IsSize bits }
    requires fit { FitTo memory.now bits places.now }
    ensures { IfOk result (λ m. m ≡ written C.ops bits cell.now places.now memory.now) }
{
    match one_place(places) {
        None => write_weak(alloc, memory, places, bits, cell),
        Some(one) => write_strong(alloc, memory, one.0, one.1, bits, cell),
    }
}

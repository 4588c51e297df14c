//! Loads and weak stores.
ghost use Rattle.std.specs.Prelude.{◌≡◌, ℕ, suc, ◌+◌, ◌*◌, ◌<◌, ◌≤◌, ◌^◌, IfOk, List, map, unsigned_abs};
ghost use Rattle.cell_laws.specs.Elements.{width, AllFine};
ghost use Rattle.cell_laws.specs.Access.{put, loaded_all, weakened, IsSize, AllWithin};
ghost use Rattle.cell_runs.specs.declared.runs.Run.{Run as PlainRun};
ghost use Rattle.ival_core.specs.Sets.{IsLongRun};
ghost use Rattle.ival_core.specs.declared.value.Shape.TheVariants.{Many as ManyNumbers};
ghost use Rattle.run_slots.specs.Offsets.{steps_from};
ghost use Rattle.offmap.specs.Maps.{AreRanges};
ghost use Rattle.map_accesses.specs.Accesses.{AllFit, more_in, loaded_among, loaded_at, after_turns, turns as turns_of, weakened_by, weakened_at};

use crate::offsets::{bit_at, offsets_of, steps_of};
use cell_runs::Mem;
use cell_runs::cells::Cells;
use ival_core::{Ival, Progression, Shape};
use offmap::OffMap;
use run_slots::offsets::push_steps;
use run_slots::{Slots, Steps};
use std::alloc::Global;

/// The cell of the bits at one of several numbers.
fn load_among<C: Cells>(alloc: Global, map: &OffMap<C>, at: &Ival, unit: u64, bits: u64) -> Mem<C>
    requires size { IsSize bits }
    requires unit { 0 < unit }
    requires inside { AllFit unit bits (width map.now) at.now.shape }
    ensures { IfOk result (λ c. (rs : List (PlainRun C)) → AreRanges map.now rs → c ≡ loaded_among C.ops map.now unit rs bits at.now.shape) }
{
    map.facts();
    match at.shape() {
        Shape::Few(few) => {
            let offsets = offsets_of(alloc, few.as_slice(), unit)?;
            map.load_all(alloc, &offsets, bits)
        }
        Shape::Many(run) => map.load_steps(alloc, steps_of(*run, unit), bits),
    }
}

/// The cell of so many bits at one of the numbers, which count units of some bits: it gives the content at each of these. With one number it is the cell
/// there.
pub fn load<C: Cells>(alloc: Global, map: &OffMap<C>, at: &Ival, unit: u64, bits: u64) -> Mem<C>
    requires size { IsSize bits }
    requires unit { 0 < unit }
    requires inside { AllFit unit bits (width map.now) at.now.shape }
    ensures { IfOk result (λ c. (rs : List (PlainRun C)) → AreRanges map.now rs → c ≡ loaded_at C.ops map.now unit rs bits at.now.shape) }
{
    match at.as_single() {
        None => load_among(alloc, map, at, unit, bits),
        Some(one) => {
            map.facts();
            map.load(alloc, bit_at(one, unit), bits)
        }
    }
}

/// The map after all turns.
fn store_turns<C: Cells>(
    alloc: Global,
    map: &OffMap<C>,
    steps: Steps,
    bits: u64,
    cell: &C,
) -> Mem<OffMap<C>>
    requires size { IsSize bits }
    requires step { 0 < steps.step }
    requires many { 64 ≤ steps.more }
    requires fine { AllFine C.fine map.now }
    requires small { width map.now < 2 ^ 64 }
    requires inside { steps.first + steps.more * steps.step + bits ≤ width map.now }
    ensures { IfOk result (λ m. m
        ≡ after_turns C.ops map.now bits steps.first steps.step steps.more (put C.ops bits cell.now) (turns_of bits steps.step)) }
{
    let turns = (bits - 1) / steps.step + 1;
    let slots = Slots {
        bits,
        gap: turns * steps.step - bits,
    };
    let mut made = map.store_slots(alloc, steps.first, slots, steps.more / turns, cell)?;
    let mut done = 1;
    while done < turns {
        let at = steps.first + done * steps.step;
        made = made.store_slots(alloc, at, slots, (steps.more - done) / turns, cell)?;
        done += 1;
    }
    Ok(made)
}

/// The map in which the old and the new content are possible at each number of a run.
fn store_along<C: Cells>(
    alloc: Global,
    map: &OffMap<C>,
    run: Progression,
    unit: u64,
    bits: u64,
    cell: &C,
) -> Mem<OffMap<C>>
    requires size { IsSize bits }
    requires unit { 0 < unit }
    requires long { IsLongRun run }
    requires inside { AllFit unit bits (width map.now) (ManyNumbers run) }
    ensures { IfOk result (λ m. m ≡ weakened_by C.ops map.now unit bits run cell.now) }
{
    map.facts();
    let steps = steps_of(run, unit);
    if steps.more >= 200 {
        return store_turns(alloc, map, steps, bits, cell);
    }
    let mut offsets = Vec::new(alloc);
    push_steps(alloc, steps.first, steps.step, steps.more + 1, &mut offsets)?;
    map.store_weak(alloc, &offsets, bits, cell)
}

/// The map in which the old and the new content of so many bits are possible at each of the numbers.
pub fn store_weak<C: Cells>(
    alloc: Global,
    map: &OffMap<C>,
    at: &Ival,
    unit: u64,
    bits: u64,
    cell: &C,
) -> Mem<OffMap<C>>
    requires size { IsSize bits }
    requires unit { 0 < unit }
    requires inside { AllFit unit bits (width map.now) at.now.shape }
    ensures { IfOk result (λ m. m ≡ weakened_at C.ops map.now unit bits at.now.shape cell.now) }
{
    match at.shape() {
        Shape::Few(few) => {
            map.facts();
            let offsets = offsets_of(alloc, few.as_slice(), unit)?;
            map.store_weak(alloc, &offsets, bits, cell)
        }
        Shape::Many(run) => store_along(alloc, map, *run, unit, bits, cell),
    }
}

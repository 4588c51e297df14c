//! Elements that take in what stands at their places in another list of runs.
ghost use Rattle.std.specs.Prelude.{◌≡◌, ℕ, ◌+◌, ◌-◌, ◌*◌, ◌<◌, ◌≤◌, IfOk, length, take, drop, replicate};
ghost use Rattle.cell_laws.specs.Elements.{places, width};
ghost use Rattle.cell_laws.specs.Join.{with_places, with_all};
ghost use Rattle.cell_runs.specs.Runs.{element_of, elements};
ghost use Rattle.run_places.specs.Spots.{AreRuns, ahead, IsSpot};
ghost use Rattle.run_places.specs.Stretches.{OnTaken, OnDone};

use crate::chunks::chunk_at;
use crate::merge::Merge;
use crate::places::{is_in, starts, with_others};
use crate::repeats::push_times;
use crate::spots::{Spot, skip_bits};
use cell_runs::Mem;
use cell_runs::cells::Cells;
use cell_runs::runs::{Run, push};
use std::alloc::Global;

/// The cell with what stands at the next places, if it can hold that.
fn with_places<C: Cells, M: Merge<C>>(
    alloc: Global,
    merge: &M,
    cell: &C,
    bits: u64,
    runs: &[Run<C>],
    spot: Spot,
) -> Mem<Option<C>>
    requires runs { AreRuns C.fine runs.now }
    requires spot { IsSpot runs.now spot }
    requires fine { C.fine bits cell.now }
    requires some { 0 < bits }
    requires few { bits ≤ 64 }
    requires enough { bits ≤ length (ahead runs.now spot) }
    ensures { IfOk result (λ c. c ≡ with_places C.ops (M.merged merge.now) bits cell.now
        (take bits (ahead runs.now spot))) }
{
    if starts(runs, spot, bits) {
        let run = &runs[spot.index];
        let merged = merge.merge(alloc, bits, &run.cell, cell)?;
        return Ok(Some(merged));
    }
    if is_in(cell, bits, runs, spot) {
        let same = cell.copy(alloc)?;
        return Ok(Some(same));
    }
    with_others(alloc, cell, bits, runs, spot)
}

/// Adds `count` elements like those of the run with what stands at the next places, if each can hold that.
fn with_few<C: Cells, M: Merge<C>>(
    alloc: Global,
    merge: &M,
    runs: &[Run<C>],
    spot: Spot,
    run: &Run<C>,
    count: u64,
    out: &mut Vec<Run<C>>,
) -> Mem<bool>
    requires runs { AreRuns C.fine runs.now }
    requires spot { IsSpot runs.now spot }
    requires fine { C.fine run.now.bits run.now.cell }
    requires enough { count * run.now.bits ≤ length (ahead runs.now spot) }
    ensures { IfOk result (λ done. OnDone (with_all C.ops (M.merged merge.now) (take (count * run.now.bits) (ahead runs.now spot))
        (replicate count (element_of run.now))) out.old.items out.new.items done) }
{
    let mut at = spot;
    let mut left = count;
    while left > 0 {
        let Some(cell) = with_places(alloc, merge, &run.cell, run.bits, runs, at)? else {
            return Ok(false);
        };
        push(
            out,
            Run {
                bits: run.bits,
                count: 1,
                cell,
            },
        )?;
        at = skip_bits(runs, at, run.bits);
        left -= 1;
    }
    Ok(true)
}

/// Adds the elements of the run with what stands at their places from the spot on, if each can hold that.
fn with_run<C: Cells, M: Merge<C>>(
    alloc: Global,
    merge: &M,
    runs: &[Run<C>],
    spot: &mut Spot,
    run: &Run<C>,
    out: &mut Vec<Run<C>>,
) -> Mem<bool>
    requires runs { AreRuns C.fine runs.now }
    requires spot { IsSpot runs.now spot.old }
    requires fine { C.fine run.now.bits run.now.cell }
    requires enough { run.now.bits * run.now.count ≤ length (ahead runs.now spot.old) }
    ensures taken { IfOk result (λ done. OnTaken C.ops (M.merged merge.now) (ahead runs.now spot.old) (ahead runs.now spot.new)
        (replicate run.now.count (element_of run.now)) out.old.items out.new.items done) }
    ensures spot { IfOk result (λ done. IsSpot runs.now spot.new) }
{
    let mut left = run.count;
    while left > 0 {
        let next = chunk_at(runs, *spot, run.bits, left);
        let mut made = Vec::new(alloc);
        if !with_few(alloc, merge, runs, *spot, run, next.size, &mut made)? {
            return Ok(false);
        }
        push_times(alloc, &made, next.repeats, out)?;
        *spot = next.next;
        left -= next.size * next.repeats;
    }
    Ok(true)
}

/// The second runs with what the first have at their places, if each element can hold that.
pub(crate) fn with_all<C: Cells, M: Merge<C>>(
    alloc: Global,
    merge: &M,
    first: &[Run<C>],
    second: &[Run<C>],
    out: &mut Vec<Run<C>>,
) -> Mem<bool>
    requires first { AreRuns C.fine first.now }
    requires second { AreRuns C.fine second.now }
    requires even { width (elements first.now) ≡ width (elements second.now) }
    ensures { IfOk result (λ done. OnDone (with_all C.ops (M.merged merge.now)
        (places (elements first.now)) (elements second.now)) out.old.items out.new.items done) }
{
    let mut spot = Spot { index: 0, skip: 0 };
    let mut i = 0;
    while i < second.len() {
        let run = &second[i];
        if !with_run(alloc, merge, first, &mut spot, run, out)? {
            return Ok(false);
        }
        i += 1;
    }
    Ok(true)
}

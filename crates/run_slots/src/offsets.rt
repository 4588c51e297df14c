//! Offsets at which all is found that many offsets have.
ghost use Rattle.std.specs.Prelude.{◌≡◌, ℕ, ◌+◌, ◌-◌, ◌*◌, ◌<◌, ◌≤◌, ◌^◌, ◌++◌, suc, IfOk, OnOk};
ghost use Rattle.cell_laws.specs.Elements.{width};
ghost use Rattle.cell_runs.specs.Runs.{elements};
ghost use Rattle.run_places.specs.Spots.{AreRuns};
ghost use Rattle.run_slots.specs.Offsets.{steps_from, Represent};
ghost use Rattle.run_slots.specs.Repeats.{told_once};

use crate::stretch::stretch_at;
use crate::walk::walk;
use cell_runs::Mem;
use cell_runs::cells::Cells;
use cell_runs::runs::Run;
use run_places::spots::Spot;
use std::alloc::Global;

/// A number, and `more` others, each `step` more than the one before.
#[derive(Clone, Copy, Drop)]
pub struct Steps {
    pub first: u64,
    pub step: u64,
    pub more: u64,
}

/// Adds `count` numbers, each `step` more than the one before.
pub fn push_steps(alloc: Global, first: u64, step: u64, count: u64, out: &mut Vec<u64>) -> Mem<()>
    requires small { first + (count - 1) * step < 2 ^ 64 }
    ensures { OnOk result (out.new.items ≡ out.old.items ++ steps_from first step count) }
{
    let mut i = 0;
    while i < count {
        out.push(first + i * step)?;
        i += 1;
    }
    Ok(())
}

/// Offsets among the steps at which all parts of so many bits are found that the runs have at any of these: at most 64 for each run that the steps
/// touch, but for those near its end.
pub fn distinct_offsets<C: Cells>(
    alloc: Global,
    runs: &[Run<C>],
    steps: Steps,
    bits: u64,
) -> Mem<Vec<u64>>
    requires runs { AreRuns C.fine runs.now }
    requires some { 0 < bits }
    requires step { 0 < steps.step }
    requires inside { steps.first + steps.more * steps.step + bits ≤ width (elements runs.now) }
    ensures value { IfOk result (λ offsets. offsets.items ≡ told_once runs.now bits steps.first steps.step (suc steps.more)) }
    ensures all { IfOk result (λ offsets. Represent C.ops (elements runs.now) bits steps.first steps.step (suc steps.more) offsets.items) }
{
    let mut offsets = Vec::new(alloc);
    let reach = bits.max(steps.step);
    let mut at = steps.first;
    let mut spot = walk(runs, Spot { index: 0, skip: 0 }, at);
    let mut left = steps.more + 1;
    while left > 0 {
        let next = stretch_at(runs, spot, steps.step, reach, left);
        push_steps(alloc, at, steps.step, next.size, &mut offsets)?;
        let count = next.size * next.repeats;
        if count == left {
            return Ok(offsets);
        }
        let far = count * steps.step;
        spot = walk(runs, spot, far);
        at += far;
        left -= count;
    }
    Ok(offsets)
}

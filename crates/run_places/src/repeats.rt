//! Runs that are added again and again.
ghost use Rattle.std.specs.Prelude.{◌≡◌, ℕ, ◌<◌, OnOk, replicate};
ghost use Rattle.cell_runs.specs.Runs.{element_of, elements, AllSome, Extends};
ghost use Rattle.run_places.specs.Chunks.{times};

use cell_runs::Mem;
use cell_runs::cells::Cells;
use cell_runs::parts::copy_runs;
use cell_runs::runs::{Run, push};
use std::alloc::Global;

/// Adds so many elements like those of the run.
fn push_many<C: Cells>(alloc: Global, run: &Run<C>, count: u64, out: &mut Vec<Run<C>>) -> Mem<()>
    requires bits { 0 < run.now.bits }
    ensures { OnOk result (Extends out.old.items out.new.items
        (replicate count (element_of run.now))) }
{
    if count == 0 {
        return Ok(());
    }
    let cell = run.cell.copy(alloc)?;
    push(
        out,
        Run {
            bits: run.bits,
            count,
            cell,
        },
    )
}

/// Adds copies of the runs, one time after the other.
fn push_each<C: Cells>(alloc: Global, runs: &[Run<C>], count: u64, out: &mut Vec<Run<C>>) -> Mem<()>
    requires some { AllSome runs.now }
    ensures { OnOk result (Extends out.old.items out.new.items (times count (elements runs.now))) }
{
    let mut left = count;
    while left > 0 {
        copy_runs(alloc, runs, out)?;
        left -= 1;
    }
    Ok(())
}

/// Adds the runs so many times; one run becomes one.
pub fn push_times<C: Cells>(
    alloc: Global,
    runs: &[Run<C>],
    count: u64,
    out: &mut Vec<Run<C>>,
) -> Mem<()>
    requires some { AllSome runs.now }
    ensures { OnOk result (Extends out.old.items out.new.items (times count (elements runs.now))) }
{
    if runs.len() != 1 {
        return push_each(alloc, runs, count, out);
    }
    let run = &runs[0];
    let Some(all) = run.count.checked_mul(count) else {
        return push_each(alloc, runs, count, out);
    };
    push_many(alloc, run, all, out)
}

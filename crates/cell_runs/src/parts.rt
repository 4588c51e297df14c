//! Parts of lists of runs, added behind other runs.
ghost use Rattle.std.specs.Prelude.{◌≡◌, ℕ, ◌+◌, ◌-◌, ◌*◌, ◌<◌, ◌≤◌, ◌^◌, IfOk, OnOk, drop, length, replicate};
ghost use Rattle.cell_laws.specs.Elements.{AllFine, width};
ghost use Rattle.cell_laws.specs.Access.{take_bits, drop_bits, copied};
ghost use Rattle.cell_runs.specs.Runs.{element_of, elements, AllSome, Extends};
ghost use Rattle.cell_runs.specs.Parts.{piece_of, Takes, Locates};

use crate::Mem;
use crate::cells::Cells;
use crate::runs::{Run, push};
use std::alloc::Global;

/// Adds so many elements like those of the run.
fn push_copy<C: Cells>(alloc: Global, run: &Run<C>, count: u64, out: &mut Vec<Run<C>>) -> Mem<()>
    requires bits { 0 < run.now.bits }
    ensures { OnOk result (Extends out.old.items out.new.items
        (replicate count (element_of run.now))) }
{
    if count == 0 {
        return Ok(());
    }
    let cell = run.cell.copy(alloc)?;
    push(
        out,
        Run {
            bits: run.bits,
            count,
            cell,
        },
    )
}

/// Adds `count` bits of an element of the run, from the bit `low` on.
fn push_piece<C: Cells>(
    alloc: Global,
    run: &Run<C>,
    low: u64,
    count: u64,
    out: &mut Vec<Run<C>>,
) -> Mem<()>
    requires fine { C.fine run.now.bits run.now.cell }
    requires inside { low + count ≤ run.now.bits }
    ensures { OnOk result (Extends out.old.items out.new.items
        (piece_of C.ops (element_of run.now) low count)) }
{
    if count == 0 {
        return Ok(());
    }
    let cell = run.cell.piece(alloc, run.bits, low, count)?;
    push(
        out,
        Run {
            bits: count,
            count: 1,
            cell,
        },
    )
}

/// Adds the first `n` bits of the run.
fn take_run<C: Cells>(alloc: Global, run: &Run<C>, n: u64, out: &mut Vec<Run<C>>) -> Mem<()>
    requires fine { C.fine run.now.bits run.now.cell }
    requires bits { 0 < run.now.bits }
    requires inside { n ≤ run.now.bits * run.now.count }
    ensures { OnOk result (Extends out.old.items out.new.items
        (take_bits C.ops (replicate run.now.count (element_of run.now)) n)) }
{
    push_copy(alloc, run, n / run.bits, out)?;
    push_piece(alloc, run, 0, n % run.bits, out)
}

/// Adds the bits of the run behind the first `n`.
fn drop_run<C: Cells>(alloc: Global, run: &Run<C>, n: u64, out: &mut Vec<Run<C>>) -> Mem<()>
    requires fine { C.fine run.now.bits run.now.cell }
    requires bits { 0 < run.now.bits }
    requires inside { n < run.now.bits * run.now.count }
    ensures { OnOk result (Extends out.old.items out.new.items
        (drop_bits C.ops (replicate run.now.count (element_of run.now)) n)) }
{
    let whole = n / run.bits;
    let cut = n % run.bits;
    if cut == 0 {
        return push_copy(alloc, run, run.count - whole, out);
    }
    push_piece(alloc, run, cut, run.bits - cut, out)?;
    push_copy(alloc, run, run.count - whole - 1, out)
}

/// Adds the first `n` bits of the runs. Where they have fewer it answers how many are missing.
pub fn take_runs<C: Cells>(
    alloc: Global,
    runs: &[Run<C>],
    n: u64,
    out: &mut Vec<Run<C>>,
) -> Mem<u64>
    requires some { AllSome runs.now }
    requires fine { AllFine C.fine (elements runs.now) }
    requires small { width (elements runs.now) < 2 ^ 64 }
    ensures { IfOk result (λ more. Takes C.ops runs.now n more out.old.items out.new.items) }
{
    let mut left = n;
    let mut i = 0;
    while i < runs.len() {
        if left == 0 {
            return Ok(0);
        }
        let run = &runs[i];
        let taken = left.min(run.bits * run.count);
        take_run(alloc, run, taken, out)?;
        left -= taken;
        i += 1;
    }
    Ok(left)
}

/// The run in which the bit `n` stands, and how far behind the run's first bit.
fn locate<C: Cells>(runs: &[Run<C>], n: u64) -> (usize, u64)
    requires some { AllSome runs.now }
    requires small { width (elements runs.now) < 2 ^ 64 }
    requires inside { n ≤ width (elements runs.now) }
    ensures { Locates C.ops runs.now n result.0 result.1 }
{
    let mut left = n;
    let mut i = 0;
    while i < runs.len() {
        let run = &runs[i];
        let bits = run.bits * run.count;
        if left < bits {
            return (i, left);
        }
        left -= bits;
        i += 1;
    }
    (i, left)
}

/// Adds copies of the runs.
pub fn copy_runs<C: Cells>(alloc: Global, runs: &[Run<C>], out: &mut Vec<Run<C>>) -> Mem<()>
    requires some { AllSome runs.now }
    ensures { OnOk result (Extends out.old.items out.new.items (elements runs.now)) }
{
    let mut i = 0;
    while i < runs.len() {
        let run = &runs[i];
        push_copy(alloc, run, run.count, out)?;
        i += 1;
    }
    Ok(())
}

/// Adds the bits of the runs behind the first `n`.
pub fn copy_rest<C: Cells>(alloc: Global, runs: &[Run<C>], n: u64, out: &mut Vec<Run<C>>) -> Mem<()>
    requires some { AllSome runs.now }
    requires fine { AllFine C.fine (elements runs.now) }
    requires small { width (elements runs.now) < 2 ^ 64 }
    requires inside { n ≤ width (elements runs.now) }
    ensures { OnOk result (Extends out.old.items out.new.items
        (drop_bits C.ops (elements runs.now) n)) }
{
    let (index, skip) = locate(runs, n);
    if index >= runs.len() {
        return Ok(());
    }
    drop_run(alloc, &runs[index], skip, out)?;
    copy_runs(alloc, &runs[index + 1..], out)
}

/// Adds `n` bits of the runs, from the bit `at` on.
pub fn copy_part<C: Cells>(
    alloc: Global,
    runs: &[Run<C>],
    at: u64,
    n: u64,
    out: &mut Vec<Run<C>>,
) -> Mem<()>
    requires some { AllSome runs.now }
    requires fine { AllFine C.fine (elements runs.now) }
    requires small { width (elements runs.now) < 2 ^ 64 }
    requires inside { at + n ≤ width (elements runs.now) }
    ensures { OnOk result (Extends out.old.items out.new.items
        (copied C.ops (elements runs.now) at n)) }
{
    let (index, skip) = locate(runs, at);
    if index >= runs.len() {
        return Ok(());
    }
    let mut front = Vec::new(alloc);
    drop_run(alloc, &runs[index], skip, &mut front)?;
    let more = take_runs(alloc, &front, n, out)?;
    take_runs(alloc, &runs[index + 1..], more, out)?;
    Ok(())
}

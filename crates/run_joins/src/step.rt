//! Steps of the join, element by element.
ghost use Rattle.std.specs.Prelude.{◌≡◌, ℕ, ◌+◌, ◌<◌, ◌≤◌, ◌^◌, ◌⊎◌, IfOk, OnOk, IsTrue, IsFalse, drop, length};
ghost use Rattle.cell_laws.specs.Elements.{AllFine};
ghost use Rattle.cell_runs.specs.Runs.{elements, AllSome};
ghost use Rattle.run_joins.specs.Joining.{IsCursor, SameBits, AreEven, Steps, Moves, AreMaps};

use crate::cursor::{Cursor, advance};
use cell_runs::Mem;
use cell_runs::cells::Cells;
use cell_runs::parts::copy_runs;
use cell_runs::runs::{Run, push};
use run_places::merge::Merge;
use run_places::stretches::stretch;
use std::alloc::Global;

/// Moves the element at the cursor to the end of `into`, and answers its bits.
fn take<C: Cells>(
    alloc: Global,
    runs: &[Run<C>],
    at: &mut Cursor,
    into: &mut Vec<Run<C>>,
) -> Mem<u64>
    requires inside { at.old.index < length runs.now }
    requires cursor { IsCursor runs.now at.old }
    requires some { AllSome runs.now }
    ensures { IfOk result (λ bits. Moves runs.now at.old at.new into.old.items into.new.items bits) }
{
    let run = &runs[at.index];
    let bits = run.bits;
    let cell = run.cell.copy(alloc)?;
    push(
        into,
        Run {
            bits,
            count: 1,
            cell,
        },
    )?;
    advance(runs, at, 1);
    Ok(bits)
}

/// Joins elements that both have at the same bits.
pub(crate) fn same_run<C: Cells, M: Merge<C>>(
    alloc: Global,
    merge: &M,
    a: &[Run<C>],
    i: &mut Cursor,
    b: &[Run<C>],
    j: &mut Cursor,
    out: &mut Vec<Run<C>>,
) -> Mem<()>
    requires first { i.old.index < length a.now }
    requires second { j.old.index < length b.now }
    requires maps { AreMaps C.fine a.now b.now }
    requires even { AreEven a.now i.old b.now j.old }
    requires same { SameBits (drop i.old.index a.now) (drop j.old.index b.now) }
    ensures { OnOk result (Steps C.ops (M.merged merge.now)
        a.now i.old i.new b.now j.old j.new out.old.items out.new.items) }
{
    let x = &a[i.index];
    let y = &b[j.index];
    let n = (x.count - i.used).min(y.count - j.used);
    let cell = merge.merge(alloc, x.bits, &x.cell, &y.cell)?;
    push(
        out,
        Run {
            bits: x.bits,
            count: n,
            cell,
        },
    )?;
    advance(a, i, n);
    advance(b, j, n);
    Ok(())
}

/// Whether no common cut has been reached.
fn is_open(p: u64, q: u64) -> bool
    ensures open { IsTrue result → (p ≡ q → ⊥) ⊎ (p ≡ 0) }
    ensures closed { IsFalse result → (p ≡ q) × (0 < p) }
{
    if p == q {
        return p == 0;
    }
    true
}

/// Joins the elements up to the next common cut.
pub(crate) fn gather<C: Cells, M: Merge<C>>(
    alloc: Global,
    merge: &M,
    a: &[Run<C>],
    i: &mut Cursor,
    b: &[Run<C>],
    j: &mut Cursor,
    out: &mut Vec<Run<C>>,
) -> Mem<()>
    requires first { i.old.index < length a.now }
    requires maps { AreMaps C.fine a.now b.now }
    requires even { AreEven a.now i.old b.now j.old }
    ensures { OnOk result (Steps C.ops (M.merged merge.now)
        a.now i.old i.new b.now j.old j.new out.old.items out.new.items) }
{
    let mut p = Vec::new(alloc);
    let mut q = Vec::new(alloc);
    let mut left = 0;
    let mut right = 0;
    while is_open(left, right) {
        if left <= right {
            left += take(alloc, a, i, &mut p)?;
        } else {
            right += take(alloc, b, j, &mut q)?;
        }
    }
    let made = stretch(alloc, merge, &p, &q)?;
    copy_runs(alloc, &made, out)
}

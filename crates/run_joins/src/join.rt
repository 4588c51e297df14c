//! The join of two lists of runs. Where elements of one size meet those of another, again and again, it is made once for all: the work is that of
//! the runs of both lists and of the result, but for stretches of elements that have no common cut.
ghost use Rattle.std.specs.Prelude.{◌≡◌, ℕ, ◌<◌, ◌^◌, OnOk, drop, length};
ghost use Rattle.cell_laws.specs.Elements.{width};
ghost use Rattle.cell_laws.specs.Join.{joined};
ghost use Rattle.cell_runs.specs.Runs.{elements, AllSome, Extends};
ghost use Rattle.run_joins.specs.Joining.{AreEven, Steps, AreMaps};
ghost use Rattle.run_joins.specs.Periods.{HavePeriods};

use crate::cursor::{Cursor, advance};
use crate::each::join_each;
use crate::periods::{Periods, front, periods_of};
use crate::step::{gather, same_run};
use cell_runs::Mem;
use cell_runs::cells::Cells;
use cell_runs::runs::Run;
use run_places::merge::Merge;
use run_places::repeats::push_times;
use std::alloc::Global;

/// Joins the elements of two runs up to a common cut, and then all that repeat them.
fn repeat<C: Cells, M: Merge<C>>(
    alloc: Global,
    merge: &M,
    a: &[Run<C>],
    i: &mut Cursor,
    b: &[Run<C>],
    j: &mut Cursor,
    next: Periods,
    out: &mut Vec<Run<C>>,
) -> Mem<()>
    requires first { i.old.index < length a.now }
    requires second { j.old.index < length b.now }
    requires maps { AreMaps C.fine a.now b.now }
    requires even { AreEven a.now i.old b.now j.old }
    requires some { 0 < next.repeats }
    requires periods { HavePeriods (drop i.old.index a.now) i.old.used (drop j.old.index b.now) j.old.used next }
    ensures { OnOk result (Steps C.ops (M.merged merge.now)
        a.now i.old i.new b.now j.old j.new out.old.items out.new.items) }
{
    let first = front(alloc, &a[i.index], next.first)?;
    let second = front(alloc, &b[j.index], next.second)?;
    let mut made = Vec::new(alloc);
    join_each(alloc, merge, &first, &second, &mut made)?;
    push_times(alloc, &made, next.repeats, out)?;
    advance(a, i, next.first * next.repeats);
    advance(b, j, next.second * next.repeats);
    Ok(())
}

/// Joins what stands at the cursors.
fn step<C: Cells, M: Merge<C>>(
    alloc: Global,
    merge: &M,
    a: &[Run<C>],
    i: &mut Cursor,
    b: &[Run<C>],
    j: &mut Cursor,
    out: &mut Vec<Run<C>>,
) -> Mem<()>
    requires first { i.old.index < length a.now }
    requires maps { AreMaps C.fine a.now b.now }
    requires even { AreEven a.now i.old b.now j.old }
    ensures { OnOk result (Steps C.ops (M.merged merge.now)
        a.now i.old i.new b.now j.old j.new out.old.items out.new.items) }
{
    let x = &a[i.index];
    let y = &b[j.index];
    if x.bits == y.bits {
        return same_run(alloc, merge, a, i, b, j, out);
    }
    let next = periods_of(x.bits, x.count - i.used, y.bits, y.count - j.used);
    if next.repeats == 0 {
        return gather(alloc, merge, a, i, b, j, out);
    }
    repeat(alloc, merge, a, i, b, j, next, out)
}

/// The join of two lists of runs that are as wide, behind what `out` has.
pub fn join<C: Cells, M: Merge<C>>(
    alloc: Global,
    merge: &M,
    a: &[Run<C>],
    b: &[Run<C>],
    out: &mut Vec<Run<C>>,
) -> Mem<()>
    requires maps { AreMaps C.fine a.now b.now }
    requires even { width (elements a.now) ≡ width (elements b.now) }
    requires small { width (elements a.now) < 2 ^ 64 }
    ensures { OnOk result (Extends out.old.items out.new.items
        (joined C.ops (M.merged merge.now) (elements a.now) (elements b.now))) }
{
    let mut i = Cursor { index: 0, used: 0 };
    let mut j = Cursor { index: 0, used: 0 };
    while i.index < a.len() {
        step(alloc, merge, a, &mut i, b, &mut j, out)?;
    }
    Ok(())
}

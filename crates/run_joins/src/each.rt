//! The join of two lists of runs, element by element where their sizes differ.
ghost use Rattle.std.specs.Prelude.{◌≡◌, ℕ, ◌<◌, ◌^◌, OnOk, length};
ghost use Rattle.cell_laws.specs.Elements.{width};
ghost use Rattle.cell_laws.specs.Join.{joined};
ghost use Rattle.cell_runs.specs.Runs.{elements, AllSome, Extends};
ghost use Rattle.run_joins.specs.Joining.{AreEven, Steps, AreMaps};

use crate::cursor::Cursor;
use crate::step::{gather, same_run};
use cell_runs::Mem;
use cell_runs::cells::Cells;
use cell_runs::runs::Run;
use run_places::merge::Merge;
use std::alloc::Global;

/// Joins what stands at the cursors.
fn step<C: Cells, M: Merge<C>>(
    alloc: Global,
    merge: &M,
    a: &[Run<C>],
    i: &mut Cursor,
    b: &[Run<C>],
    j: &mut Cursor,
    out: &mut Vec<Run<C>>,
) -> Mem<()>
    requires first { i.old.index < length a.now }
    requires maps { AreMaps C.fine a.now b.now }
    requires even { AreEven a.now i.old b.now j.old }
    ensures { OnOk result (Steps C.ops (M.merged merge.now)
        a.now i.old i.new b.now j.old j.new out.old.items out.new.items) }
{
    let x = &a[i.index];
    let y = &b[j.index];
    if x.bits == y.bits {
        return same_run(alloc, merge, a, i, b, j, out);
    }
    gather(alloc, merge, a, i, b, j, out)
}

/// The join of two lists of runs that are as wide, element by element where their sizes differ, behind what `out` has.
pub(crate) fn join_each<C: Cells, M: Merge<C>>(
    alloc: Global,
    merge: &M,
    a: &[Run<C>],
    b: &[Run<C>],
    out: &mut Vec<Run<C>>,
) -> Mem<()>
    requires maps { AreMaps C.fine a.now b.now }
    requires even { width (elements a.now) ≡ width (elements b.now) }
    requires small { width (elements a.now) < 2 ^ 64 }
    ensures { OnOk result (Extends out.old.items out.new.items
        (joined C.ops (M.merged merge.now) (elements a.now) (elements b.now))) }
{
    let mut i = Cursor { index: 0, used: 0 };
    let mut j = Cursor { index: 0, used: 0 };
    while i.index < a.len() {
        step(alloc, merge, a, &mut i, b, &mut j, out)?;
    }
    Ok(())
}

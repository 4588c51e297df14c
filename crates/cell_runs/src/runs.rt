//! Runs, and lists of them.
ghost use Rattle.std.specs.Prelude.{◌≡◌, ℕ, ◌<◌, ◌++◌, IfOk, OnOk, IsTrue, IsFalse, replicate};
ghost use Rattle.cell_runs.specs.Runs.{element_of, elements, Extends, Grows, StaysApart};

use crate::Mem;
use crate::cells::Cells;

/// So many elements of so many bits, each with the cell.
#[derive(Drop)]
pub struct Run<C> {
    pub bits: u64,
    pub count: u64,
    pub cell: C,
}

/// Whether the last run may take in a run that follows.
fn grows<C: Cells>(out: &[Run<C>], run: &Run<C>) -> bool
    ensures same { IsTrue result → Grows out.now run.now }
    ensures other { IsFalse result → StaysApart out.now run.now }
{
    let n = out.len();
    if n == 0 {
        return false;
    }
    let last = &out[n - 1];
    if last.bits != run.bits {
        return false;
    }
    if last.count > u64::MAX - run.count {
        return false;
    }
    last.cell.is_same(&run.cell)
}

/// Adds a run behind others.
pub fn push<C: Cells>(out: &mut Vec<Run<C>>, run: Run<C>) -> Mem<()>
    requires bits { 0 < run.bits }
    requires count { 0 < run.count }
    ensures { OnOk result (Extends out.old.items out.new.items
        (replicate run.count (element_of run))) }
{
    if grows(out, &run) {
        let n = out.len();
        let last = &mut out[n - 1];
        last.count += run.count;
        return Ok(());
    }
    out.push(run)?;
    Ok(())
}

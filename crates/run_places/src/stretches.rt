//! The join of two stretches that have no common cut inside.
ghost use Rattle.std.specs.Prelude.{◌≡◌, ℕ, ◌<◌, ◌^◌, IfOk, OnOk, [], ◌∷◌};
ghost use Rattle.cell_laws.specs.Elements.{places, width};
ghost use Rattle.cell_laws.specs.Join.{with_all, any_bits, or_any};
ghost use Rattle.cell_runs.specs.Runs.{elements, AllSome, Extends};
ghost use Rattle.run_places.specs.Spots.{AreRuns};
ghost use Rattle.run_places.specs.Stretches.{IsStretch, AreElements};

use crate::merge::Merge;
use crate::spots::{Front, Spot, step_along};
use crate::taking::with_all;
use cell_runs::Mem;
use cell_runs::cells::Cells;
use cell_runs::runs::{Run, push};
use std::alloc::Global;

/// Adds bits by themselves, each of which may be anything of what both have there.
fn any_bits<C: Cells, M: Merge<C>>(
    alloc: Global,
    merge: &M,
    first: &[Run<C>],
    second: &[Run<C>],
    out: &mut Vec<Run<C>>,
) -> Mem<()>
    requires first { AreRuns C.fine first.now }
    requires second { AreRuns C.fine second.now }
    requires even { width (elements first.now) ≡ width (elements second.now) }
    ensures { OnOk result (Extends out.old.items out.new.items (any_bits C.ops (M.merged merge.now)
        (places (elements first.now)) (places (elements second.now)))) }
{
    let mut s = Spot { index: 0, skip: 0 };
    let mut t = Spot { index: 0, skip: 0 };
    while s.index < first.len() {
        let x = &first[s.index];
        let most = step_along(first, s, u64::MAX).count;
        let y = &second[t.index];
        let Front { count, next } = step_along(second, t, most);
        let after = step_along(first, s, count);
        let cell = x.cell.any_of(alloc, &y.cell)?;
        push(
            out,
            Run {
                bits: 1,
                count,
                cell,
            },
        )?;
        s = after.next;
        t = next;
    }
    Ok(())
}

/// The bits of both by themselves.
fn only_bits<C: Cells, M: Merge<C>>(
    alloc: Global,
    merge: &M,
    first: &[Run<C>],
    second: &[Run<C>],
) -> Mem<Vec<Run<C>>>
    requires first { AreRuns C.fine first.now }
    requires second { AreRuns C.fine second.now }
    requires even { width (elements first.now) ≡ width (elements second.now) }
    ensures { IfOk result (λ r. AreElements r.items (any_bits C.ops (M.merged merge.now)
        (places (elements first.now)) (places (elements second.now)))) }
{
    let mut made = Vec::new(alloc);
    any_bits(alloc, merge, first, second, &mut made)?;
    Ok(made)
}

/// The first runs with what the second have at their places, or the bits by themselves.
fn first_or_bits<C: Cells, M: Merge<C>>(
    alloc: Global,
    merge: &M,
    first: &[Run<C>],
    second: &[Run<C>],
) -> Mem<Vec<Run<C>>>
    requires first { AreRuns C.fine first.now }
    requires second { AreRuns C.fine second.now }
    requires even { width (elements first.now) ≡ width (elements second.now) }
    ensures { IfOk result (λ r. AreElements r.items (or_any C.ops (M.merged merge.now)
        (elements first.now) (elements second.now)
        (with_all C.ops (M.merged merge.now) (places (elements second.now)) (elements first.now)))) }
{
    let mut made = Vec::new(alloc);
    if with_all(alloc, merge, second, first, &mut made)? {
        return Ok(made);
    }
    only_bits(alloc, merge, first, second)
}

/// The join of two stretches.
pub fn stretch<C: Cells, M: Merge<C>>(
    alloc: Global,
    merge: &M,
    first: &[Run<C>],
    second: &[Run<C>],
) -> Mem<Vec<Run<C>>>
    requires first { AreRuns C.fine first.now }
    requires second { AreRuns C.fine second.now }
    requires even { width (elements first.now) ≡ width (elements second.now) }
    ensures { IfOk result (λ r. IsStretch C.ops (M.merged merge.now) first.now second.now r.items) }
{
    let mut made = Vec::new(alloc);
    if with_all(alloc, merge, first, second, &mut made)? {
        return Ok(made);
    }
    first_or_bits(alloc, merge, first, second)
}

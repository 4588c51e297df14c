//! Elements of two sizes, up to a common cut.
ghost use Rattle.std.specs.Prelude.{◌≡◌, ℕ, ◌*◌, ◌<◌, ◌≤◌, IfOk, [], ◌∷◌};
ghost use Rattle.run_joins.specs.Periods.{ArePeriods};

use cell_runs::Mem;
use cell_runs::cells::Cells;
use cell_runs::runs::Run;
use run_places::chunks::period;
use std::alloc::Global;

/// So many elements of one run end where so many of another do, and both runs have these `repeats` times.
#[derive(Clone, Copy, Drop)]
pub(crate) struct Periods {
    pub(crate) first: u64,
    pub(crate) second: u64,
    pub(crate) repeats: u64,
}

/// The elements up to the first common cut, where `left` elements of `x` bits and `right` of `y` bits stand.
pub(crate) fn periods_of(x: u64, left: u64, y: u64, right: u64) -> Periods
    requires first { 0 < x }
    requires first_few { x ≤ 64 }
    requires second { 0 < y }
    requires second_few { y ≤ 64 }
    ensures { ArePeriods x left y right result }
{
    let first = period(y, x);
    let second = first * x / y;
    let repeats = (left / first).min(right / second);
    Periods {
        first,
        second,
        repeats,
    }
}

/// So many elements of the run, by themselves.
pub(crate) fn front<C: Cells>(alloc: Global, run: &Run<C>, count: u64) -> Mem<Vec<Run<C>>>
    ensures { IfOk result (λ runs. runs.items
        ≡ record { bits = run.now.bits; count = count; cell = run.now.cell } ∷ []) }
{
    let mut runs = Vec::new(alloc);
    let cell = run.cell.copy(alloc)?;
    runs.push(Run {
        bits: run.bits,
        count,
        cell,
    })?;
    Ok(runs)
}

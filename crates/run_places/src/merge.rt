//! What a join or a widening makes of cells.
ghost use Rattle.std.specs.Prelude.{◌≡◌, ℕ, IfOk};
ghost use Rattle.cell_laws.specs.Laws.{MergeLaws};

use cell_runs::Mem;
use cell_runs::cells::Cells;
use std::alloc::Global;

/// A way to make one map of two that are as wide.
pub trait Merge<C: Cells> {
    /// The cell of elements of so many bits that both have at the same bits.
    ghost merged: { Self → ℕ → C → C → C };

    /// The cell where both have one element at the same bits.
    fn merge(&self, alloc: Global, bits: u64, first: &C, second: &C) -> Mem<C>
        requires first { C.fine bits first.now }
        requires second { C.fine bits second.now }
        ensures { IfOk result (λ c. c ≡ merged self.now bits first.now second.now) };

    ghost laws: { (m : Self) → MergeLaws C.ops C.fine (merged m) };
}

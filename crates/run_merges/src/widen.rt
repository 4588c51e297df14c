//! The widening, as a way to make one map of two.
ghost use Rattle.std.specs.Prelude.{◌≡◌, ℕ, IfOk};
ghost use Rattle.run_places.specs.Widens.{WidenLaws};
ghost use Rattle.run_merges.specs.Widened.{widened_cell, widened_cell_laws};

use crate::allowed::is_same_number;
use cell_runs::Mem;
use cell_runs::cells::Cells;
use run_places::merge::Merge;
use std::alloc::Global;

/// A way to widen cells, so that their growth ends.
pub trait Widens<C: Cells> {
    /// A cell that includes both, in an element of so many bits.
    ghost widened: { Self → ℕ → C → C → C };

    fn widen(&self, alloc: Global, bits: u64, first: &C, second: &C) -> Mem<C>
        requires first { C.fine bits first.now }
        requires second { C.fine bits second.now }
        ensures { IfOk result (λ c. c ≡ widened self.now bits first.now second.now) };

    ghost laws: { (w : Self) → WidenLaws C.ops C.fine (widened w) };
}

/// The widening: of cells that have the same number alone it is the second.
#[derive(Drop)]
pub struct Widening<'a, W> {
    pub by: &'a W,
}

impl<'a, C: Cells, W: Widens<C>> Merge<C> for Widening<'a, W> {
    ghost merged = { λ w. widened_cell C.ops (W.widened w.by.now) };

    fn merge(&self, alloc: Global, bits: u64, first: &C, second: &C) -> Mem<C> {
        if is_same_number(first, bits, second) {
            return second.copy(alloc);
        }
        self.by.widen(alloc, bits, first, second)
    }

    ghost laws = { λ w. widened_cell_laws C.ops C.fine (W.widened w.by.now) C.fine_laws C.order_laws (W.laws w.by.now) };
}

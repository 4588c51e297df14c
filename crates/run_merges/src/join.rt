//! The join, as a way to make one map of two.
ghost use Rattle.std.specs.Prelude.{◌≡◌, ℕ, IfOk};
ghost use Rattle.cell_laws.specs.Join.{joined_cell};
ghost use Rattle.cell_laws.proofs.Joins.{joined_cell_laws};

use crate::allowed::is_allowed;
use cell_runs::Mem;
use cell_runs::cells::Cells;
use run_places::merge::Merge;
use std::alloc::Global;

/// The join.
#[derive(Clone, Copy, Drop)]
pub struct Join;

impl<C: Cells> Merge<C> for Join {
    ghost merged = { λ _. joined_cell C.ops };

    fn merge(&self, alloc: Global, bits: u64, first: &C, second: &C) -> Mem<C> {
        if is_allowed(first, bits, second) {
            return second.copy(alloc);
        }
        first.join(alloc, second)
    }

    ghost laws = { λ _. joined_cell_laws C.ops C.fine C.fine_laws C.order_laws C.join_laws };
}

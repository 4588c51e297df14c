//! Cells when a base has died.
ghost use Rattle.std.specs.Prelude.{◌≡◌, IfOk};
ghost use Rattle.avalue_base.specs.Deaths.{forgotten};
ghost use Rattle.cell_contents.proofs.Deaths.{left_laws};

use avalue::{Cellv, Mem};
use c_base::number::BaseId;
use run_orders::deaths::Death;
use std::alloc::Global;

/// The death of a base. Laws of what is left are `left_laws` and `death_laws` of `cell_contents`.
#[derive(Clone, Copy, Drop)]
pub struct DeathOf {
    pub base: BaseId,
}

impl Death<Cellv> for DeathOf {
    ghost left = { λ d. forgotten d.base.0 };

    fn leave(&self, alloc: Global, cell: &Cellv) -> Mem<Cellv> {
        cell.forget_base(alloc, self.base)
    }

    ghost laws = { λ d. left_laws d.base.0 };
}

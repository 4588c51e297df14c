//! Cells when one of all bases has died.
ghost use Rattle.avalue_base.specs.Deaths.{forgotten};
ghost use Rattle.cell_contents.proofs.Deaths.{left_laws};

use avalue::{Cellv, Mem};
use c_base::number::BaseId;
use memory_scopes::Deaths;
use std::alloc::Global;

/// The deaths of all bases.
#[derive(Clone, Copy, Drop)]
pub struct EachDeath;

impl Deaths<Cellv> for EachDeath {
    ghost left = { λ _ b. forgotten b.0 };

    fn leave(&self, alloc: Global, base: BaseId, cell: &Cellv) -> Mem<Cellv> {
        cell.forget_base(alloc, base)
    }

    ghost laws = { λ _ b. left_laws b.0 };
}

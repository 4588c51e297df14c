//! Objects that die, and slots that are let go.
ghost use Rattle.std.specs.Prelude.{◌≡◌, IfOk};
ghost use Rattle.c_base.specs.declared.number.BaseId.{BaseId as PlainBase};
ghost use Rattle.run_orders.specs.Deaths.{LeftLaws};
ghost use Rattle.avalue.specs.declared.row.Target.TheVariants.{Slot};
ghost use Rattle.memory_maps.specs.Memories.{without};
ghost use Rattle.memory_scopes.specs.Scopes.{left_scope};

use avalue::Target;
use c_base::number::BaseId;
use cell_runs::Mem;
use cell_runs::cells::Cells;
use memory_maps::Memory;
use run_orders::deaths::Death;
use std::alloc::Global;

/// The deaths of all objects: what is left of a cell when one of them has died.
pub trait Deaths<C: Cells> {
    ghost left: { Self → PlainBase → C → C };

    fn leave(&self, alloc: Global, base: BaseId, cell: &C) -> Mem<C>
        ensures { IfOk result (λ c. c ≡ left self.now base cell.now) };

    ghost laws: { (d : Self) (b : PlainBase) → LeftLaws C.ops C.fine (left d b) };
}

/// The death of one of them.
#[derive(Drop)]
struct DeathAmong<'a, D> {
    deaths: &'a D,
    base: BaseId,
}

impl<'a, C: Cells, D: Deaths<C>> Death<C> for DeathAmong<'a, D> {
    ghost left = { λ d. D.left d.deaths.now d.base };

    fn leave(&self, alloc: Global, cell: &C) -> Mem<C> {
        self.deaths.leave(alloc, self.base, cell)
    }

    ghost laws = { λ d. D.laws d.deaths.now d.base };
}

/// What is left of the memory when these objects have died, one after another.
pub fn leave_scope<C: Cells, D: Deaths<C>>(
    alloc: Global,
    memory: &Memory<C>,
    deaths: &D,
    bases: &[BaseId],
) -> Mem<Memory<C>>
    ensures { IfOk result (λ m. m ≡ left_scope C.ops (D.left deaths.now) bases.now memory.now) }
{
    let mut left = memory.duplicate()?;
    for base in bases {
        let death = DeathAmong {
            deaths,
            base: *base,
        };
        left = left.leave_base(alloc, *base, &death)?;
    }
    Ok(left)
}

/// The memory in which the slot isn't held any more.
pub fn release<C: Cells>(alloc: Global, memory: &Memory<C>, slot: u32) -> Mem<Memory<C>>
    ensures { IfOk result (λ m. m ≡ without memory.now (Slot slot)) }
{
    memory.without(alloc, Target::Slot(slot))
}

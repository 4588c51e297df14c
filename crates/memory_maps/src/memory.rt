//! The maps of a memory by number, births and deaths.
ghost use Rattle.std.specs.Prelude.{◌≡◌, ℕ, ◌*◌, ◌<◌, ◌^◌, IfOk, []};
ghost use Rattle.std.specs.Option.{option_copied};
ghost use Rattle.std.specs.List.{AllByRecursion};
ghost use Rattle.ptree.specs.Entries.{IsMap};
ghost use Rattle.memory_maps.specs.Memories.{nothing, map_at, with_map as with_map_at, without as without_at, entered, left_by, HasBits, IsMemory};

use crate::leaving::Leaving;
use avalue::{Sizes, Target};
use c_base::number::BaseId;
use cell_runs::Mem;
use cell_runs::cells::Cells;
use offmap::OffMap;
use ptree::PTree;
use run_orders::deaths::Death;
use std::alloc::Global;
use std::marker::Model;

/// The maps of live objects and of held slots, by their numbers.
#[derive(Drop)]
pub struct Memory<C: Cells> {
    bases: PTree<OffMap<C>>,
    slots: PTree<OffMap<C>>,
}

impl<C: Cells> Model for Memory<C> {
    ghost use Rattle.std.specs.Prelude.{List, ℕ};
    ghost use Rattle.cell_laws.specs.Elements.{Element};
    ghost use Rattle.memory_maps.specs.Memories.{IsMemory};

    ghost Value = { List (ℕ × List (Element C)) × List (ℕ × List (Element C)) };

    ghost view = { λ m. (m.bases, m.slots) };

    ghost invariant = { λ m. IsMemory C.fine (m.bases, m.slots) };
}

impl<C: Cells> Memory<C> {
    /// No object lives, and no slot is held.
    pub fn none() -> Memory<C>
        ensures { result ≡ nothing }
    {
        Memory {
            bases: PTree::new(),
            slots: PTree::new(),
        }
    }

    /// The memory of these maps of live objects and of held slots.
    pub fn of(bases: PTree<OffMap<C>>, slots: PTree<OffMap<C>>) -> Memory<C>
        requires { IsMemory C.fine (bases, slots) }
        ensures { result ≡ (bases, slots) }
    {
        Memory { bases, slots }
    }

    /// The maps of the live objects by their numbers.
    pub fn bases(&self) -> &PTree<OffMap<C>>
        ensures value { result.now ≡ self.now.0 }
        ensures map { IsMap self.now.0 }
    {
        let _found = self.bases.get(0);
        &self.bases
    }

    /// The maps of the held slots by their numbers.
    pub fn slots(&self) -> &PTree<OffMap<C>>
        ensures value { result.now ≡ self.now.1 }
        ensures map { IsMap self.now.1 }
    {
        let _found = self.slots.get(0);
        &self.slots
    }

    /// What is true of every memory: the cells of its maps may stand in their elements, the maps' bits can be counted, and their numbers have 32 bits.
    pub fn facts(&self)
        ensures { IsMemory C.fine self.now }
    {
        let _bases = &self.bases;
    }

    /// The same memory, which shares all maps with this one.
    pub fn duplicate(&self) -> Mem<Memory<C>>
        ensures { IfOk result (λ m. m ≡ self.now) }
    {
        let bases = self.bases.share()?;
        let slots = self.slots.share()?;
        Ok(Memory { bases, slots })
    }

    /// The map of an object or a slot, if it lives or is held.
    pub fn find(&self, target: Target) -> Option<&OffMap<C>>
        ensures { option_copied result ≡ map_at self.now target }
    {
        match target {
            Target::Base(base) => self.bases.get(base.0 as u64),
            Target::Slot(slot) => self.slots.get(slot as u64),
        }
    }

    /// The memory with this map of an object or a slot. It shares the others with the old memory.
    pub fn with_map(&self, alloc: Global, target: Target, map: OffMap<C>) -> Mem<Memory<C>>
        ensures { IfOk result (λ m. m ≡ with_map_at self.now target map) }
    {
        map.facts();
        match target {
            Target::Base(base) => {
                let bases = self.bases.set(alloc, base.0 as u64, map)?;
                let slots = self.slots.share()?;
                Ok(Memory { bases, slots })
            }
            Target::Slot(slot) => {
                let slots = self.slots.set(alloc, slot as u64, map)?;
                let bases = self.bases.share()?;
                Ok(Memory { bases, slots })
            }
        }
    }

    /// The memory without an object, or in which the slot isn't held any more.
    pub fn without(&self, alloc: Global, target: Target) -> Mem<Memory<C>>
        ensures { IfOk result (λ m. m ≡ without_at self.now target) }
    {
        match target {
            Target::Base(base) => {
                let bases = self.bases.remove(alloc, base.0 as u64)?;
                let slots = self.slots.share()?;
                Ok(Memory { bases, slots })
            }
            Target::Slot(slot) => {
                let slots = self.slots.remove(alloc, slot as u64)?;
                let bases = self.bases.share()?;
                Ok(Memory { bases, slots })
            }
        }
    }

    /// The memory in which these objects are born, not written yet.
    pub fn enter_scope<S: Sizes>(
        &self,
        alloc: Global,
        sizes: &S,
        bases: &[BaseId],
    ) -> Mem<Memory<C>>
        requires { AllByRecursion (HasBits (S.size_of sizes.now)) bases.now }
        ensures { IfOk result (λ m. m ≡ entered C.ops (S.size_of sizes.now) bases.now self.now) }
    {
        let mut memory = self.duplicate()?;
        for base in bases {
            let map = OffMap::uninit(alloc, 8 * sizes.size(*base))?;
            memory = memory.with_map(alloc, Target::Base(*base), map)?;
        }
        Ok(memory)
    }

    /// What is left of the memory when the object has died, as `death` says of each cell.
    pub fn leave_base<D: Death<C>>(&self, alloc: Global, base: BaseId, death: &D) -> Mem<Memory<C>>
        ensures { IfOk result (λ m. m ≡ left_by C.ops (D.left death.now) base self.now) }
    {
        let others = self.bases.remove(alloc, base.0 as u64)?;
        let none = PTree::new();
        let leaving = Leaving { death };
        let bases = others.merge(alloc, &none, &leaving)?;
        let slots = self.slots.merge(alloc, &none, &leaving)?;
        Ok(Memory { bases, slots })
    }
}

//! What the ends of scopes mean: each law is the contract of a function that does nothing.
ghost use Rattle.std.specs.Prelude.{◌≡◌, ℕ, List, Option};
ghost use Rattle.c_base.specs.declared.number.BaseId.{BaseId};
ghost use Rattle.run_orders.specs.Deaths.{LeftLaws};
ghost use Rattle.offmap_laws.specs.Contents.{DeathLaws};
ghost use Rattle.avalue.specs.declared.row.Target.TheVariants.{Slot};
ghost use Rattle.memory_maps.specs.Memories.{MapsOf, IsMemory, without};
ghost use Rattle.memory_maps.specs.Meaning.{DescribesMemory};
ghost use Rattle.memory_scopes.specs.Scopes.{IsInOrder, HasShape, left_scope, without_bases, without_slot, died, outlived};

use cell_runs::cells::Cells;
use offmap_laws::concrete::Concrete;

/// When objects have died, what is left describes what has become of each described memory: they are no more, and each bit that lives on has
/// become what each death makes of it.
pub fn deaths_describe<C: Cells, M: Concrete<C>>()
    ensures { (world : M.World) (wither : BaseId → M.Bit → M.Bit) (left : BaseId → C → C) (m : MapsOf C) (bs : List BaseId)
        (objects held : ℕ → Option (List M.Bit)) → ((b : BaseId) → LeftLaws C.ops C.fine (left b)) →
        ((b : BaseId) → DeathLaws C.fine (M.allows world) (wither b) (left b)) → IsInOrder m → IsMemory C.fine m →
        DescribesMemory (M.allows world) m objects held →
        DescribesMemory (M.allows world) (left_scope C.ops left bs m) (died wither bs objects) (outlived wither bs held) }
{}

/// The objects that live on and the held slots are as long as they were.
pub fn deaths_keep_shape<C: Cells>()
    ensures { (left : BaseId → C → C) (m : MapsOf C) (bs : List BaseId) (objects slots : ℕ → Option ℕ) → IsInOrder m →
        HasShape m objects slots → HasShape (left_scope C.ops left bs m) (without_bases bs objects) slots }
{}

/// A slot that is let go isn't held any more, and nothing else becomes different.
pub fn release_describes<C: Cells, M: Concrete<C>>()
    ensures { (world : M.World) (m : MapsOf C) (slot : ℕ) (objects held : ℕ → Option (List M.Bit)) → IsInOrder m →
        DescribesMemory (M.allows world) m objects held →
        DescribesMemory (M.allows world) (without m (Slot slot)) objects (without_slot slot held) }
{}

/// The shape loses the slot alone.
pub fn release_keeps_shape<C: Cells>()
    ensures { (m : MapsOf C) (slot : ℕ) (objects slots : ℕ → Option ℕ) → IsInOrder m → HasShape m objects slots →
        HasShape (without m (Slot slot)) objects (without_slot slot slots) }
{}

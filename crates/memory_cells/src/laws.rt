//! What births and deaths make of memories in each layout: each law is the contract of a function that does nothing.
ghost use Rattle.std.specs.Prelude.{◌≡◌, ℕ, List, Option, map};
ghost use Rattle.c_base.specs.declared.integer.Machine.TheVariants.{Lp64};
ghost use Rattle.c_base.specs.declared.number.BaseId.{BaseId};
ghost use Rattle.c_memory.specs.Layouts.{Layout};
ghost use Rattle.c_memory.specs.Memories.{Memory, born, died, withered};
ghost use Rattle.c_memory.specs.Values.{Cell};
ghost use Rattle.avalue_base.specs.Values.{Cellv};
ghost use Rattle.avalue_base.specs.Ops.{ops, Fine};
ghost use Rattle.avalue_base.specs.Deaths.{forgotten};
ghost use Rattle.avalue_base.specs.Meaning.{Allows};
ghost use Rattle.memory_maps.specs.Memories.{MapsOf, IsMemory, entered};
ghost use Rattle.memory_maps.specs.Meaning.{DescribesMemory};
ghost use Rattle.memory_scopes.specs.Scopes.{IsInOrder, left_scope};

/// When the objects of a scope have died, one after another, what is left describes each described memory in which they died together, and the held
/// slots, in which what was made from their addresses is dead (C11 6.2.4p2).
pub fn deaths_are_those_of_memory()
    ensures { (l : Layout) (bs : List BaseId) (m : MapsOf Cellv) (memory : Memory) (held : ℕ → Option (List Cell)) → IsInOrder m →
        IsMemory (Fine Lp64) m → DescribesMemory (Allows l) m memory held →
        DescribesMemory (Allows l) (left_scope (ops Lp64) (λ b. forgotten b.0) bs m) (died (map (λ (b : BaseId). b.0) bs) memory)
        (λ s. withered (map (λ (b : BaseId). b.0) bs) (held s)) }
{}

/// When the objects of a scope have been born, what is there describes each described memory in which they were born, not written yet (C11 6.2.4p6).
pub fn births_are_those_of_memory()
    ensures { (l : Layout) (size_of : ℕ → ℕ) (bs : List BaseId) (m : MapsOf Cellv) (memory : Memory) (held : ℕ → Option (List Cell)) →
        ((b : ℕ) → size_of b ≡ l.size b) → DescribesMemory (Allows l) m memory held →
        DescribesMemory (Allows l) (entered (ops Lp64) size_of bs m) (born l (map (λ (b : BaseId). b.0) bs) memory) held }
{}

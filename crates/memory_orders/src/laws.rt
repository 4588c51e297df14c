//! What joins and inclusion of memories mean: each law is the contract of a function that does nothing.
ghost use Rattle.std.specs.Prelude.{◌≡◌, ℕ, true, List, Option, Some};
ghost use Rattle.cell_laws.specs.Elements.{Element, width};
ghost use Rattle.cell_laws.specs.Join.{joined, joined_cell};
ghost use Rattle.avalue.specs.declared.row.Target.{Target};
ghost use Rattle.memory_maps.specs.Memories.{MapsOf, IsMemory, map_at};
ghost use Rattle.memory_maps.specs.Meaning.{DescribesMemory};
ghost use Rattle.memory_orders.specs.Merging.{AreMaps, HaveOneShape, merged_memory, included};

use cell_runs::cells::Cells;
use offmap_laws::concrete::Concrete;

/// Each memory includes itself.
pub fn inclusion_is_reflexive<C: Cells>()
    ensures { (a : MapsOf C) → AreMaps a → IsMemory C.fine a → included C.ops a a ≡ true }
{}

/// What a memory that includes another includes, that one includes too.
pub fn inclusion_is_transitive<C: Cells>()
    ensures { (a b c : MapsOf C) → AreMaps a → IsMemory C.fine a → IsMemory C.fine b → IsMemory C.fine c →
        included C.ops a b ≡ true → included C.ops b c ≡ true → included C.ops a c ≡ true }
{}

/// A memory that includes another of its shape describes what that one describes.
pub fn inclusion_is_sound<C: Cells, M: Concrete<C>>()
    ensures { (world : M.World) (a b : MapsOf C) (objects held : ℕ → Option (List M.Bit)) → IsMemory C.fine a → IsMemory C.fine b →
        HaveOneShape a b → included C.ops a b ≡ true → DescribesMemory (M.allows world) a objects held →
        DescribesMemory (M.allows world) b objects held }
{}

/// Where two memories of one shape have maps, their join or widening has that of the two.
pub fn join_is_map_by_map<C: Cells>()
    ensures { (merge : ℕ → C → C → C) (a b : MapsOf C) (t : Target) (x y : List (Element C)) → AreMaps a → AreMaps b → map_at a t ≡ Some x →
        map_at b t ≡ Some y → width x ≡ width y → map_at (merged_memory C.ops merge a b) t ≡ Some (joined C.ops merge x y) }
{}

/// Where the first memory is included in the second, their join has the second's maps.
pub fn join_with_included<C: Cells>()
    ensures { (a b : MapsOf C) (t : Target) → AreMaps a → AreMaps b → HaveOneShape a b → included C.ops a b ≡ true →
        map_at (merged_memory C.ops (joined_cell C.ops) a b) t ≡ map_at b t }
{}

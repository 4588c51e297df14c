//! What loads and weak stores at the numbers of a set mean: each law is the contract of a function that does nothing.
ghost use Rattle.std.specs.Prelude.{◌≡◌, ℕ, ℤ, ◌+◌, ◌<◌, List, ◌++◌, length, take, drop, Some};
ghost use Rattle.cell_laws.specs.Elements.{Element, AllFine, width};
ghost use Rattle.cell_laws.specs.Meaning.{Describes};
ghost use Rattle.cell_laws.specs.Access.{loaded, IsSize};
ghost use Rattle.cell_runs.specs.declared.runs.Run.{Run as PlainRun};
ghost use Rattle.ival_core.specs.declared.value.Shape.{Shape};
ghost use Rattle.ival_core.specs.Sets.{Has, IsValid};
ghost use Rattle.ival_core.specs.Views.{single_of};
ghost use Rattle.offmap.specs.Maps.{AreRanges};
ghost use Rattle.map_accesses.specs.Accesses.{bit_at, AllFit, loaded_at, weakened_at};

use cell_runs::cells::Cells;
use offmap_laws::concrete::Concrete;

/// A load gives the content of each described list of bits at each of the numbers.
pub fn load_gives<C: Cells, M: Concrete<C>>()
    ensures { (world : M.World) (m : List (Element C)) (unit : ℕ) (rs : List (PlainRun C)) (k : ℕ) (s : Shape) (z : ℤ) (ks : List M.Bit) → IsSize k →
        0 < unit → AllFine C.fine m → AreRanges m rs → IsValid s → AllFit unit k (width m) s → length ks ≡ width m → Describes (M.allows world) m ks →
        Has s z → M.gives world k (loaded_at C.ops m unit rs k s) (take k (drop (bit_at unit z) ks)) }
{}

/// At one number alone it is the load there.
pub fn load_at_one<C: Cells>()
    ensures { (m : List (Element C)) (unit : ℕ) (rs : List (PlainRun C)) (k : ℕ) (s : Shape) (z : ℤ) → single_of s ≡ Some z →
        loaded_at C.ops m unit rs k s ≡ loaded C.ops m (bit_at unit z) k }
{}

/// After a weak store the old content is possible.
pub fn weak_store_keeps_old<C: Cells, M: Concrete<C>>()
    ensures { (world : M.World) (m : List (Element C)) (unit k : ℕ) (s : Shape) (c : C) (ks : List M.Bit) → IsSize k → 0 < unit → AllFine C.fine m →
        IsValid s → AllFit unit k (width m) s → length ks ≡ width m → Describes (M.allows world) m ks →
        Describes (M.allows world) (weakened_at C.ops m unit k s c) ks }
{}

/// And the new content at each of the numbers.
pub fn weak_store_has_new<C: Cells, M: Concrete<C>>()
    ensures { (world : M.World) (m : List (Element C)) (unit k : ℕ) (s : Shape) (z : ℤ) (c : C) (ks cs : List M.Bit) → IsSize k → 0 < unit →
        AllFine C.fine m → IsValid s → AllFit unit k (width m) s → length ks ≡ width m → Describes (M.allows world) m ks → M.allows world k c cs →
        Has s z → Describes (M.allows world) (weakened_at C.ops m unit k s c) (take (bit_at unit z) ks ++ (cs ++ drop (bit_at unit z + k) ks)) }
{}

/// The map stays as long, and its cells may stand in their elements.
pub fn weak_store_keeps_map<C: Cells>()
    ensures wide { (m : List (Element C)) (unit k : ℕ) (s : Shape) (c : C) → IsSize k → 0 < unit → AllFine C.fine m → IsValid s →
        AllFit unit k (width m) s → width (weakened_at C.ops m unit k s c) ≡ width m }
    ensures fine { (m : List (Element C)) (unit k : ℕ) (s : Shape) (c : C) → IsSize k → 0 < unit → AllFine C.fine m → IsValid s →
        AllFit unit k (width m) s → AllFine C.fine (weakened_at C.ops m unit k s c) }
{}

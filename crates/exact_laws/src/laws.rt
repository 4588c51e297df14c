//! The laws. A map is sole where each of its cells is; it has one content then.
ghost use Rattle.std.specs.Prelude.{◌≡◌, ℕ, ◌+◌, ◌<◌, ◌≤◌, ◌^◌, Bool, true, List, ◌++◌, length, take, drop, map};
ghost use Rattle.cell_laws.specs.Elements.{Element, AllFine, width};
ghost use Rattle.cell_laws.specs.Laws.{MergeLaws};
ghost use Rattle.cell_laws.specs.Order.{included};
ghost use Rattle.cell_laws.specs.Meaning.{Describes};
ghost use Rattle.cell_laws.specs.Join.{joined, joined_cell};
ghost use Rattle.cell_laws.specs.Access.{copied, pasted, put, repeated, stored, loaded, IsSize};
ghost use Rattle.run_places.specs.Widens.{WidenLaws};
ghost use Rattle.run_merges.specs.Widened.{widened_cell};
ghost use Rattle.run_orders.specs.Singles.{all_single};
ghost use Rattle.run_orders.specs.Deaths.{left_all, LeftLaws};
ghost use Rattle.offmap_laws.specs.Contents.{AllAlike, DeathLaws};
ghost use Rattle.offmap_laws.specs.Parts.{AllTimes};
ghost use Rattle.exact_laws.specs.Cuts.{is_loose_at, is_loose};
ghost use Rattle.exact_laws.specs.Laws.{KeepsSole, SoleDeath};

use crate::sole::Sole;
use cell_runs::cells::Cells;
use offmap_laws::concrete::Concrete;

/// All contents of a sole map are alike.
pub fn sole_maps_have_one_content<C: Cells, M: Concrete<C>, S: Sole<C, M>>()
    ensures { (world : M.World) (m : List (Element C)) (js ks : List M.Bit) → AllFine C.fine m →
        all_single S.sole m ≡ true → Describes (M.allows world) m js → Describes (M.allows world) m ks →
        AllAlike M.alike js ks }
{}

/// A part that cuts no rigid cell is sole, and has the part of the content alone.
pub fn copy_is_sole<C: Cells, M: Concrete<C>, S: Sole<C, M>>()
    ensures sole { (world : M.World) (m : List (Element C)) (at n : ℕ) → AllFine C.fine m → all_single S.sole m ≡ true →
        is_loose_at S.rigid m at ≡ true → is_loose_at S.rigid m (at + n) ≡ true →
        all_single S.sole (copied C.ops m at n) ≡ true }
    ensures content { (world : M.World) (m : List (Element C)) (at n : ℕ) (ks js : List M.Bit) → AllFine C.fine m →
        all_single S.sole m ≡ true → is_loose_at S.rigid m at ≡ true → is_loose_at S.rigid m (at + n) ≡ true →
        Describes (M.allows world) m ks → Describes (M.allows world) (copied C.ops m at n) js →
        AllAlike M.alike js (take n (drop at ks)) }
{}

/// So is a map into which a sole part is pasted.
pub fn paste_is_sole<C: Cells, M: Concrete<C>, S: Sole<C, M>>()
    ensures sole { (world : M.World) (m part : List (Element C)) (at : ℕ) → AllFine C.fine m → all_single S.sole m ≡ true →
        all_single S.sole part ≡ true → is_loose_at S.rigid m at ≡ true →
        is_loose_at S.rigid m (at + width part) ≡ true → all_single S.sole (pasted C.ops m at part) ≡ true }
    ensures content { (world : M.World) (m part : List (Element C)) (at : ℕ) (ks cs js : List M.Bit) → AllFine C.fine m →
        AllFine C.fine part → all_single S.sole m ≡ true → all_single S.sole part ≡ true →
        is_loose_at S.rigid m at ≡ true → is_loose_at S.rigid m (at + width part) ≡ true → at + width part ≤ width m →
        length ks ≡ width m → length cs ≡ width part → Describes (M.allows world) m ks →
        Describes (M.allows world) part cs → Describes (M.allows world) (pasted C.ops m at part) js →
        AllAlike M.alike js (take at ks ++ (cs ++ drop (at + width part) ks)) }
{}

/// A sole cell that may stand in its bits is put there as it is, and a blank one at each bit.
pub fn put_is_sole<C: Cells, M: Concrete<C>, S: Sole<C, M>>()
    ensures whole { (k : ℕ) (c : C) → C.fine k c → S.sole k c ≡ true → all_single S.sole (put C.ops k c) ≡ true }
    ensures blank { (world : M.World) (k : ℕ) (c : C) → IsSize k → C.fine 1 c → C.ops.blank c ≡ true → S.sole 1 c ≡ true →
        all_single S.sole (put C.ops k c) ≡ true }
{}

/// After a store of what is sole the map has the new bits, and the others as they were, alone.
pub fn store_is_sole<C: Cells, M: Concrete<C>, S: Sole<C, M>>()
    ensures sole { (world : M.World) (m : List (Element C)) (at k : ℕ) (c : C) → AllFine C.fine m → all_single S.sole m ≡ true →
        all_single S.sole (put C.ops k c) ≡ true → is_loose_at S.rigid m at ≡ true →
        is_loose_at S.rigid m (at + k) ≡ true → all_single S.sole (stored C.ops m at k c) ≡ true }
    ensures content { (world : M.World) (m : List (Element C)) (at k : ℕ) (c : C) (ks cs js : List M.Bit) → IsSize k →
        AllFine C.fine m → all_single S.sole m ≡ true → all_single S.sole (put C.ops k c) ≡ true →
        is_loose_at S.rigid m at ≡ true → is_loose_at S.rigid m (at + k) ≡ true → at + k ≤ width m →
        length ks ≡ width m → Describes (M.allows world) m ks → M.allows world k c cs →
        Describes (M.allows world) (stored C.ops m at k c) js →
        AllAlike M.alike js (take at ks ++ (cs ++ drop (at + k) ks)) }
{}

/// What is sole may be repeated: then its content is repeated, alone.
pub fn repeated_is_sole<C: Cells, M: Concrete<C>, S: Sole<C, M>>()
    ensures sole { (k n : ℕ) (c : C) → all_single S.sole (put C.ops k c) ≡ true →
        all_single S.sole (repeated C.ops k n c) ≡ true }
    ensures content { (world : M.World) (k n : ℕ) (c : C) (ks js : List M.Bit) → IsSize k →
        all_single S.sole (put C.ops k c) ≡ true → AllTimes (M.allows world k c) k n ks →
        Describes (M.allows world) (repeated C.ops k n c) js → AllAlike M.alike js ks }
{}

/// A load that cuts no rigid cell, and puts none together with others, gives what a load of the content does.
pub fn load_is_exact<C: Cells, M: Concrete<C>, S: Sole<C, M>>()
    ensures { (world : M.World) (m : List (Element C)) (at k : ℕ) (ks ls : List M.Bit) → IsSize k → AllFine C.fine m →
        all_single S.sole m ≡ true → is_loose_at S.rigid m at ≡ true → is_loose_at S.rigid m (at + k) ≡ true →
        is_loose S.rigid (copied C.ops m at k) ≡ true → at + k ≤ width m → length ks ≡ width m →
        Describes (M.allows world) m ks → M.gives world k (loaded C.ops m at k) ls →
        M.reads ls (take k (drop at ks)) }
{}

/// Of two sole maps that have a content in common each includes the other.
pub fn inclusion_of_sole<C: Cells, M: Concrete<C>, S: Sole<C, M>>()
    ensures { (world : M.World) (a b : List (Element C)) (ks : List M.Bit) → AllFine C.fine a → AllFine C.fine b →
        all_single S.sole a ≡ true → all_single S.sole b ≡ true → width a ≡ width b → Describes (M.allows world) a ks →
        Describes (M.allows world) b ks → included C.ops a b ≡ true }
{}

/// The join of two sole maps that have a content in common is the second.
pub fn join_of_sole<C: Cells, M: Concrete<C>, S: Sole<C, M>>()
    ensures { (world : M.World) (a b : List (Element C)) (ks : List M.Bit) → AllFine C.fine a → AllFine C.fine b →
        all_single S.sole a ≡ true → all_single S.sole b ≡ true → width a ≡ width b → Describes (M.allows world) a ks →
        Describes (M.allows world) b ks → joined C.ops (joined_cell C.ops) a b ≡ b }
{}

/// So is a widening by what keeps sole cells.
pub fn widening_of_sole<C: Cells, M: Concrete<C>, S: Sole<C, M>>()
    ensures { (world : M.World) (merge : ℕ → C → C → C) (a b : List (Element C)) (ks : List M.Bit) →
        KeepsSole C.fine (M.allows world) S.sole merge → AllFine C.fine a → AllFine C.fine b →
        all_single S.sole a ≡ true → all_single S.sole b ≡ true → width a ≡ width b → Describes (M.allows world) a ks →
        Describes (M.allows world) b ks → joined C.ops merge a b ≡ b }
{}

/// The widening of cells keeps what maps ask of it, where what it is made of includes both cells.
pub fn widening_merges<C: Cells>()
    ensures { (widened : ℕ → C → C → C) → WidenLaws C.ops C.fine widened → MergeLaws C.ops C.fine (widened_cell C.ops widened) }
{}

/// The widening of cells keeps sole ones, where what it is made of gives each sole cell with itself again.
pub fn widening_keeps_sole<C: Cells, M: Concrete<C>, S: Sole<C, M>>()
    ensures { (world : M.World) (widened : ℕ → C → C → C) →
        ((k : ℕ) (x : C) → C.fine k x → S.sole k x ≡ true → widened k x x ≡ x) →
        KeepsSole C.fine (M.allows world) S.sole (widened_cell C.ops widened) }
{}

/// What is left of a sole map when an object has died is sole, with what has become of each bit alone.
pub fn death_is_sole<C: Cells, M: Concrete<C>, S: Sole<C, M>>()
    ensures sole { (left : C → C) (m : List (Element C)) → SoleDeath C.fine C.ops.blank S.sole left → AllFine C.fine m →
        all_single S.sole m ≡ true → all_single S.sole (left_all C.ops left m) ≡ true }
    ensures content { (world : M.World) (wither : M.Bit → M.Bit) (left : C → C) (m : List (Element C)) (ks js : List M.Bit) →
        LeftLaws C.ops C.fine left → DeathLaws C.fine (M.allows world) wither left →
        SoleDeath C.fine C.ops.blank S.sole left → AllFine C.fine m → all_single S.sole m ≡ true →
        Describes (M.allows world) m ks → Describes (M.allows world) (left_all C.ops left m) js →
        AllAlike M.alike js (map wither ks) }
{}

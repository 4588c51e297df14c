//! The laws. A list of elements is fine where each cell may stand in its element, as in every map.
ghost use Rattle.std.specs.Prelude.{◌≡◌, ℕ, ◌+◌, ◌*◌, ◌<◌, ◌≤◌, Bool, true, false, List, ◌∷◌, ◌++◌, length, take, drop, map};
ghost use Rattle.cell_laws.specs.Elements.{Element, AllFine, width};
ghost use Rattle.cell_laws.specs.Order.{included};
ghost use Rattle.cell_laws.specs.Meaning.{Describes};
ghost use Rattle.cell_laws.specs.Join.{joined, joined_cell};
ghost use Rattle.cell_laws.specs.Access.{take_bits, drop_bits, copied, pasted, put, repeated, stored, loaded, loaded_all, weakened, IsSize, AllWithin};
ghost use Rattle.cell_laws.specs.Laws.{MergeLaws};
ghost use Rattle.run_orders.specs.Singles.{all_single};
ghost use Rattle.run_orders.specs.Deaths.{left_all, LeftLaws};
ghost use Rattle.offmap_laws.specs.Offsets.{IsAmong};
ghost use Rattle.run_slots.specs.Offsets.{Represent};
ghost use Rattle.run_slots.specs.Slots.{slots_weakened};
ghost use Rattle.offmap_laws.specs.Contents.{AllAlike, SingleLaws, DeathLaws};
ghost use Rattle.offmap_laws.specs.Slots.{AllMayBeStored};
ghost use Rattle.offmap_laws.specs.Parts.{ArePasted, AllTimes};

use crate::concrete::Concrete;
use cell_runs::cells::Cells;

/// Each map includes itself.
pub fn inclusion_is_reflexive<C: Cells>()
    ensures { (a : List (Element C)) → AllFine C.fine a → included C.ops a a ≡ true }
{}

/// What a map that includes another includes, that one includes too.
pub fn inclusion_is_transitive<C: Cells>()
    ensures { (a b c : List (Element C)) → AllFine C.fine a → AllFine C.fine b → AllFine C.fine c →
        width a ≡ width b → width b ≡ width c → included C.ops a b ≡ true → included C.ops b c ≡ true →
        included C.ops a c ≡ true }
{}

/// A map that includes another describes what that one describes.
pub fn inclusion_is_sound<C: Cells, M: Concrete<C>>()
    ensures { (world : M.World) (a b : List (Element C)) (ks : List M.Bit) → AllFine C.fine a → AllFine C.fine b → width a ≡ width b →
        included C.ops a b ≡ true → Describes (M.allows world) a ks → Describes (M.allows world) b ks }
{}

/// The join of two maps, or their widening, includes the first, and is as long.
pub fn join_includes_first<C: Cells>()
    ensures { (merge : ℕ → C → C → C) (a b : List (Element C)) → MergeLaws C.ops C.fine merge → AllFine C.fine a → AllFine C.fine b →
        width a ≡ width b → included C.ops a (joined C.ops merge a b) ≡ true }
{}

/// And the second.
pub fn join_includes_second<C: Cells>()
    ensures { (merge : ℕ → C → C → C) (a b : List (Element C)) → MergeLaws C.ops C.fine merge → AllFine C.fine a → AllFine C.fine b →
        width a ≡ width b → included C.ops b (joined C.ops merge a b) ≡ true }
{}

/// Where the first map is included in the second, their join is the second.
pub fn join_with_included<C: Cells>()
    ensures { (a b : List (Element C)) → width a ≡ width b → included C.ops a b ≡ true →
        joined C.ops (joined_cell C.ops) a b ≡ b }
{}

/// The join's cells keep what is asked of the function that makes one of two.
pub fn join_merges<C: Cells>()
    ensures { MergeLaws C.ops C.fine (joined_cell C.ops) }
{}

/// Where a part was pasted, it stands.
pub fn paste_is_copied<C: Cells>()
    ensures { (m part : List (Element C)) (at : ℕ) → AllFine C.fine m → AllFine C.fine part → at ≤ width m →
        copied C.ops (pasted C.ops m at part) at (width part) ≡ part }
{}

/// The bits before it are as they were.
pub fn paste_keeps_front<C: Cells>()
    ensures { (m part : List (Element C)) (at : ℕ) → AllFine C.fine m → at ≤ width m →
        take_bits C.ops (pasted C.ops m at part) at ≡ take_bits C.ops m at }
{}

/// And those behind it.
pub fn paste_keeps_rest<C: Cells>()
    ensures { (m part : List (Element C)) (at : ℕ) → AllFine C.fine m → AllFine C.fine part → at ≤ width m →
        drop_bits C.ops (pasted C.ops m at part) (at + width part) ≡ drop_bits C.ops m (at + width part) }
{}

/// After a paste the bits of the part may be what the part describes, and the others are as they were.
pub fn paste_describes<C: Cells, M: Concrete<C>>()
    ensures { (world : M.World) (m part : List (Element C)) (at : ℕ) (ks cs : List M.Bit) → AllFine C.fine m → at + width part ≤ width m →
        length ks ≡ width m → length cs ≡ width part → Describes (M.allows world) m ks → Describes (M.allows world) part cs →
        Describes (M.allows world) (pasted C.ops m at part) (take at ks ++ (cs ++ drop (at + width part) ks)) }
{}

/// And nothing else: before the part they are what the map describes there, in the part what it describes, and so behind it.
pub fn paste_describes_only<C: Cells, M: Concrete<C>>()
    ensures { (world : M.World) (m part : List (Element C)) (at : ℕ) (js : List M.Bit) → at + width part ≤ width m →
        Describes (M.allows world) (pasted C.ops m at part) js →
        ArePasted (Describes (M.allows world)) (take_bits C.ops m at) part (drop_bits C.ops m (at + width part)) at (width part) js }
{}

/// A copy describes the bits of its place.
pub fn copy_describes<C: Cells, M: Concrete<C>>()
    ensures { (world : M.World) (m : List (Element C)) (at n : ℕ) (ks : List M.Bit) → AllFine C.fine m → Describes (M.allows world) m ks →
        Describes (M.allows world) (copied C.ops m at n) (take n (drop at ks)) }
{}

/// After a store the written bits may be what the cell allows, and the others are as they were.
pub fn store_describes<C: Cells, M: Concrete<C>>()
    ensures { (world : M.World) (m : List (Element C)) (at k : ℕ) (c : C) (ks cs : List M.Bit) → IsSize k → AllFine C.fine m →
        at + k ≤ width m → length ks ≡ width m → Describes (M.allows world) m ks → M.allows world k c cs →
        Describes (M.allows world) (stored C.ops m at k c) (take at ks ++ (cs ++ drop (at + k) ks)) }
{}

/// And nothing else: the written bits are what the cell allows that was put there, and the others what the map describes there.
pub fn store_describes_only<C: Cells, M: Concrete<C>>()
    ensures { (world : M.World) (m : List (Element C)) (at k : ℕ) (c : C) (js : List M.Bit) → at + k ≤ width m →
        Describes (M.allows world) (stored C.ops m at k c) js →
        ArePasted (Describes (M.allows world)) (take_bits C.ops m at) (put C.ops k c) (drop_bits C.ops m (at + k)) at k js }
{}

/// A load of bits that were written finds the cell that was put there, if it has a value.
pub fn store_is_loaded<C: Cells>()
    ensures { (m : List (Element C)) (at k : ℕ) (c : C) → IsSize k → AllFine C.fine m → at + k ≤ width m →
        C.ops.blank (C.ops.fit k c) ≡ false → loaded C.ops (stored C.ops m at k c) at k ≡ C.ops.fit k c }
{}

/// Where a cell is repeated, the bits of each element may be what it allows.
pub fn repetition_describes<C: Cells, M: Concrete<C>>()
    ensures { (world : M.World) (k n : ℕ) (c : C) (ks : List M.Bit) → IsSize k → AllTimes (M.allows world k c) k n ks →
        Describes (M.allows world) (repeated C.ops k n c) ks }
{}

/// And nothing else.
pub fn repetition_describes_only<C: Cells, M: Concrete<C>>()
    ensures { (world : M.World) (k n : ℕ) (c : C) (ks : List M.Bit) → Describes (M.allows world) (repeated C.ops k n c) ks →
        AllTimes (Describes (M.allows world) (put C.ops k c)) k n ks }
{}

/// A load gives the content of each described list of bits at each offset.
pub fn load_gives<C: Cells, M: Concrete<C>>()
    ensures { (world : M.World) (m : List (Element C)) (ats : List ℕ) (at k : ℕ) (ks : List M.Bit) → IsSize k → AllFine C.fine m →
        AllWithin k (width m) ats → length ks ≡ width m → Describes (M.allows world) m ks → IsAmong ats at →
        M.gives world k (loaded_all C.ops m ats k) (take k (drop at ks)) }
{}

/// After a weak store the old content is possible.
pub fn weak_store_keeps_old<C: Cells, M: Concrete<C>>()
    ensures { (world : M.World) (m : List (Element C)) (ats : List ℕ) (k : ℕ) (c : C) (ks : List M.Bit) → IsSize k → AllFine C.fine m →
        AllWithin k (width m) ats → Describes (M.allows world) m ks → Describes (M.allows world) (weakened C.ops m ats k c) ks }
{}

/// And the new content at each of the offsets.
pub fn weak_store_has_new<C: Cells, M: Concrete<C>>()
    ensures { (world : M.World) (m : List (Element C)) (ats : List ℕ) (k : ℕ) (c : C) (ks cs : List M.Bit) (at : ℕ) → IsSize k →
        AllFine C.fine m → AllWithin k (width m) ats → length ks ≡ width m → Describes (M.allows world) m ks → M.allows world k c cs →
        IsAmong ats at → Describes (M.allows world) (weakened C.ops m ats k c) (take at ks ++ (cs ++ drop (at + k) ks)) }
{}

/// Where both maps have one element at the same bits, so has their join or widening: with the cell that is made of the two.
pub fn join_of_elements<C: Cells>()
    ensures { (merge : ℕ → C → C → C) (xs ys vs ws : List (Element C)) (k : ℕ) (x y : C) → AllFine C.fine xs → AllFine C.fine ys →
        width xs ≡ width ys → 0 < k →
        joined C.ops merge (xs ++ record { bits = k; cell = x } ∷ vs) (ys ++ record { bits = k; cell = y } ∷ ws)
        ≡ joined C.ops merge xs ys ++ record { bits = k; cell = merge k x y } ∷ joined C.ops merge vs ws }
{}

/// In a join that cell allows nothing but what the join of the two cells does.
pub fn join_of_cells<C: Cells>()
    ensures { (k : ℕ) (x y : C) → C.fine k x → C.fine k y → C.ops.leq (joined_cell C.ops k x y) (C.ops.join x y) ≡ true }
{}

/// So the joined map describes there only what the join of the two cells allows.
pub fn join_describes_only<C: Cells, M: Concrete<C>>()
    ensures { (world : M.World) (xs ys vs ws : List (Element C)) (k : ℕ) (x y : C) (ks : List M.Bit) → AllFine C.fine xs → AllFine C.fine ys →
        width xs ≡ width ys → C.fine k x → C.fine k y →
        Describes (M.allows world) (joined C.ops (joined_cell C.ops) (xs ++ record { bits = k; cell = x } ∷ vs) (ys ++ record { bits = k; cell = y } ∷ ws)) ks →
        M.allows world k (C.ops.join x y) (take k (drop (width xs) ks)) }
{}

/// All contents of a map whose elements are each single are alike.
pub fn single_maps_have_one_content<C: Cells, M: Concrete<C>>()
    ensures { (world : M.World) (single : ℕ → C → Bool) (m : List (Element C)) (js ks : List M.Bit) →
        SingleLaws C.fine (M.allows world) M.alike single → AllFine C.fine m → all_single single m ≡ true →
        Describes (M.allows world) m js → Describes (M.allows world) m ks → AllAlike M.alike js ks }
{}

/// And a map whose contents are all alike is one of these.
pub fn one_content_is_single<C: Cells, M: Concrete<C>>()
    ensures { (world : M.World) (single : ℕ → C → Bool) (m : List (Element C)) → SingleLaws C.fine (M.allows world) M.alike single →
        AllFine C.fine m → ((js ks : List M.Bit) → Describes (M.allows world) m js → Describes (M.allows world) m ks → AllAlike M.alike js ks) →
        all_single single m ≡ true }
{}

/// When an object has died, a map describes what has become of each bit.
pub fn death_describes<C: Cells, M: Concrete<C>>()
    ensures { (world : M.World) (wither : M.Bit → M.Bit) (left : C → C) (m : List (Element C)) (ks : List M.Bit) → LeftLaws C.ops C.fine left →
        DeathLaws C.fine (M.allows world) wither left → AllFine C.fine m → Describes (M.allows world) m ks →
        Describes (M.allows world) (left_all C.ops left m) (map wither ks) }
{}

/// After a weak store to slots each of them may be as it was or as the cell allows, and the other bits are as they were.
pub fn slots_describe<C: Cells, M: Concrete<C>>()
    ensures { (world : M.World) (m : List (Element C)) (at k gap n : ℕ) (c : C) (ks js : List M.Bit) → IsSize k → AllFine C.fine m →
        Describes (M.allows world) m ks → length ks ≡ width m → length js ≡ width m → at + n * (k + gap) + k ≤ width m →
        take at js ≡ take at ks → AllMayBeStored (M.allows world) k gap c ks js n at →
        Describes (M.allows world) (slots_weakened C.ops m at k gap n (put C.ops k c)) js }
{}

/// A cell of offsets at which all parts are found gives the content at each of the steps.
pub fn steps_give<C: Cells, M: Concrete<C>>()
    ensures { (world : M.World) (m : List (Element C)) (k at step count i : ℕ) (offsets : List ℕ) (ks : List M.Bit) → IsSize k → AllFine C.fine m →
        at + i * step + k ≤ width m → length ks ≡ width m → Describes (M.allows world) m ks →
        Represent C.ops m k at step count offsets → i < count →
        M.gives world k (loaded_all C.ops m offsets k) (take k (drop (at + i * step) ks)) }
{}

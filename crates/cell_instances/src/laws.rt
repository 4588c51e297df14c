//! Laws of cells of values, each the contract of a function that does nothing. Those of maps follow from them by `offmap_laws` and `exact_laws`.
ghost use Rattle.std.specs.Prelude.{◌≡◌, ℕ, ℤ, true, List, [], ◌∷◌};
ghost use Rattle.c_base.specs.declared.integer.Machine.TheVariants.{Lp64};
ghost use Rattle.c_memory.specs.Layouts.{Layout};
ghost use Rattle.c_memory.specs.Values.{wither};
ghost use Rattle.avalue_base.specs.Values.{Cellv};
ghost use Rattle.avalue_base.specs.Ops.{ops, Fine};
ghost use Rattle.avalue_base.specs.Pieces.{unwritten};
ghost use Rattle.avalue_base.specs.Hues.{blank};
ghost use Rattle.avalue_base.specs.Meaning.{Allows};
ghost use Rattle.avalue_base.specs.Deaths.{forgotten};
ghost use Rattle.avalue_base.specs.Singles.{SameCell};
ghost use Rattle.offmap_laws.specs.Contents.{SingleLaws, DeathLaws};
ghost use Rattle.exact_laws.specs.Laws.{KeepsSole, SoleDeath};
ghost use Rattle.cell_contents.specs.Contents.{is_single};
ghost use Rattle.cell_contents.specs.Soles.{IsNear, is_sole};
ghost use Rattle.std.specs.List.{AllByRecursion};
ghost use Rattle.cell_laws.specs.Elements.{Element, AllFine};
ghost use Rattle.run_orders.specs.Singles.{all_single};
ghost use Rattle.run_merges.specs.Widened.{widened_cell};
ghost use Rattle.cell_instances.specs.Growing.{grown};

/// The test for single cells is true of those alone that have one content, in each layout.
pub fn single_cells_have_one_content()
    ensures { (l : Layout) → SingleLaws (Fine Lp64) (Allows l) SameCell is_single }
{}

/// When a base has died, what is left of a cell allows what has become of its bits.
pub fn death_describes()
    ensures { (l : Layout) (base : ℕ) → DeathLaws (Fine Lp64) (Allows l) (wither (base ∷ [])) (forgotten base) }
{}

/// Cells that show their one content are single.
pub fn sole_cells_are_single()
    ensures { (k : ℕ) (c : Cellv) → Fine Lp64 k c → is_sole k c ≡ true → is_single k c ≡ true }
{}

/// Conversely single cells show their content, where offsets lie from -2^62 to 2^62: farther ones give the addresses of others.
pub fn single_cells_are_sole()
    ensures { (k : ℕ) (c : Cellv) → Fine Lp64 k c → IsNear c → is_single k c ≡ true → is_sole k c ≡ true }
{}

/// So a map of single cells is one that the laws of `exact_laws` speak of.
pub fn single_maps_are_sole()
    ensures { (m : List (Element Cellv)) → AllFine (Fine Lp64) m → AllByRecursion (λ e. IsNear e.cell) m →
        all_single is_single m ≡ true → all_single is_sole m ≡ true }
{}

/// A bit that isn't written shows its content.
pub fn unwritten_bits_are_sole()
    ensures { is_sole 1 unwritten ≡ true }
{}

/// What is left of a cell that shows its content when a base has died does so too.
pub fn death_leaves_sole_cells()
    ensures { (base : ℕ) → SoleDeath (Fine Lp64) blank is_sole (forgotten base) }
{}

/// A widening by marks keeps such cells: in a map, cells of one content become the second.
pub fn widening_keeps_sole_cells()
    ensures { (l : Layout) (size_of : ℕ → ℕ) (marks : List ℤ) →
        KeepsSole (Fine Lp64) (Allows l) is_sole (widened_cell (ops Lp64) (grown size_of marks)) }
{}

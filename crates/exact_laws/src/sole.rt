//! Cells that allow one content alone.
ghost use Rattle.std.specs.Prelude.{ℕ, Bool};
ghost use Rattle.exact_laws.specs.Laws.{SoleLaws, ReadLaws};

use cell_runs::cells::Cells;
use offmap_laws::concrete::Concrete;

/// Which cells allow one content alone, and show it.
pub trait Sole<C: Cells, M: Concrete<C>> {
    /// In an element of so many bits the cell allows one content.
    ghost sole: { ℕ → C → Bool };

    /// It tells no content of its parts.
    ghost rigid: { C → Bool };

    /// It has one number of so many bits alone, or no value.
    ghost settled: { ℕ → C → Bool };

    ghost sole_laws: { (world : M.World) → SoleLaws C.ops C.fine M.bare M.sure M.alike (M.allows world) M.bound sole rigid };

    ghost read_laws: { (world : M.World) → ReadLaws C.ops C.fine (M.allows world) (M.gives world) M.reads sole rigid settled };
}

//! What cells mean.
ghost use Rattle.std.specs.Prelude.{ℕ, Bool, List};
ghost use Rattle.cell_laws.specs.Laws.{MeaningLaws, AccessLaws};

use cell_runs::cells::Cells;

/// The concrete bits that cells describe.
pub trait Concrete<C: Cells> {
    /// What the meaning of cells depends on, such as where objects stand.
    ghost World: { Type 0 };

    /// A bit of memory as it is in a run.
    ghost Bit: { Type 0 };

    /// It is made from no base but those of the hue, or is not written or dead as that allows.
    ghost tint: { C.Hue → Bit → Type 0 };

    /// It is not written or dead.
    ghost bare: { Bit → Type 0 };

    /// It is this bit, made from no address.
    ghost sure: { Bool → Bit → Type 0 };

    /// It was made from an address.
    ghost bound: { Bit → Type 0 };

    /// A load of the first bits gives what a load of the second does.
    ghost reads: { List Bit → List Bit → Type 0 };

    /// They are the same, but for what no step looks at.
    ghost alike: { Bit → Bit → Type 0 };

    /// In an element of so many bits the cell allows these.
    ghost allows: { World → ℕ → C → List Bit → Type 0 };

    /// A load of these gives what the cell holds, or finds a flag that it has.
    ghost gives: { World → ℕ → C → List Bit → Type 0 };

    ghost meaning_laws: { (w : World) → MeaningLaws C.ops C.fine tint bare sure (allows w) };

    ghost access_laws: { (w : World) → AccessLaws C.ops C.fine (allows w) (gives w) };
}

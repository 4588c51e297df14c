//! What runs ask of the cells that stand in them.
ghost use Rattle.std.specs.Prelude.{◌≡◌, ◌≢◌, ℕ, ◌+◌, ◌<◌, ◌≤◌, IfOk, IsTrue, IsFalse, length};
ghost use Rattle.cell_laws.specs.Cells.{Ops};
ghost use Rattle.cell_laws.specs.Laws.{FineLaws, OrderLaws, JoinLaws, PartLaws};

use crate::Mem;
use std::alloc::Global;

/// A cell: what an element of some bits may hold. Each method is the function of its name among `ops`.
pub trait Cells: Sized + Drop {
    /// What one bit of a cell tells without its numbers. Only contracts speak of it.
    type Hue;

    ghost ops: { Ops Self Self.Hue };

    /// The cell may stand in an element of so many bits.
    ghost fine: { ℕ → Self → Type 0 };

    /// The same cell.
    fn copy(&self, alloc: Global) -> Mem<Self>
        ensures { IfOk result (λ c. c ≡ self.now) };

    fn is_same(&self, other: &Self) -> bool
        ensures same { IsTrue result → self.now ≡ other.now }
        ensures other { IsFalse result → self.now ≢ other.now };

    /// The cell of a bit that isn't written.
    fn uninit(alloc: Global) -> Mem<Self>
        ensures { IfOk result (λ c. c ≡ ops.uninit) };

    /// The cell that allows nothing.
    fn void(alloc: Global) -> Mem<Self>
        ensures { IfOk result (λ c. c ≡ ops.void) };

    /// All that this cell allows is allowed by the other.
    fn is_included(&self, other: &Self) -> bool
        ensures { result ≡ ops.leq self.now other.now };

    /// It has no value.
    fn is_blank(&self) -> bool
        ensures { result ≡ ops.blank self.now };

    /// Its bases and flags are among the other's.
    fn is_within(&self, other: &Self) -> bool
        ensures { result ≡ ops.within (ops.hue self.now) (ops.hue other.now) };

    /// In an element of so many bits it allows any bits of the other's bases and flags.
    fn admits(&self, bits: u64, other: &Self) -> bool
        ensures { result ≡ ops.admits bits self.now (ops.hue other.now) };

    /// The bit at an index of an element of so many bits, where it is one.
    fn known_bit(&self, bits: u64, index: u64) -> Option<bool>
        requires fine { fine bits self.now }
        requires inside { index < bits }
        ensures { result ≡ ops.bit bits index self.now };

    /// It allows the number of these bits.
    fn has(&self, bits: &[bool]) -> bool
        requires fine { fine (length bits.now) self.now }
        ensures { result ≡ ops.has (length bits.now) self.now bits.now };

    fn join(&self, alloc: Global, other: &Self) -> Mem<Self>
        ensures { IfOk result (λ c. c ≡ ops.join self.now other.now) };

    /// With the other's flags.
    fn shade(&self, alloc: Global, other: &Self) -> Mem<Self>
        ensures { IfOk result (λ c. c ≡ ops.shade self.now (ops.hue other.now)) };

    /// With the number of these bits.
    fn with_bits(&self, alloc: Global, bits: &[bool]) -> Mem<Self>
        requires fine { fine (length bits.now) self.now }
        ensures { IfOk result (λ c. c ≡ ops.with_bits (length bits.now) self.now bits.now) };

    /// One bit that may be anything of the two cells' bases and flags.
    fn any_of(&self, alloc: Global, other: &Self) -> Mem<Self>
        ensures { IfOk result (λ c. c ≡ ops.any (ops.unite (ops.hue self.now) (ops.hue other.now))) };

    /// What stands in so many bits where it is stored.
    fn fit(&self, alloc: Global, bits: u64) -> Mem<Self>
        requires { bits ≤ 64 }
        ensures { IfOk result (λ c. c ≡ ops.fit bits self.now) };

    /// `count` of its bits, from the bit `low` on.
    fn piece(&self, alloc: Global, bits: u64, low: u64, count: u64) -> Mem<Self>
        requires fine { fine bits self.now }
        requires inside { low + count ≤ bits }
        ensures { IfOk result (λ c. c ≡ ops.piece bits self.now low count) };

    /// Its bits, and behind them those of the other.
    fn glue(&self, alloc: Global, bits: u64, other: &Self, other_bits: u64) -> Mem<Self>
        requires { bits + other_bits ≤ 64 }
        ensures { IfOk result (λ c. c ≡ ops.glue bits self.now other_bits other.now) };

    ghost fine_laws: { FineLaws ops fine };

    ghost order_laws: { OrderLaws ops fine };

    ghost join_laws: { JoinLaws ops fine };

    ghost part_laws: { PartLaws ops fine };
}

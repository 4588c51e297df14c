//! The map, and its parts.
ghost use Rattle.std.specs.Prelude.{◌≡◌, ℕ, suc, ◌+◌, ◌*◌, ◌<◌, ◌≤◌, ◌^◌, IfOk, List, replicate, [], ◌∷◌};
ghost use Rattle.cell_laws.specs.Elements.{width, AllFine};
ghost use Rattle.cell_laws.specs.Order.{included};
ghost use Rattle.cell_laws.specs.Join.{joined, joined_cell};
ghost use Rattle.cell_laws.specs.Access.{copied, pasted, repeated, put, stored, loaded, loaded_all, weakened, IsSize, AllWithin};
ghost use Rattle.cell_runs.specs.declared.runs.Run.{Run as PlainRun};
ghost use Rattle.cell_runs.specs.Runs.{elements, AllSome, AreApart};
ghost use Rattle.run_merges.specs.Widened.{widened_cell};
ghost use Rattle.run_orders.specs.Singles.{all_single};
ghost use Rattle.run_orders.specs.Deaths.{left_all};
ghost use Rattle.run_slots.specs.Slots.{slots_weakened};
ghost use Rattle.run_slots.specs.Repeats.{told_once};
ghost use Rattle.offmap.specs.Maps.{AreRanges, LoadsSteps};

use crate::access::{glue_runs, push_filled};
use cell_runs::Mem;
use cell_runs::cells::Cells;
use cell_runs::parts::{copy_part, copy_rest, copy_runs, take_runs};
use cell_runs::runs::Run;
use run_joins::join::join;
use run_merges::join::Join;
use run_merges::widen::{Widening, Widens};
use run_orders::deaths::{Death, leave_all};
use run_orders::inclusion;
use run_orders::singles::{Singles, are_single};
use run_places::merge::Merge;
use run_slots::offsets::{Steps, distinct_offsets};
use run_slots::slots::{Slots, weaken};
use std::alloc::Global;
use std::marker::Model;

/// The bits of an object, in elements that each have a cell. Contracts see the list of the elements. Neighbours with equal cells and
/// sizes are one run.
#[derive(Drop)]
pub struct OffMap<C: Cells> {
    bits: u64,
    runs: Vec<Run<C>>,
}

impl<C: Cells> Model for OffMap<C> {
    ghost use Rattle.std.specs.Prelude.{List};
    ghost use Rattle.cell_laws.specs.Elements.{Element};
    ghost use Rattle.cell_runs.specs.Runs.{elements};
    ghost use Rattle.offmap.specs.Maps.{IsMap};

    ghost Value = { List (Element C) };

    ghost view = { λ m. elements m.runs.items };

    ghost invariant = { λ m. IsMap C.fine m.bits m.runs.items };
}

impl<C: Cells> OffMap<C> {
    /// How many bits it has.
    pub fn bits(&self) -> u64
        ensures { result ≡ width self.now }
    {
        self.bits
    }

    /// What is true of every map: its cells may stand in their elements, and its length is below 2^64.
    pub fn facts(&self)
        ensures fine { AllFine C.fine self.now }
        ensures small { width self.now < 2 ^ 64 }
    {
        let _bits = self.bits;
    }

    /// The part of `bits` bits from the bit `at` on.
    pub fn copy(&self, alloc: Global, at: u64, bits: u64) -> Mem<OffMap<C>>
        requires { at + bits ≤ width self.now }
        ensures { IfOk result (λ m. m ≡ copied C.ops self.now at bits) }
    {
        let mut runs = Vec::new(alloc);
        copy_part(alloc, &self.runs, at, bits, &mut runs)?;
        Ok(OffMap { bits, runs })
    }

    /// The map with the bits of the part from the bit `at` on.
    pub fn paste(&self, alloc: Global, at: u64, part: &OffMap<C>) -> Mem<OffMap<C>>
        requires { at + width part.now ≤ width self.now }
        ensures { IfOk result (λ m. m ≡ pasted C.ops self.now at part.now) }
    {
        let mut runs = Vec::new(alloc);
        take_runs(alloc, &self.runs, at, &mut runs)?;
        copy_runs(alloc, &part.runs, &mut runs)?;
        copy_rest(alloc, &self.runs, at + part.bits, &mut runs)?;
        Ok(OffMap {
            bits: self.bits,
            runs,
        })
    }

    /// `count` elements of `size` bits that each hold the cell.
    pub fn repeated(alloc: Global, size: u64, count: u64, cell: &C) -> Mem<OffMap<C>>
        requires size { IsSize size }
        requires some { 0 < count }
        requires small { size * count < 2 ^ 64 }
        ensures { IfOk result (λ m. m ≡ repeated C.ops size count cell.now) }
    {
        let mut runs = Vec::new(alloc);
        push_filled(alloc, size, count, cell, &mut runs)?;
        Ok(OffMap {
            bits: size * count,
            runs,
        })
    }

    /// The map whose bits the cell has from the bit `at` on.
    pub fn store(&self, alloc: Global, at: u64, bits: u64, cell: &C) -> Mem<OffMap<C>>
        requires size { IsSize bits }
        requires inside { at + bits ≤ width self.now }
        ensures { IfOk result (λ m. m ≡ stored C.ops self.now at bits cell.now) }
    {
        let mut runs = Vec::new(alloc);
        take_runs(alloc, &self.runs, at, &mut runs)?;
        push_filled(alloc, bits, 1, cell, &mut runs)?;
        copy_rest(alloc, &self.runs, at + bits, &mut runs)?;
        Ok(OffMap {
            bits: self.bits,
            runs,
        })
    }

    /// The cell of `bits` bits from the bit `at` on.
    pub fn load(&self, alloc: Global, at: u64, bits: u64) -> Mem<C>
        requires size { IsSize bits }
        requires inside { at + bits ≤ width self.now }
        ensures { IfOk result (λ c. c ≡ loaded C.ops self.now at bits) }
    {
        let mut part = Vec::new(alloc);
        copy_part(alloc, &self.runs, at, bits, &mut part)?;
        glue_runs(alloc, &part)
    }

    /// The join of the cells at all of the offsets; the cell that allows nothing where there are none.
    pub fn load_all(&self, alloc: Global, offsets: &[u64], bits: u64) -> Mem<C>
        requires size { IsSize bits }
        requires inside { AllWithin bits (width self.now) offsets.now }
        ensures { IfOk result (λ c. c ≡ loaded_all C.ops self.now offsets.now bits) }
    {
        let mut cell = C::void(alloc)?;
        let mut i = offsets.len();
        while i > 0 {
            i -= 1;
            let here = self.load(alloc, offsets[i], bits)?;
            cell = here.join(alloc, &cell)?;
        }
        Ok(cell)
    }

    /// The join or the widening of two maps that are as long, as `merge` says.
    pub fn merge<M: Merge<C>>(
        alloc: Global,
        merge: &M,
        first: &OffMap<C>,
        second: &OffMap<C>,
    ) -> Mem<OffMap<C>>
        requires { width first.now ≡ width second.now }
        ensures { IfOk result (λ m. m ≡ joined C.ops (M.merged merge.now) first.now second.now) }
    {
        let mut runs = Vec::new(alloc);
        join(alloc, merge, &first.runs, &second.runs, &mut runs)?;
        Ok(OffMap {
            bits: second.bits,
            runs,
        })
    }

    /// The map that allows what either of two that are as long does.
    pub fn join(alloc: Global, first: &OffMap<C>, second: &OffMap<C>) -> Mem<OffMap<C>>
        requires { width first.now ≡ width second.now }
        ensures { IfOk result (λ m. m ≡ joined C.ops (joined_cell C.ops) first.now second.now) }
    {
        OffMap::merge(alloc, &Join, first, second)
    }

    /// The widening of two maps that are as long.
    pub fn widen<W: Widens<C>>(
        alloc: Global,
        by: &W,
        first: &OffMap<C>,
        second: &OffMap<C>,
    ) -> Mem<OffMap<C>>
        requires { width first.now ≡ width second.now }
        ensures { IfOk result (λ m. m ≡ joined C.ops (widened_cell C.ops (W.widened by.now)) first.now second.now) }
    {
        OffMap::merge(alloc, &Widening { by }, first, second)
    }

    /// Whether the other map, which is as long, includes this one.
    pub fn included(&self, other: &OffMap<C>) -> bool
        requires { width self.now ≡ width other.now }
        ensures { result ≡ included C.ops self.now other.now }
    {
        inclusion::included(&self.runs, &other.runs)
    }

    /// Its ranges of equal elements, the least number of them.
    pub fn ranges(&self) -> &[Run<C>]
        ensures { AreRanges self.now result.now }
    {
        &self.runs
    }

    /// Whether each of its elements allows one content alone.
    pub fn is_single<S: Singles<C>>(&self, by: &S) -> bool
        ensures { result ≡ all_single (S.single by.now) self.now }
    {
        are_single(by, &self.runs)
    }

    /// What is left of it when an object has died.
    pub fn forget_base<D: Death<C>>(&self, alloc: Global, death: &D) -> Mem<OffMap<C>>
        ensures { IfOk result (λ m. m ≡ left_all C.ops (D.left death.now) self.now) }
    {
        let mut runs = Vec::new(alloc);
        leave_all(alloc, death, &self.runs, &mut runs)?;
        Ok(OffMap {
            bits: self.bits,
            runs,
        })
    }

    /// The join of the cells at those of the steps at which no part comes again. The work is that of the ranges, not that of the steps, where these find the same in a range.
    pub fn load_steps(&self, alloc: Global, steps: Steps, bits: u64) -> Mem<C>
        requires size { IsSize bits }
        requires step { 0 < steps.step }
        requires inside { steps.first + steps.more * steps.step + bits ≤ width self.now }
        ensures value { IfOk result (λ c. (rs : List (PlainRun C)) → AreRanges self.now rs →
            c ≡ loaded_all C.ops self.now (told_once rs bits steps.first steps.step (suc steps.more)) bits) }
        ensures all { IfOk result (λ c. LoadsSteps C.ops self.now bits steps.first steps.step (suc steps.more) c) }
    {
        let offsets = distinct_offsets(alloc, &self.runs, steps, bits)?;
        self.load_all(alloc, &offsets, bits)
    }

    /// The map in which slots may each have the cell or what they had: the first slot stands at the bit `at`, and `more` slots follow, each behind
    /// the gap. The work is that of the ranges, not that of the slots, where the slots in a range become the same.
    pub fn store_slots(
        &self,
        alloc: Global,
        at: u64,
        slots: Slots,
        more: u64,
        cell: &C,
    ) -> Mem<OffMap<C>>
        requires size { IsSize slots.bits }
        requires apart { slots.bits + slots.gap < 2 ^ 64 }
        requires inside { at + more * (slots.bits + slots.gap) + slots.bits ≤ width self.now }
        ensures { IfOk result (λ m. m
            ≡ slots_weakened C.ops self.now at slots.bits slots.gap more (put C.ops slots.bits cell.now)) }
    {
        let mut put = Vec::new(alloc);
        push_filled(alloc, slots.bits, 1, cell, &mut put)?;
        let mut runs = Vec::new(alloc);
        weaken(alloc, &self.runs, at, slots, more, &put, &mut runs)?;
        Ok(OffMap {
            bits: self.bits,
            runs,
        })
    }

    /// Bits that aren't written.
    pub fn uninit(alloc: Global, bits: u64) -> Mem<OffMap<C>>
        ensures { IfOk result (λ m. m ≡ repeated C.ops 1 bits C.ops.uninit) }
    {
        if bits == 0 {
            return Ok(OffMap {
                bits,
                runs: Vec::new(alloc),
            });
        }
        let cell = C::uninit(alloc)?;
        OffMap::repeated(alloc, 1, bits, &cell)
    }

    /// The map in which the old and the new content are possible at each of the offsets.
    pub fn store_weak(&self, alloc: Global, offsets: &[u64], bits: u64, cell: &C) -> Mem<OffMap<C>>
        requires size { IsSize bits }
        requires inside { AllWithin bits (width self.now) offsets.now }
        ensures { IfOk result (λ m. m ≡ weakened C.ops self.now offsets.now bits cell.now) }
    {
        let mut map = self.copy(alloc, 0, self.bits)?;
        let mut i = 0;
        while i < offsets.len() {
            map.facts();
            let stored = map.store(alloc, offsets[i], bits, cell)?;
            map = OffMap::merge(alloc, &Join, &map, &stored)?;
            i += 1;
        }
        Ok(map)
    }
}

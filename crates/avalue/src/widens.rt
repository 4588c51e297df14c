//! The widening of cells, so that their growth ends.
ghost use Rattle.std.specs.Prelude.{◌≡◌, ◌<◌, ◌≤◌, true, IfOk, []};
ghost use Rattle.ival_core.specs.Widenings.{AreMarks};
ghost use Rattle.avalue_base.specs.Order.{leq};
ghost use Rattle.avalue_parts.specs.Widened.{bit_marks};
ghost use Rattle.avalue.specs.Widenings.{widened_cell};

use crate::cell::{Cellv, held, nothing};
use avalue_parts::Sizes;
use avalue_values::Mem;
use c_base::format::power;
use std::alloc::Global;

impl Cellv {
    /// What either allows, where bounds that `o` moves go on to marks, as in the widening of values.
    pub fn widen<S: Sizes>(&self, alloc: Global, o: &Cellv, sizes: &S, marks: &[i128]) -> Mem<Cellv>
        requires { AreMarks marks.now }
        ensures value { IfOk result (λ c. c ≡ widened_cell (S.size_of sizes.now) marks.now [] self.now o.now) }
        ensures first { IfOk result (λ c. leq self.now c ≡ true) }
        ensures second { IfOk result (λ c. leq o.now c ≡ true) }
    {
        self.widen_by(alloc, o, sizes, marks, &[])
    }

    /// The same in an element of so many bits, whose marks are besides 0 and the ends of the numbers that these bits hold, with a sign and without.
    pub fn widen_in<S: Sizes>(
        &self,
        alloc: Global,
        bits: u32,
        o: &Cellv,
        sizes: &S,
        marks: &[i128],
    ) -> Mem<Cellv>
        requires marks { AreMarks marks.now }
        requires some { 0 < bits }
        requires few { bits ≤ 64 }
        ensures value { IfOk result (λ c. c ≡ widened_cell (S.size_of sizes.now) marks.now (bit_marks bits) self.now o.now) }
        ensures first { IfOk result (λ c. leq self.now c ≡ true) }
        ensures second { IfOk result (λ c. leq o.now c ≡ true) }
    {
        if bits == 1 {
            return self.widen_by(alloc, o, sizes, marks, &[-1, 0, 1]);
        }
        let half = power(bits - 1) as i128;
        self.widen_by(alloc, o, sizes, marks, &[-half, 0, half - 1, 2 * half - 1])
    }

    fn widen_by<S: Sizes>(
        &self,
        alloc: Global,
        o: &Cellv,
        sizes: &S,
        marks: &[i128],
        own: &[i128],
    ) -> Mem<Cellv>
        requires marks { AreMarks marks.now }
        requires own { AreMarks own.now }
        ensures value { IfOk result (λ c. c ≡ widened_cell (S.size_of sizes.now) marks.now own.now self.now o.now) }
        ensures first { IfOk result (λ c. leq self.now c ≡ true) }
        ensures second { IfOk result (λ c. leq o.now c ≡ true) }
    {
        self.widen_parts(alloc, o, sizes, marks, own)
    }

    fn widen_parts<S: Sizes>(
        &self,
        alloc: Global,
        o: &Cellv,
        sizes: &S,
        marks: &[i128],
        own: &[i128],
    ) -> Mem<Cellv>
        requires marks { AreMarks marks.now }
        requires own { AreMarks own.now }
        ensures { IfOk result (λ c. c ≡ widened_cell (S.size_of sizes.now) marks.now own.now self.now o.now) }
    {
        let none = nothing();
        let value = held(&self.value, &none).widen_by(
            alloc,
            held(&o.value, &none),
            sizes,
            marks,
            own,
        )?;
        Ok(Cellv {
            value: Some(value),
            uninit: self.uninit || o.uninit,
            dead: self.dead || o.dead,
        })
    }
}

//! The widening of values, so that their growth ends.
ghost use Rattle.std.specs.Prelude.{◌≡◌, true, IfOk, []};
ghost use Rattle.ival_core.specs.Widenings.{AreMarks};
ghost use Rattle.avalue_base.specs.Order.{value_in};
ghost use Rattle.avalue_values.specs.Widenings.{widened_values};

use crate::Mem;
use crate::value::AVal;
use avalue_parts::{Sizes, Widening, widened};
use sorted_lists::union;
use std::alloc::Global;

impl AVal {
    /// The values of both, where a bound of numbers that `o` moves goes on to the next mark, and one of offsets to the next mark, to the end of the
    /// base or to that of the offsets that are kept.
    pub fn widen<S: Sizes>(&self, alloc: Global, o: &AVal, sizes: &S, marks: &[i128]) -> Mem<AVal>
        requires { AreMarks marks.now }
        ensures value { IfOk result (λ v. v ≡ widened_values (S.size_of sizes.now) marks.now [] self.now o.now) }
        ensures first { IfOk result (λ v. value_in self.now v ≡ true) }
        ensures second { IfOk result (λ v. value_in o.now v ≡ true) }
    {
        self.widen_by(alloc, o, sizes, marks, &[])
    }

    /// The same, where numbers have marks of their own besides.
    pub fn widen_by<S: Sizes>(
        &self,
        alloc: Global,
        o: &AVal,
        sizes: &S,
        marks: &[i128],
        own: &[i128],
    ) -> Mem<AVal>
        requires marks { AreMarks marks.now }
        requires own { AreMarks own.now }
        ensures value { IfOk result (λ v. v ≡ widened_values (S.size_of sizes.now) marks.now own.now self.now o.now) }
        ensures first { IfOk result (λ v. value_in self.now v ≡ true) }
        ensures second { IfOk result (λ v. value_in o.now v ≡ true) }
    {
        self.widen_parts(alloc, o, sizes, marks, own)
    }

    fn widen_parts<S: Sizes>(
        &self,
        alloc: Global,
        o: &AVal,
        sizes: &S,
        marks: &[i128],
        own: &[i128],
    ) -> Mem<AVal>
        requires marks { AreMarks marks.now }
        requires own { AreMarks own.now }
        ensures { IfOk result (λ v. v ≡ widened_values (S.size_of sizes.now) marks.now own.now self.now o.now) }
    {
        match self.numbers() {
            None => self.join_parts(alloc, o),
            Some(numbers) => match o.numbers() {
                None => self.join_parts(alloc, o),
                Some(others) => Ok(AVal::separate(
                    widened(numbers, others, marks, own),
                    union(
                        alloc,
                        &Widening { sizes, marks },
                        self.addresses(),
                        o.addresses(),
                    )?,
                )),
            },
        }
    }
}

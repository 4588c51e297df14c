//! What two values have in common.
ghost use Rattle.std.specs.Prelude.{◌≡◌, true, IfOk};
ghost use Rattle.c_memory.specs.Layouts.{Layout};
ghost use Rattle.c_memory.specs.Values.{Value};
ghost use Rattle.avalue_base.specs.Meaning.{Means};
ghost use Rattle.avalue_base.specs.Meets.{meet_values};
ghost use Rattle.avalue_base.specs.Order.{value_in};
ghost use Rattle.avalue_values.specs.Views.{IsMixed};

use crate::Mem;
use crate::value::{AVal, mixed};
use avalue_parts::{ByOffsets, meet_of};
use sorted_lists::{First, common};
use std::alloc::Global;

impl AVal {
    /// The values of both.
    ///
    /// Two mixes without a common base have only numbers in common, all of them: the first mix stays.
    pub fn meet(&self, alloc: Global, o: &AVal) -> Mem<AVal>
        ensures value { IfOk result (λ v. v ≡ meet_values self.now o.now) }
        ensures first { IfOk result (λ v. value_in v self.now ≡ true) }
        ensures meaning { IfOk result (λ v. (l : Layout) (x : Value) →
            Means l self.now x → Means l o.now x → Means l v x) }
    {
        self.soundness();
        o.soundness();
        self.meet_parts(alloc, o)
    }

    pub fn meet_parts(&self, alloc: Global, o: &AVal) -> Mem<AVal>
        ensures { IfOk result (λ v. v ≡ meet_values self.now o.now) }
    {
        match self.numbers() {
            None => match o.numbers() {
                None => self.meet_mixes(alloc, o),
                Some(others) => Ok(AVal::separate(
                    others.copy(),
                    common(alloc, &First, o.addresses(), self.members())?,
                )),
            },
            Some(numbers) => match o.numbers() {
                None => Ok(AVal::separate(
                    numbers.copy(),
                    common(alloc, &First, self.addresses(), o.members())?,
                )),
                Some(others) => Ok(AVal::separate(
                    meet_of(numbers, others),
                    common(alloc, &ByOffsets, self.addresses(), o.addresses())?,
                )),
            },
        }
    }

    /// The mix of the common bases, or this mix.
    fn meet_mixes(&self, alloc: Global, o: &AVal) -> Mem<AVal>
        requires first { IsMixed self.now }
        requires second { IsMixed o.now }
        ensures { IfOk result (λ v. v ≡ meet_values self.now o.now) }
    {
        let bases = common(alloc, &First, self.members(), o.members())?;
        if bases.is_empty() {
            return self.duplicate(alloc);
        }
        Ok(mixed(bases))
    }
}

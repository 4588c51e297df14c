//! Values with other numbers, and values of which only the bases are told.
ghost use Rattle.std.specs.Prelude.{◌≡◌, ◌&&◌, false, IfOk};
ghost use Rattle.avalue_base.specs.Lists.{AreAscending, union_of};
ghost use Rattle.avalue_base.specs.Numbers.{is_empty_list};
ghost use Rattle.avalue_base.specs.Values.{Mixed, bases_of};
ghost use Rattle.avalue_values.specs.Views.{renumbered};

use crate::Mem;
use crate::value::{AVal, mixed};
use avalue_parts::Member;
use ival_core::Ival;
use smallvec::SmallVec;
use sorted_lists::{First, copied, union};
use std::alloc::Global;

impl AVal {
    /// The bases of both, ascending.
    pub fn bases_of_both(&self, alloc: Global, o: &AVal) -> Mem<SmallVec<Member, 4>>
        ensures value { IfOk result (λ list. list.items ≡ union_of (bases_of self.now) (bases_of o.now)) }
        ensures order { IfOk result (λ list. AreAscending (λ b. b) list.items) }
    {
        let bases = self.bases(alloc)?;
        let others = o.bases(alloc)?;
        union(alloc, &First, bases.as_slice(), others.as_slice())
    }

    /// Anything made from its bases, of which there is one at least.
    pub fn as_mix(&self, alloc: Global) -> Mem<AVal>
        requires { is_empty_list (bases_of self.now) ≡ false }
        ensures { IfOk result (λ v. v ≡ Mixed (bases_of self.now)) }
    {
        Ok(mixed(self.bases(alloc)?))
    }

    /// With these numbers in place of its own; a mix as it is.
    pub fn renumbered(&self, alloc: Global, numbers: Ival) -> Mem<AVal>
        ensures { IfOk result (λ v. v ≡ renumbered self.now numbers) }
    {
        match self.numbers() {
            None => self.duplicate(alloc),
            Some(_) => Ok(AVal::separate(numbers, copied(alloc, self.addresses())?)),
        }
    }

    /// Anything made from the bases of both, of which there is one at least.
    pub fn blend(&self, alloc: Global, o: &AVal) -> Mem<AVal>
        requires { (is_empty_list (bases_of self.now) && is_empty_list (bases_of o.now)) ≡ false }
        ensures { IfOk result (λ v. v ≡ Mixed (union_of (bases_of self.now) (bases_of o.now))) }
    {
        Ok(mixed(self.bases_of_both(alloc, o)?))
    }
}

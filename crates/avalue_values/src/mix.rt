//! Mixes of given bases.
ghost use Rattle.std.specs.Prelude.{◌≡◌, ◌↔◌, ◌≤◌, ℕ, true, false, IfOk, length, map};
ghost use Rattle.std.specs.FinSet.{contains};
ghost use Rattle.c_memory.specs.Layouts.{Layout};
ghost use Rattle.c_memory.specs.Values.{Value};
ghost use Rattle.avalue_base.specs.Meaning.{Means};
ghost use Rattle.c_base.specs.declared.number.BaseId.{BaseId as PlainId};
ghost use Rattle.avalue_base.specs.Lists.{gathered, has_base};
ghost use Rattle.avalue_base.specs.Numbers.{is_empty_list};
ghost use Rattle.avalue_base.specs.Values.{Mixed};

use crate::Mem;
use crate::value::{AVal, mixed};
use avalue_parts::Member;
use c_base::number::BaseId;
use smallvec::SmallVec;
use sorted_lists::{First, union};
use std::alloc::Global;

impl AVal {
    /// Anything made from the addresses of these bases, given in any order.
    pub fn mix(alloc: Global, bases: &[BaseId]) -> Mem<AVal>
        requires { is_empty_list bases.now ≡ false }
        ensures value { IfOk result (λ v. v ≡ Mixed (gathered (map (λ (b : PlainId). b.0) bases.now))) }
        ensures meaning { IfOk result (λ v. (l : Layout) (x : Value) → Means l v x
            ↔ ((q : ℕ) → contains x.provenance q ≡ true → has_base (map (λ (b : PlainId). b.0) bases.now) q ≡ true)) }
    {
        AVal::mix_of(alloc, bases)
    }

    fn mix_of(alloc: Global, bases: &[BaseId]) -> Mem<AVal>
        requires { is_empty_list bases.now ≡ false }
        ensures { IfOk result (λ v. v ≡ Mixed (gathered (map (λ (b : PlainId). b.0) bases.now))) }
    {
        let members = gather(alloc, bases)?;
        Ok(mixed(members))
    }
}

/// The bases in ascending order: those of both halves.
fn gather(alloc: Global, bases: &[BaseId]) -> Mem<SmallVec<Member, 4>>
    ensures { IfOk result (λ list. list.items ≡ gathered (map (λ (b : PlainId). b.0) bases.now)) }
{
    if bases.len() <= 1 {
        return single(alloc, bases);
    }
    let middle = bases.len() / 2;
    let first = gather(alloc, &bases[..middle])?;
    let second = gather(alloc, &bases[middle..])?;
    union(alloc, &First, first.as_slice(), second.as_slice())
}

/// The base of a list of at most one.
fn single(alloc: Global, bases: &[BaseId]) -> Mem<SmallVec<Member, 4>>
    requires { length bases.now ≤ 1 }
    ensures { IfOk result (λ list. list.items ≡ gathered (map (λ (b : PlainId). b.0) bases.now)) }
{
    let mut list = SmallVec::new(alloc);
    if bases.is_empty() {
        return Ok(list);
    }
    list.push(Member::new(bases[0]))?;
    Ok(list)
}

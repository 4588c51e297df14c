//! Values.
ghost use Rattle.std.specs.Prelude.{◌≡◌, ◌≢◌, ◌⊎◌, true, false, IsTrue, IsFalse, IfOk, IfNone, [], map};
ghost use Rattle.std.specs.List.{list_all};
ghost use Rattle.avalue_base.specs.Pieces.{has_offsets};
ghost use Rattle.std.specs.Option.{option_copied};
ghost use Rattle.c_memory.specs.Layouts.{Layout};
ghost use Rattle.c_memory.specs.Values.{Value};
ghost use Rattle.std.specs.FinSet.{contains};
ghost use Rattle.avalue_base.specs.Meaning.{IsWord, Means};
ghost use Rattle.avalue_base.specs.Lists.{AreAscending, has_base};
ghost use Rattle.avalue_base.specs.Numbers.{is_empty, is_empty_list, words};
ghost use Rattle.avalue_base.specs.Values.{AVal as PlainVal, Separate, Mixed, base_of, bases_of, has_no_value};
ghost use Rattle.avalue_base.specs.Deaths.{value_left, mix_or_words};
ghost use Rattle.avalue_base.specs.Order.{value_in, join_values};
ghost use Rattle.avalue_base.specs.Ops.{IsSound};
ghost use Rattle.avalue_values.specs.Views.{numbers_in, numbers_alone, addresses_of, members_of, address_value, IsMixed};

use crate::Mem;
use avalue_parts::{Address, ByOffsets, Member, is_included, is_none, joined};
use c_base::number::BaseId;
use ival_core::{Ival, run_from};
use smallvec::SmallVec;
use sorted_lists::{ByKey, First, copied, has_key, is_all_in, union, without};
use std::alloc::Global;
use std::marker::Model;

/// How a value is kept.
#[derive(Drop)]
pub(crate) enum Content {
    Number(Ival),
    /// Numbers, and addresses by ascending base.
    Addresses(Ival, SmallVec<Address, 1>),
    /// The bases of a mix, ascending.
    Mix(SmallVec<Member, 4>),
}

/// A set of values: numbers that were made from no address and addresses by their bases, or anything made from the addresses of some bases.
///
/// A value without addresses takes no memory.
#[derive(Drop)]
pub struct AVal {
    content: Content,
}

impl Model for AVal {
    ghost use Rattle.avalue_base.specs.Values.{AVal as PlainVal};
    ghost use Rattle.avalue_base.specs.Ops.{IsSound};
    ghost use Rattle.avalue_values.specs.Codes.{value_code};
    ghost use Rattle.avalue_values.specs.Views.{value_of};

    ghost Value = { PlainVal };

    ghost coded = { value_code };

    ghost view = { λ v. value_of v.content };

    ghost invariant = { λ v. IsSound (value_of v.content) };
}

impl AVal {
    /// Numbers that were made from no address.
    pub fn number(numbers: Ival) -> AVal
        ensures { result ≡ Separate numbers [] }
    {
        AVal {
            content: Content::Number(numbers),
        }
    }

    /// What the base's address gives with these byte offsets.
    pub fn address(alloc: Global, base: BaseId, offsets: Ival) -> Mem<AVal>
        ensures { IfOk result (λ v. v ≡ address_value base.0 offsets) }
    {
        if is_none(&offsets) {
            return Ok(AVal::number(Ival::empty()));
        }
        let mut list = SmallVec::new(alloc);
        list.push(Address::new(base, offsets))?;
        Ok(AVal {
            content: Content::Addresses(Ival::empty(), list),
        })
    }

    /// The numbers, unless it is a mix.
    pub fn numbers(&self) -> Option<&Ival>
        ensures { option_copied result ≡ numbers_in self.now }
    {
        match &self.content {
            Content::Number(numbers) => Some(numbers),
            Content::Addresses(numbers, _) => Some(numbers),
            Content::Mix(_) => None,
        }
    }

    /// The addresses by ascending base; none of a mix.
    pub fn addresses(&self) -> &[Address]
        ensures value { result.now ≡ addresses_of self.now }
        ensures order { AreAscending base_of result.now }
        ensures offsets { list_all has_offsets result.now ≡ true }
    {
        match &self.content {
            Content::Number(_) => &[],
            Content::Addresses(_, list) => list.as_slice(),
            Content::Mix(_) => &[],
        }
    }

    /// The bases of a mix.
    pub fn members(&self) -> &[Member]
        ensures value { result.now ≡ members_of self.now }
        ensures order { AreAscending (λ b. b) result.now }
    {
        match &self.content {
            Content::Number(_) => &[],
            Content::Addresses(_, _) => &[],
            Content::Mix(list) => list.as_slice(),
        }
    }

    /// Whether each value is one of `o`, by their parts.
    pub fn included(&self, o: &AVal) -> bool
        ensures value { result ≡ value_in self.now o.now }
        ensures meaning { IsTrue result → (l : Layout) (x : Value) → Means l self.now x → Means l o.now x }
    {
        self.parts_included(o)
    }

    fn parts_included(&self, o: &AVal) -> bool
        ensures { result ≡ value_in self.now o.now }
    {
        match self.numbers() {
            None => match o.numbers() {
                None => is_all_in(&ByKey, self.members(), o.members()),
                Some(_) => false,
            },
            Some(numbers) => match o.numbers() {
                None => is_all_in(&ByKey, self.addresses(), o.members()),
                Some(others) => {
                    if !is_included(numbers, others) {
                        return false;
                    }
                    is_all_in(&ByOffsets, self.addresses(), o.addresses())
                }
            },
        }
    }
}

impl AVal {
    /// The bases whose addresses a value may be made from.
    pub fn bases(&self, alloc: Global) -> Mem<SmallVec<Member, 4>>
        ensures value { IfOk result (λ list. list.items ≡ bases_of self.now) }
        ensures order { IfOk result (λ list. AreAscending (λ b. b) list.items) }
        ensures some { IfOk result (λ list. IsMixed self.now → is_empty_list list.items ≡ false) }
    {
        match &self.content {
            Content::Number(_) => Ok(SmallVec::new(alloc)),
            Content::Addresses(_, addresses) => bases_among(alloc, addresses.as_slice()),
            Content::Mix(bases) => copied(alloc, bases.as_slice()),
        }
    }

    /// The same value.
    pub fn duplicate(&self, alloc: Global) -> Mem<AVal>
        ensures { IfOk result (λ v. v ≡ self.now) }
    {
        let content = match &self.content {
            Content::Number(numbers) => Content::Number(numbers.copy()),
            Content::Addresses(numbers, list) => {
                Content::Addresses(numbers.copy(), copied(alloc, list.as_slice())?)
            }
            Content::Mix(list) => Content::Mix(copied(alloc, list.as_slice())?),
        };
        Ok(AVal { content })
    }

    /// The least value that has those of both.
    pub fn join(&self, alloc: Global, o: &AVal) -> Mem<AVal>
        ensures value { IfOk result (λ v. v ≡ join_values self.now o.now) }
        ensures first { IfOk result (λ v. value_in self.now v ≡ true) }
        ensures second { IfOk result (λ v. value_in o.now v ≡ true) }
        ensures least { IfOk result (λ v. (u : PlainVal) → IsSound u → value_in self.now u ≡ true →
            value_in o.now u ≡ true → value_in v u ≡ true) }
    {
        self.join_parts(alloc, o)
    }

    pub(crate) fn join_parts(&self, alloc: Global, o: &AVal) -> Mem<AVal>
        ensures { IfOk result (λ v. v ≡ join_values self.now o.now) }
    {
        match self.numbers() {
            None => self.join_mix(alloc, o),
            Some(numbers) => match o.numbers() {
                None => self.join_mix(alloc, o),
                Some(others) => Ok(AVal::separate(
                    joined(numbers, others),
                    union(alloc, &ByOffsets, self.addresses(), o.addresses())?,
                )),
            },
        }
    }

    /// The mix of the bases of both.
    fn join_mix(&self, alloc: Global, o: &AVal) -> Mem<AVal>
        requires { IsMixed self.now ⊎ IsMixed o.now }
        ensures { IfOk result (λ v. v ≡ join_values self.now o.now) }
    {
        let bases = self.bases(alloc)?;
        let others = o.bases(alloc)?;
        Ok(AVal {
            content: Content::Mix(union(alloc, &First, bases.as_slice(), others.as_slice())?),
        })
    }
}

/// The bases of addresses.
fn bases_among(alloc: Global, addresses: &[Address]) -> Mem<SmallVec<Member, 4>>
    ensures { IfOk result (λ list. list.items ≡ map base_of addresses.now) }
{
    let mut list = SmallVec::new(alloc);
    for address in addresses {
        list.push(Member::new(address.base()))?;
    }
    Ok(list)
}

impl AVal {
    /// Numbers that were made from no address, and addresses by ascending base, each with an offset.
    pub fn separate(numbers: Ival, addresses: SmallVec<Address, 1>) -> AVal
        requires sound { IsSound (Separate numbers addresses.items) }
        ensures { result ≡ Separate numbers addresses.items }
    {
        if addresses.is_empty() {
            return AVal::number(numbers);
        }
        AVal {
            content: Content::Addresses(numbers, addresses),
        }
    }

    /// What is true of every value: bases ascend, each address has an offset, and a mix has a base.
    pub fn soundness(&self)
        ensures { IsSound self.now }
    {
        let _content = &self.content;
    }

    /// Whether both are the same value.
    pub fn is_same(&self, o: &AVal) -> bool
        ensures same { IsTrue result → self.now ≡ o.now }
        ensures other { IsFalse result → self.now ≢ o.now }
    {
        self.soundness();
        o.soundness();
        if !self.parts_included(o) {
            return false;
        }
        o.parts_included(self)
    }

    /// Whether no value may be made from an address.
    pub fn is_plain(&self) -> bool
        ensures { result ≡ is_empty_list (bases_of self.now) }
    {
        match &self.content {
            Content::Number(_) => true,
            Content::Addresses(_, list) => list.is_empty(),
            Content::Mix(list) => list.is_empty(),
        }
    }

    /// The numbers, where there is nothing else.
    pub fn numbers_alone(&self) -> Option<&Ival>
        ensures value { option_copied result ≡ numbers_alone self.now }
        ensures none { IfNone result (is_empty_list (bases_of self.now) ≡ false) }
    {
        match &self.content {
            Content::Number(numbers) => Some(numbers),
            Content::Addresses(numbers, list) => {
                if list.is_empty() { Some(numbers) } else { None }
            }
            Content::Mix(_) => None,
        }
    }

    /// Whether there is no value.
    pub fn is_nothing(&self) -> bool
        ensures { result ≡ has_no_value self.now }
    {
        match &self.content {
            Content::Number(numbers) => is_none(numbers),
            Content::Addresses(numbers, list) => {
                if list.is_empty() {
                    is_none(numbers)
                } else {
                    false
                }
            }
            Content::Mix(_) => false,
        }
    }

    /// Whether a value may have been made from the base's address.
    pub fn has_base(&self, base: BaseId) -> bool
        ensures { result ≡ has_base (bases_of self.now) base.0 }
    {
        match &self.content {
            Content::Number(_) => false,
            Content::Addresses(_, list) => has_key(list.as_slice(), base.0),
            Content::Mix(list) => has_key(list.as_slice(), base.0),
        }
    }

    /// What is left of the values when a base has died: those that were not made from its address.
    pub fn forget_base(&self, alloc: Global, base: BaseId) -> Mem<AVal>
        ensures value { IfOk result (λ v. v ≡ value_left base.0 self.now) }
        ensures meaning { IfOk result (λ v. (l : Layout) (x : Value) → Means l self.now x →
            contains x.provenance base.0 ≡ false → IsWord x.number → Means l v x) }
    {
        self.left_of(alloc, base)
    }

    pub fn left_of(&self, alloc: Global, base: BaseId) -> Mem<AVal>
        ensures { IfOk result (λ v. v ≡ value_left base.0 self.now) }
    {
        match &self.content {
            Content::Number(numbers) => Ok(AVal::number(numbers.copy())),
            Content::Addresses(numbers, list) => Ok(AVal::separate(
                numbers.copy(),
                without(alloc, list.as_slice(), base.0)?,
            )),
            Content::Mix(list) => Ok(mix_or_words(without(alloc, list.as_slice(), base.0)?)),
        }
    }
}

/// A mix of the bases; any numbers of 64 bits, where there is none.
fn mix_or_words(bases: SmallVec<Member, 4>) -> AVal
    requires { AreAscending (λ b. b) bases.items }
    ensures { result ≡ mix_or_words bases.items }
{
    if bases.is_empty() {
        return AVal::number(words());
    }
    mixed(bases)
}

/// A mix of bases.
pub fn mixed(bases: SmallVec<Member, 4>) -> AVal
    requires order { AreAscending (λ b. b) bases.items }
    requires some { is_empty_list bases.items ≡ false }
    ensures { result ≡ Mixed bases.items }
{
    AVal {
        content: Content::Mix(bases),
    }
}

/// The numbers of 64 bits.
fn words() -> Ival
    ensures { result ≡ words }
{
    run_from(0, (1 << 64) - 1, 1)
}

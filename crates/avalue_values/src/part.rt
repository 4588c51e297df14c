//! The parts of a value, one by one.
ghost use Rattle.std.specs.Prelude.{◌≡◌, slice_get, map};
ghost use Rattle.avalue_base.specs.Values.{Address as PlainAddress};
ghost use Rattle.avalue_values.specs.Parts.{parts_of, base_id};

use crate::value::AVal;
use avalue_parts::{Address, Member, is_none};
use c_base::number::BaseId;
use ival_core::Ival;

/// A part of a value.
#[derive(Drop)]
pub enum Part {
    /// Numbers that were made from no address.
    Number(Ival),
    /// Byte offsets into a base.
    Address(BaseId, Ival),
    /// A base of a mix.
    Mix(BaseId),
}

impl AVal {
    /// Part `n`, from 0: the numbers, if there are any, and then the addresses by ascending base; of a mix its bases, ascending.
    pub fn part(&self, n: usize) -> Option<Part>
        ensures { result ≡ slice_get (parts_of self.now) n }
    {
        match self.numbers() {
            None => member_part(self.members(), n),
            Some(numbers) => {
                if is_none(numbers) {
                    return address_part(self.addresses(), n);
                }
                if n == 0 {
                    return Some(Part::Number(numbers.copy()));
                }
                address_part(self.addresses(), n - 1)
            }
        }
    }
}

fn address_part(addresses: &[Address], n: usize) -> Option<Part>
    ensures { result ≡ slice_get (map (λ (a : PlainAddress). Part.Address (base_id a.base) a.offsets) addresses.now) n }
{
    match addresses.get(n) {
        None => None,
        Some(address) => Some(Part::Address(address.base(), address.offsets().copy())),
    }
}

fn member_part(members: &[Member], n: usize) -> Option<Part>
    ensures { result ≡ slice_get (map (λ b. Part.Mix (base_id b)) members.now) n }
{
    match members.get(n) {
        None => None,
        Some(member) => Some(Part::Mix(member.base())),
    }
}

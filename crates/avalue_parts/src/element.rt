//! What stands in the lists of a value: addresses, and the bases of a mix.
ghost use Rattle.std.specs.Prelude.{◌≡◌, ℕ, Bool};
ghost use Rattle.avalue_base.specs.Numbers.{join_of, lies_in as numbers_lie_in};

use crate::orders::{is_included, is_none, joined, met_offsets};
use c_base::number::BaseId;
use ival_core::Ival;
use sorted_lists::{Compares, Keyed, Picks, Unites};
use std::marker::Model;

/// Byte offsets into a base.
#[derive(Drop)]
pub struct Address {
    base: BaseId,
    offsets: Ival,
}

impl Model for Address {
    ghost use Rattle.avalue_base.specs.Values.{Address as PlainAddress};
    ghost use Rattle.avalue_parts.specs.Codes.{address_code};

    ghost Value = { PlainAddress };

    ghost coded = { address_code };

    ghost view = { λ a. record { base = a.base.0; offsets = a.offsets } };
}

impl Address {
    ghost use Rattle.avalue_base.specs.Values.{Address as PlainAddress};

    pub fn new(base: BaseId, offsets: Ival) -> Address
        ensures base { result.base ≡ base.0 }
        ensures offsets { result.offsets ≡ offsets }
    {
        Address { base, offsets }
    }

    pub fn base(&self) -> BaseId
        ensures { result.0 ≡ self.now.base }
    {
        self.base
    }

    pub fn offsets(&self) -> &Ival
        ensures { result.now ≡ self.now.offsets }
    {
        &self.offsets
    }
}

impl Default for Address {
    fn default() -> Address {
        Address {
            base: BaseId(0),
            offsets: Ival::empty(),
        }
    }
}

impl Keyed for Address {
    ghost use Rattle.avalue_base.specs.Values.{base_of};

    ghost key_of = { base_of };

    fn key(&self) -> u32 {
        self.base.0
    }

    fn copy(&self) -> Address {
        Address {
            base: self.base,
            offsets: self.offsets.copy(),
        }
    }
}

/// By their offsets.
pub struct ByOffsets;

impl Compares<Address, Address> for ByOffsets {
    ghost lies_in = { λ a b. numbers_lie_in a.offsets.shape b.offsets.shape };

    fn is_in(&self, x: &Address, y: &Address) -> bool {
        is_included(&x.offsets, &y.offsets)
    }
}

impl Unites<Address> for ByOffsets {
    ghost use Rattle.avalue_base.specs.Order.{both_addresses};

    ghost ready = { λ r. Unit {0} };

    ghost united = { λ r. both_addresses };

    fn unite(&self, x: &Address, y: &Address) -> Address {
        Address {
            base: x.base,
            offsets: joined(&x.offsets, &y.offsets),
        }
    }
}

impl Picks<Address, Address> for ByOffsets {
    ghost use Rattle.avalue_base.specs.Meets.{met_address};

    ghost picked = { met_address };

    fn pick(&self, x: &Address, y: &Address) -> Option<Address> {
        let offsets = met_offsets(x.offsets(), y.offsets());
        if is_none(&offsets) {
            return None;
        }
        Some(Address::new(x.base(), offsets))
    }
}

/// A base of a mix.
#[derive(Drop)]
pub struct Member {
    base: BaseId,
}

impl Model for Member {
    ghost use Rattle.std.specs.Prelude.{ℕ};

    ghost Value = { ℕ };

    ghost view = { λ m. m.base.0 };
}

impl Member {
    pub fn new(base: BaseId) -> Member
        ensures { result ≡ base.0 }
    {
        Member { base }
    }

    pub fn base(&self) -> BaseId
        ensures { result.0 ≡ self.now }
    {
        self.base
    }
}

impl Default for Member {
    fn default() -> Member {
        Member { base: BaseId(0) }
    }
}

impl Keyed for Member {
    ghost key_of = { λ b. b };

    fn key(&self) -> u32 {
        self.base.0
    }

    fn copy(&self) -> Member {
        Member { base: self.base }
    }
}

//! Two bases: number 1 has 8 bytes, and number 2 has 16.
ghost use Rattle.std.specs.Prelude.{◌≡◌};

use avalue_parts::Sizes;
use avalue_values::{AVal, Mem, Part};
use c_base::number::BaseId;
use ival_core::Ival;
use std::alloc::Global;

/// Their sizes.
pub struct Two;

impl Sizes for Two {
    ghost use Rattle.std.specs.Prelude.{cond, ◌==◌};

    ghost size_of = { λ s b. cond (b == 1) 8 16 };

    fn size(&self, base: BaseId) -> u64 {
        if base.0 == 1 { 8 } else { 16 }
    }
}

/// The byte of the base at a small offset.
pub fn byte(alloc: Global, base: u32, offset: i32) -> Mem<AVal> {
    AVal::address(alloc, BaseId(base), Ival::single(offset as i128))
}

/// The plain number.
pub fn number(n: i32) -> AVal {
    AVal::number(Ival::single(n as i128))
}

/// Whether the value is this address alone.
pub fn is_byte(v: &AVal, base: u32, offset: i32) -> bool {
    match v.part(0) {
        None => false,
        Some(part) => match part {
            Part::Number(_) => false,
            Part::Mix(_) => false,
            Part::Address(id, offsets) => {
                id.0 == base && offsets.as_single() == Some(offset as i128) && v.part(1).is_none()
            }
        },
    }
}

/// Whether the value is this number alone.
pub fn is_number(v: &AVal, n: i32) -> bool {
    match v.numbers_alone() {
        None => false,
        Some(numbers) => numbers.as_single() == Some(n as i128),
    }
}

/// Whether the value is a mix of this base alone.
pub fn is_mix(v: &AVal, base: u32) -> bool {
    match v.part(0) {
        None => false,
        Some(part) => match part {
            Part::Number(_) => false,
            Part::Mix(id) => id.0 == base && v.part(1).is_none(),
            Part::Address(_, _) => false,
        },
    }
}

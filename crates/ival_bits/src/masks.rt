//! `&` with a mask (C11 6.5.10).

ghost use Rattle.std.specs.Prelude.{◌≡◌, ◌<◌, ◌≤◌, ◌^◌, pos, ◌<ℤ◌, IfSome};
ghost use Rattle.c_base.specs.Integers.{FitsBits};
ghost use Rattle.ival_core.specs.Ivals.{Holds};
ghost use Rattle.ival_arith.specs.Exact.{shape_option};
ghost use Rattle.ival_arith.specs.Promises.{InType};
ghost use Rattle.ival_bits.specs.Masks.{mask_of, turned, cleared, by_mask, and_by};

use crate::spans::length_of;
use c_base::format::{Format, power};
use ival_arith::{Change, changed, floored, residues};
use ival_core::Ival;

/// How many bits a mask of the lowest bits has, if the number is one.
fn mask_of(n: i128) -> Option<u32>
    requires { n <ℤ pos (2 ^ 64) }
    ensures value { result ≡ mask_of n }
    ensures small { IfSome result (λ bits. bits ≤ 64) }
{
    if n < 0 {
        return None;
    }
    let bits = length_of(n as u128);
    if 1u128 << bits == n as u128 + 1 {
        Some(bits)
    } else {
        None
    }
}

/// The number of the type with all bits turned.
fn turned(format: Format, n: i128) -> i128
    requires { FitsBits format.signed format.width n }
    ensures value { result ≡ turned format.signed format.width n }
    ensures small { result <ℤ pos (2 ^ 64) }
{
    format.least() + format.greatest() - n
}

/// The numbers of a set without their lowest bits.
#[tactic(auto, unfolding(crate::specs::Masks::cleared))]
fn cleared(format: Format, bits: u32, set: &Ival) -> Ival
    requires small { bits < 64 }
    requires typed { InType format.signed format.width set.now }
    ensures { result.shape ≡ cleared bits set.now.shape }
{
    let high = floored(set, power(bits));
    changed(&high, Change::Times(power(bits) as u64))
}

/// What a mask leaves of the numbers of a set.
fn by_mask(format: Format, mask: i128, set: &Ival) -> Option<Ival>
    requires mask { FitsBits format.signed format.width mask }
    requires typed { InType format.signed format.width set.now }
    ensures { shape_option result
        ≡ by_mask (mask_of mask) (mask_of (turned format.signed format.width mask)) set.now.shape }
{
    if let Some(bits) = mask_of(mask) {
        return Some(residues(set, power(bits)));
    }
    match mask_of(turned(format, mask)) {
        Some(bits) => Some(cleared(format, bits, set)),
        None => None,
    }
}

/// What is left of the numbers of a set, where the other has one number, and it is a mask.
pub(crate) fn and_by(format: Format, masks: &Ival, set: &Ival) -> Option<Ival>
    requires masks { InType format.signed format.width masks.now }
    requires typed { InType format.signed format.width set.now }
    ensures { shape_option result
        ≡ and_by format.signed format.width masks.now.shape set.now.shape }
{
    match masks.as_single() {
        None => None,
        Some(mask) => by_mask(format, mask, set),
    }
}

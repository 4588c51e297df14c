//! What values tell bit by bit.
ghost use Rattle.std.specs.Prelude.{◌≡◌, ◌<◌, ◌≤◌, length};
ghost use Rattle.avalue_base.specs.Lists.{all_among};
ghost use Rattle.avalue_base.specs.Values.{bases_of};
ghost use Rattle.avalue_base.specs.Hues.{bit_in, value_admits, value_has, value_rest};

use avalue_parts::{has_residue, has_row, known_bit as bit_of, number_of};
use avalue_values::AVal;
use sorted_lists::{ByKey, is_all_in};

/// Whether the bases from whose addresses its values may be made are among the other's.
pub(crate) fn bases_in(a: &AVal, b: &AVal) -> bool
    ensures { result ≡ all_among (bases_of a.now) (bases_of b.now) }
{
    match a.numbers() {
        None => match b.numbers() {
            None => is_all_in(&ByKey, a.members(), b.members()),
            Some(_) => is_all_in(&ByKey, a.members(), b.addresses()),
        },
        Some(_) => match b.numbers() {
            None => is_all_in(&ByKey, a.addresses(), b.members()),
            Some(_) => is_all_in(&ByKey, a.addresses(), b.addresses()),
        },
    }
}

/// Whether an element of so many bits allows all bits that are made from the other's bases.
pub(crate) fn admits(a: &AVal, bits: u64, b: &AVal) -> bool
    ensures { result ≡ value_admits bits a.now (bases_of b.now) }
{
    match a.numbers() {
        None => bases_in(b, a),
        Some(numbers) => {
            if !b.is_plain() {
                return false;
            }
            has_row(numbers, bits)
        }
    }
}

/// The bit at an index of elements of so many bits, where all values are numbers with the same bits there.
pub(crate) fn known_bit(a: &AVal, bits: u64, index: u64) -> Option<bool>
    requires few { bits ≤ 64 }
    requires inside { index < bits }
    ensures { result ≡ bit_in bits index (value_rest bits a.now) }
{
    match a.numbers_alone() {
        None => None,
        Some(numbers) => bit_of(numbers, bits, index),
    }
}

/// Whether an element of as many bits may have these bits, made from no address.
pub(crate) fn has_bits(a: &AVal, bits: &[bool]) -> bool
    requires { length bits.now ≤ 64 }
    ensures { result ≡ value_has (length bits.now) a.now bits.now }
{
    match a.numbers() {
        None => true,
        Some(numbers) => has_residue(numbers, bits.len() as u32, number_of(bits)),
    }
}

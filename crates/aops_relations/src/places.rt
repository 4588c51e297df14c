//! Offsets into bases of known sizes.
ghost use Rattle.std.specs.Prelude.{◌≡◌, int_le};
ghost use Rattle.std.specs.List.{list_all};
ghost use Rattle.std.specs.Option.{option_copied};
ghost use Rattle.ival_core.specs.Views.{bounds_of};
ghost use Rattle.aops_relations.specs.Comparisons.{all_good, is_good};
ghost use Rattle.aops_relations.specs.Placed.{all_inside, all_within, end_of, one_address, some_inside, some_within};

use avalue_parts::{Address, Sizes, is_near, is_none};
use avalue_values::AVal;
use ival_core::Ival;

/// Whether all numbers lie from 0 to the end of so many bytes, or to the last of them.
pub(crate) fn all_within(inner: bool, size: u64, set: &Ival) -> bool
    ensures { result ≡ all_within (end_of inner size) (bounds_of set.now.shape) }
{
    match set.bounds() {
        None => true,
        Some((low, high)) => {
            if low < 0 {
                return false;
            }
            is_before(inner, high, size)
        }
    }
}

/// Whether some number between the bounds may.
fn some_within(inner: bool, size: u64, set: &Ival) -> bool
    ensures { result ≡ some_within (end_of inner size) (bounds_of set.now.shape) }
{
    match set.bounds() {
        None => false,
        Some((low, high)) => {
            if high < 0 {
                return false;
            }
            is_before(inner, low, size)
        }
    }
}

fn is_before(inner: bool, offset: i128, size: u64) -> bool
    ensures { result ≡ int_le offset (end_of inner size) }
{
    if inner {
        return offset < size as i128;
    }
    offset <= size as i128
}

pub(crate) fn all_inside(inner: bool, size: u64, address: &Address) -> bool
    ensures { result ≡ all_inside (end_of inner size) address.now }
{
    all_within(inner, size, address.offsets())
}

pub(crate) fn some_inside(inner: bool, size: u64, address: &Address) -> bool
    ensures { result ≡ some_inside (end_of inner size) address.now }
{
    some_within(inner, size, address.offsets())
}

/// The only address of the value, where there is nothing else and its offsets are near.
pub(crate) fn one_address(a: &AVal) -> Option<&Address>
    ensures { option_copied result ≡ one_address a.now }
{
    let addresses = a.addresses();
    if addresses.len() != 1 {
        return None;
    }
    if !is_near(addresses[0].offsets()) {
        return None;
    }
    match a.numbers() {
        None => None,
        Some(numbers) => {
            if is_none(numbers) {
                Some(&addresses[0])
            } else {
                None
            }
        }
    }
}

fn is_good<S: Sizes>(sizes: &S, address: &Address) -> bool
    ensures { result ≡ is_good (S.size_of sizes.now) address.now }
{
    if !is_near(address.offsets()) {
        return false;
    }
    all_inside(false, sizes.size(address.base()), address)
}

/// Whether each address points into its base, or to its end.
pub(crate) fn all_good<S: Sizes>(sizes: &S, a: &AVal) -> bool
    ensures { result ≡ all_good (S.size_of sizes.now) a.now }
{
    match a.numbers() {
        None => false,
        Some(_) => are_good(sizes, a.addresses()),
    }
}

fn are_good<S: Sizes>(sizes: &S, addresses: &[Address]) -> bool
    ensures { result ≡ list_all (is_good (S.size_of sizes.now)) addresses.now }
{
    for address in addresses {
        if !is_good(sizes, address) {
            return false;
        }
    }
    true
}

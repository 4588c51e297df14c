//! One pointer that was made from no address, moved by one count (C11 6.5.6p8). What lies between, the count in bytes, may be larger than any number of a set.
ghost use Rattle.std.specs.Prelude.{◌≡◌, ◌<◌, ◌≤◌, ◌^◌, ◌*ℤ◌, pos};
ghost use Rattle.c_base.specs.Integers as integers;
ghost use Rattle.c_pointers.specs.Conversions.{address_number};
ghost use Rattle.aops_pointers.specs.Moved.{value_number};
ghost use Rattle.aops_pointers.specs.Moves.{summed};
ghost use Rattle.aops_pointers.specs.Singles.{one_moved};

use aops::pointer_bits;
use avalue_values::AVal;
use c_base::format::power;
use c_base::integer::Machine;
use ival_arith::residue;
use ival_core::Ival;

/// So many elements in bytes, modulo the words of a pointer.
fn step_of(words: u128, size: u64, count: i128) -> u128
    requires modulus { (0 < words) × (words ≤ 2 ^ 64) }
    ensures value { result ≡ integers.residue words (count *ℤ pos size) }
    ensures below { result < words }
{
    residue(words, count) * size as u128 % words
}

/// The sum, or the difference.
fn summed(back: bool, here: u128, step: u128) -> i128
    requires small { (here ≤ 2 ^ 64) × (step ≤ 2 ^ 64) }
    ensures { result ≡ summed back (pos here) (pos step) }
{
    if back {
        here as i128 - step as i128
    } else {
        here as i128 + step as i128
    }
}

/// The address so many elements behind another, or before it.
fn moved_number(back: bool, m: Machine, size: u64, n: i128, count: i128) -> u128
    ensures value { pos result ≡ address_number m (summed back n (count *ℤ pos size)) }
    ensures below { result < 2 ^ 64 }
{
    let words = power(pointer_bits(m));
    let here = residue(words, n);
    let step = step_of(words, size, count);
    residue(words, summed(back, here, step))
}

/// The number, of a value that is one number made from no address.
fn lone_number(a: &AVal) -> Option<i128>
    ensures { result ≡ value_number a.now }
{
    match a.numbers_alone() {
        None => None,
        Some(numbers) => numbers.as_single(),
    }
}

/// The one number of one number moved by one count.
pub(crate) fn one_moved(back: bool, m: Machine, size: u64, a: &AVal, counts: &AVal) -> Option<Ival>
    ensures { result ≡ one_moved back m size (value_number a.now) (value_number counts.now) }
{
    match (lone_number(a), lone_number(counts)) {
        (Some(n), Some(count)) => {
            Some(Ival::single(moved_number(back, m, size, n, count) as i128))
        }
        _ => None,
    }
}

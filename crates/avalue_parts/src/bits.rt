//! What sets of numbers tell of bits, and sets that are made of bits.
ghost use Rattle.std.specs.Prelude.{◌≡◌, ◌+◌, ◌*◌, ◌<◌, ◌≤◌, ◌^◌, cond, length};
ghost use Rattle.std.specs.List.{list_any};
ghost use Rattle.c_base.specs.Integers.{number_of_bits};
ghost use Rattle.ival_core.specs.Sets.{IsNumber, AllNumbers};
ghost use Rattle.avalue_base.specs.Hues.{bit_in};
ghost use Rattle.avalue_base.specs.Numbers.{bit_numbers, concat_of, has_all_from, has_residue, has_row, part_of, rest_in, word};

use crate::orders::is_none;
use c_base::format::power;
use ival_arith::residues;
use ival_bits::{concat, extract};
use ival_core::{Ival, LIMIT, run_from};

/// A bit, and a number above it.
fn with_low(bit: bool, more: u64) -> u64
    requires { more < 2 ^ 63 }
    ensures { result ≡ cond bit 1 0 + 2 * more }
{
    if bit { 2 * more + 1 } else { 2 * more }
}

/// The number that bits spell, the least one first.
pub fn number_of(bits: &[bool]) -> u64
    requires { length bits.now ≤ 64 }
    ensures { result ≡ number_of_bits bits.now }
{
    let mut number = 0;
    let mut left = bits.len();
    while left > 0 {
        left -= 1;
        number = with_low(bits[left], number);
    }
    number
}

/// The number alone.
pub fn word(n: u64) -> Ival
    ensures { result ≡ word n }
{
    Ival::single(n as i128)
}

/// The numbers of one bit.
pub fn bit_numbers() -> Ival
    ensures { result ≡ bit_numbers }
{
    run_from(0, 1, 1)
}

/// `count` bits of each number, from bit `low` on.
pub fn part(numbers: &Ival, low: u32, count: u32) -> Ival
    requires { low + count ≤ 64 }
    ensures { result ≡ part_of low count numbers.now }
{
    extract(numbers, low, count)
}

/// Numbers of two parts, of which the lower one has `bits` bits and the higher one `more`.
pub fn glued(low: &Ival, bits: u32, high: &Ival, more: u32) -> Ival
    requires { bits + more ≤ 64 }
    ensures { result ≡ concat_of bits low.now more high.now }
{
    let top = extract(high, 0, more);
    concat(low, bits, &top)
}

/// The bit at an index of elements of so many bits, where all numbers have the same bits there.
pub fn known_bit(numbers: &Ival, bits: u64, index: u64) -> Option<bool>
    requires few { bits ≤ 64 }
    requires inside { index < bits }
    ensures { result ≡ bit_in bits index (rest_in bits numbers.now.shape) }
{
    let rests = residues(numbers, power(bits as u32));
    match rests.as_single() {
        None => None,
        Some(_) => Some(extract(&rests, index as u32, 1).contains(1)),
    }
}

/// Whether a number leaves the rest modulo 2 to the `bits`.
pub fn has_residue(numbers: &Ival, bits: u32, rest: u64) -> bool
    requires few { bits ≤ 64 }
    requires rest { rest < 2 ^ bits }
    ensures { result ≡ has_residue numbers.now.shape (2 ^ bits) rest }
{
    let all = Ival::range(-LIMIT, LIMIT, rest as i128, power(bits) as i128);
    let common = all.meet(numbers);
    !is_none(&common)
}

/// Whether `first` and the `more` numbers behind it are numbers of the set.
fn has_all_from(numbers: &Ival, first: i128, more: u128) -> bool
    requires first { IsNumber first }
    requires more { more < 2 ^ 121 }
    ensures { result ≡ has_all_from numbers.now.shape (more + 1) first }
{
    if more as i128 > LIMIT - first {
        return false;
    }
    Ival::range(first, first + more as i128, 0, 1).included(numbers)
}

/// Whether one of the starts and the `more` numbers behind it are numbers of the set.
fn has_run(numbers: &Ival, starts: &[i128], more: u128) -> bool
    requires starts { AllNumbers starts.now }
    requires more { more < 2 ^ 121 }
    ensures { result ≡ list_any (has_all_from numbers.now.shape (more + 1)) starts.now }
{
    for first in starts {
        if has_all_from(numbers, *first, more) {
            return true;
        }
    }
    false
}

/// 2 to the `exponent`.
fn two_to(exponent: u32) -> u128
    requires { exponent ≤ 121 }
    ensures value { result ≡ 2 ^ exponent }
    ensures some { 0 < result }
    ensures small { result ≤ 2 ^ 121 }
{
    1 << exponent
}

/// Whether 2 to the `bits` numbers stand in a row.
pub fn has_row(numbers: &Ival, bits: u64) -> bool
    ensures { result ≡ has_row numbers.now.shape (2 ^ bits) }
{
    if bits > 121 {
        return false;
    }
    let more = two_to(bits as u32) - 1;
    match numbers.numbers() {
        Some(few) => has_run(numbers, few, more),
        None => match numbers.bounds() {
            None => false,
            Some((low, _)) => has_all_from(numbers, low, more),
        },
    }
}

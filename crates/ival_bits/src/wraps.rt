//! The numbers of sets as values of integer types of any width (C11 6.3.1.3).

ghost use Rattle.std.specs.Prelude.{◌≡◌, ◌<◌, ◌≤◌, ◌^◌, ◌-◌, ℤ, pos, neg_ℤ, ◌+ℤ◌};
ghost use Rattle.c_base.specs.Integers.{FitsBits, greatest_of};
ghost use Rattle.c_base.specs.Operators as operators;
ghost use Rattle.ival_core.specs.Sets.{IsNumber, IsLongRun, apart};
ghost use Rattle.ival_core.specs.Ivals.{Holds, IsOnly};
ghost use Rattle.ival_arith.specs.Pieces.{all_changed, clipped};
ghost use Rattle.ival_bits.specs.Wraps.{resigned, run_wrapped, wrapped};

use c_base::format::power;
use ival_arith::{Change, changed, clipped, join, residue, residues};
use ival_core::{Ival, Progression, Shape, run_from};

/// The number as one of the type.
fn reduced(bits: u32, signed: bool, n: i128) -> i128
    requires { (0 < bits) × (bits ≤ 64) }
    ensures value { result ≡ operators.reduced signed bits n }
    ensures fits { FitsBits signed bits result }
{
    let pattern = residue(power(bits), n);
    if signed {
        if power(bits - 1) <= pattern {
            return pattern as i128 - power(bits) as i128;
        }
    }
    pattern as i128
}

/// 2 to the `exponent`, less 1.
pub(crate) fn last(exponent: u32) -> i128
    requires { exponent ≤ 64 }
    ensures { result ≡ pos (2 ^ exponent - 1) }
{
    power(exponent) as i128 - 1
}

pub(crate) fn whole(exponent: u32) -> i128
    requires { exponent ≤ 64 }
    ensures { result ≡ pos (2 ^ exponent) }
{
    power(exponent) as i128
}

pub(crate) fn negative(exponent: u32) -> i128
    requires { exponent ≤ 64 }
    ensures { result ≡ neg_ℤ (pos (2 ^ exponent)) }
{
    -(power(exponent) as i128)
}

/// The greatest number of the type.
fn greatest(bits: u32, signed: bool) -> i128
    requires { (0 < bits) × (bits ≤ 64) }
    ensures { result ≡ greatest_of signed bits }
{
    if signed { last(bits - 1) } else { last(bits) }
}

/// The patterns of negative numbers, as these.
fn negatives(bits: u32, patterns: &Ival) -> Ival
    requires { (0 < bits) × (bits ≤ 64) }
    ensures { result.shape
        ≡ all_changed (Change.Plus (neg_ℤ (pos (2 ^ bits))))
        (clipped (pos (2 ^ (bits - 1))) (pos (2 ^ bits - 1)) patterns.now.shape) }
{
    let high = clipped(patterns, whole(bits - 1), last(bits));
    changed(&high, Change::Plus(negative(bits)))
}

/// What patterns of bits stand for.
fn resigned(bits: u32, signed: bool, patterns: &Ival) -> Ival
    requires { (0 < bits) × (bits ≤ 64) }
    ensures { result.shape ≡ resigned signed bits patterns.now.shape }
{
    if signed {
        let low = clipped(patterns, 0, last(bits - 1));
        join(&low, &negatives(bits, patterns))
    } else {
        patterns.copy()
    }
}

/// Where a run ends that begins at `low` instead.
fn end(low: i128, run: Progression) -> i128
    requires low { IsNumber low }
    requires run { IsLongRun run }
    ensures { result ≡ low +ℤ pos (apart run.low run.high) }
{
    low + run.high.abs_diff(run.low) as i128
}

fn run_wrapped(bits: u32, signed: bool, set: &Ival, run: Progression) -> Ival
    requires bits { (0 < bits) × (bits ≤ 64) }
    requires run { set.now.shape ≡ Shape.Many run }
    requires long { IsLongRun run }
    ensures { result.shape ≡ run_wrapped signed bits run }
{
    let low = reduced(bits, signed, run.low);
    let high = end(low, run);
    if high <= greatest(bits, signed) {
        run_from(low, high, run.stride)
    } else {
        resigned(bits, signed, &residues(set, power(bits)))
    }
}

/// The numbers as values of the type with this sign in `bits` bits (C11 6.3.1.3p2; for a signed type this machine's choice of p3).
pub fn wrap(bits: u32, signed: bool, a: &Ival) -> Ival
    requires { (0 < bits) × (bits ≤ 64) }
    ensures value { result.shape ≡ wrapped signed bits a.now.shape }
    ensures holds { (n : ℤ) → Holds a.now n → Holds result (operators.reduced signed bits n) }
    ensures single { (n : ℤ) → IsOnly a.now n → IsOnly result (operators.reduced signed bits n) }
{
    match a.shape() {
        Shape::Few(_) => resigned(bits, signed, &residues(a, power(bits))),
        Shape::Many(run) => run_wrapped(bits, signed, a, *run),
    }
}

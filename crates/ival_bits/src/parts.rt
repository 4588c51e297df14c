//! Parts of numbers, and numbers made of two parts.

ghost use Rattle.std.specs.Prelude.{◌≡◌, ◌<◌, ◌≤◌, ◌+◌, ◌-◌, ◌^◌, ◌%◌, ◌/◌, ◌==◌, ℤ, pos, ◌<ℤ◌, ◌≤ℤ◌, cond, map};
ghost use Rattle.c_base.specs.Operators as operators;
ghost use Rattle.ival_core.specs.Sets.{IsNumber, AllNumbers, IsLongRun};
ghost use Rattle.ival_core.specs.Ivals.{Holds, IsOnly};
ghost use Rattle.ival_arith.specs.Pieces.{gathered};
ghost use Rattle.ival_bits.specs.Parts.{part, extracted, glued, concatenated};

use c_base::format::power;
use ival_arith::sums::sums;
use ival_arith::{Change, changed, floored, residues};
use ival_core::{Ival, LIMIT};

/// `bits` bits of each number, from bit `low` on.
pub fn extract(a: &Ival, low: u32, bits: u32) -> Ival
    requires { low + bits ≤ 64 }
    ensures value { result.shape ≡ extracted low bits a.now.shape }
    ensures holds { (n : ℤ) → Holds a.now n → Holds result (part low bits n) }
    ensures single { (n : ℤ) → IsOnly a.now n → IsOnly result (part low bits n) }
{
    residues(&floored(a, power(low)), power(bits))
}

/// The numbers whose lowest `low_bits` bits are those of a number of `low`, and whose other bits are a number of `high`.
pub fn concat(low: &Ival, low_bits: u32, high: &Ival) -> Ival
    requires low { low_bits ≤ 64 }
    requires high { (h : ℤ) → Holds high.now h → (pos 0 ≤ℤ h) × (h <ℤ pos (2 ^ (64 - low_bits))) }
    ensures value { result.shape ≡ concatenated low_bits low.now.shape high.now.shape }
    ensures holds { (l h : ℤ) → Holds low.now l → Holds high.now h
        → Holds result (glued low_bits l h) }
    ensures single { (l h : ℤ) → IsOnly low.now l → IsOnly high.now h
        → IsOnly result (glued low_bits l h) }
{
    let rest = residues(low, power(low_bits));
    if low_bits == 64 {
        return rest;
    }
    let top = changed(high, Change::Times(power(low_bits) as u64));
    sums(&top, &rest, -LIMIT, LIMIT)
}

ghost use Rattle.std.specs.Prelude.{◌≡◌, ◌↔◌, ◌+◌, ◌*◌, ◌/◌, ◌^◌, ◌<◌, ◌≤◌, ℤ, pos, ◌+ℤ◌, ◌<ℤ◌, ◌≤ℤ◌};
ghost use Rattle.ival_core.specs.Sets.{IsNumber, Steps, apart, steps_from};
ghost use Rattle.ival_core.specs.Ranges.{IsRange, InRange, first_from, ranged, run_shape};
ghost use Rattle.ival_core.specs.Ivals.{Holds};

use crate::value::{Ival, Progression, Shape};
use arrayvec::ArrayVec;

impl Ival {
    /// The numbers from `lo` to `hi` that leave `rem` modulo `modulus`.
    ///
    /// The remainder of a negative number is not negative either: -1 leaves 3 modulo 4.
    pub fn range(lo: i128, hi: i128, rem: i128, modulus: i128) -> Ival
        requires { IsRange lo hi rem modulus }
        ensures value { result.shape ≡ ranged lo hi rem modulus }
        ensures numbers { (n : ℤ) → Holds result n ↔ InRange lo hi rem modulus n }
    {
        let first = first_at(lo, rem, modulus);
        if hi < first {
            return Ival::empty();
        }
        run_from(first, hi, modulus as u128)
    }
}

/// The first number from `lo` on that leaves `rem`.
fn first_at(lo: i128, rem: i128, modulus: i128) -> i128
    requires low { IsNumber lo }
    requires remains { IsNumber modulus }
    requires rest { pos 0 ≤ℤ rem }
    requires below { rem <ℤ modulus }
    ensures value { result ≡ first_from lo rem modulus }
    ensures above { lo ≤ℤ result }
{
    lo + (rem - lo).rem_euclid(modulus)
}

/// The numbers from `first` to `high` in steps of `stride`.
pub fn run_from(first: i128, high: i128, stride: u128) -> Ival
    requires first { IsNumber first }
    requires high { IsNumber high }
    requires order { first ≤ℤ high }
    requires moves { 0 < stride }
    ensures value { result.shape ≡ run_shape first stride (apart first high / stride) }
    ensures numbers { (n : ℤ) → Holds result n
        ↔ Steps (record { low = first; high = high; stride = stride }) n }
{
    let more = high.abs_diff(first) / stride;
    if more < 8 {
        few_steps(first, stride, more)
    } else {
        many_steps(first, stride, more)
    }
}

/// `first` and the `more` numbers that follow it in steps of `stride`.
fn few_steps(first: i128, stride: u128, more: u128) -> Ival
    requires first { IsNumber first }
    requires last { IsNumber (first +ℤ pos (more * stride)) }
    requires small { more < 8 }
    requires moves { 0 < stride }
    ensures { result.shape ≡ Shape.Few (record { items = steps_from first stride (more + 1) }) }
{
    let mut few = ArrayVec::new();
    for k in 0..more + 1 {
        few.push(first + (k * stride) as i128);
    }
    Ival {
        shape: Shape::Few(few),
    }
}

/// The same numbers, where they are more than 8.
fn many_steps(first: i128, stride: u128, more: u128) -> Ival
    requires first { IsNumber first }
    requires last { IsNumber (first +ℤ pos (more * stride)) }
    requires long { 8 ≤ more }
    requires moves { 0 < stride }
    ensures { result.shape
        ≡ Shape.Many (record {
          low = first;
          high = first +ℤ pos (more * stride);
          stride = stride;
        }) }
{
    Ival {
        shape: Shape::Many(Progression {
            low: first,
            high: first + (more * stride) as i128,
            stride,
        }),
    }
}

//! Sums of the numbers of two sets.

ghost use Rattle.std.specs.Prelude.{◌≡◌, ◌<◌, ◌≤◌, ◌^◌, ◌*◌, ℤ, pos, ◌+ℤ◌};
ghost use Rattle.ival_core.specs.Sets.{IsNumber, AllNumbers, IsLongRun, Among, Steps, steps_from};
ghost use Rattle.ival_core.specs.Ivals.{Holds};
ghost use Rattle.ival_arith.specs.Pieces.{none};
ghost use Rattle.ival_arith.specs.Sums.{sums_onto, sum_hull, starts_low, ends_high, firsts, lasts, run_sums, sums};

use crate::pieces::{Change, changed, clipped, join, run_clipped};
use ival_core::{Ival, Progression, Shape, gcd, run_from};

/// The sums of the numbers of `set` and each of `others` that lie from `lo` to `hi`.
fn sums_with(set: &Ival, others: &[i128], lo: i128, hi: i128) -> Ival
    requires lo { IsNumber lo }
    requires hi { IsNumber hi }
    requires sums { (x y : ℤ) → Holds set.now x → Among others.now y → IsNumber (x +ℤ y) }
    ensures { result.shape ≡ sums_onto lo hi none set.now.shape others.now }
{
    let mut all = Ival::empty();
    for other in others {
        let moved = changed(set, Change::Plus(*other));
        let cut = clipped(&moved, lo, hi);
        all = join(&all, &cut);
    }
    all
}

/// Only the first 8 numbers of each run have sums up to `hi`, and none is below `lo`.
fn starts_low(p: Progression, q: Progression, lo: i128, hi: i128) -> bool
    requires left { IsLongRun p }
    requires right { IsLongRun q }
    ensures { result ≡ starts_low lo hi p q }
{
    let first = p.low + q.low;
    if first < lo {
        return false;
    }
    if first + (8 * p.stride) as i128 <= hi {
        return false;
    }
    hi < first + (8 * q.stride) as i128
}

/// Only the last 8 numbers of each run have sums from `lo` on, and none is above `hi`.
fn ends_high(p: Progression, q: Progression, lo: i128, hi: i128) -> bool
    requires left { IsLongRun p }
    requires right { IsLongRun q }
    requires lo { IsNumber lo }
    ensures { result ≡ ends_high lo hi p q }
{
    let last = p.high + q.high;
    if hi < last {
        return false;
    }
    if lo + (8 * p.stride) as i128 <= last {
        return false;
    }
    last < lo + (8 * q.stride) as i128
}

/// The 8 numbers from `first` on in steps of `stride`.
pub(crate) fn eight(first: i128, stride: u128) -> Ival
    requires first { IsNumber first }
    requires last { IsNumber (first +ℤ pos (7 * stride)) }
    requires moves { 0 < stride }
    ensures { result.shape ≡ Shape.Few (record { items = steps_from first stride 8 }) }
{
    run_from(first, first + (7 * stride) as i128, stride)
}

/// The least run round all sums of two runs.
fn sum_hull(p: Progression, q: Progression) -> Progression
    requires left { IsLongRun p }
    requires right { IsLongRun q }
    ensures { result ≡ sum_hull p q }
{
    Progression {
        low: p.low + q.low,
        high: p.high + q.high,
        stride: gcd(p.stride, q.stride),
    }
}

/// The sums of two small sets.
fn few_sums(set: &Ival, others: &Ival, lo: i128, hi: i128) -> Ival
    requires lo { IsNumber lo }
    requires hi { IsNumber hi }
    requires sums { (x y : ℤ) → Holds set.now x → Holds others.now y → IsNumber (x +ℤ y) }
    ensures { (few : _) → others.now.shape ≡ Shape.Few few → result.shape
        ≡ sums_onto lo hi none set.now.shape few.items }
{
    match others.shape() {
        Shape::Few(few) => sums_with(set, few.as_slice(), lo, hi),
        Shape::Many(_) => Ival::empty(),
    }
}

fn run_sums(p: Progression, q: Progression, lo: i128, hi: i128) -> Ival
    requires left { IsLongRun p }
    requires right { IsLongRun q }
    requires lo { IsNumber lo }
    requires hi { IsNumber hi }
    requires sums { (x y : ℤ) → Steps p x → Steps q y → IsNumber (x +ℤ y) }
    ensures { result.shape ≡ run_sums lo hi p q }
{
    if starts_low(p, q, lo, hi) {
        return few_sums(&eight(p.low, p.stride), &eight(q.low, q.stride), lo, hi);
    }
    if ends_high(p, q, lo, hi) {
        let left = eight(p.high - (7 * p.stride) as i128, p.stride);
        let right = eight(q.high - (7 * q.stride) as i128, q.stride);
        return few_sums(&left, &right, lo, hi);
    }
    run_clipped(sum_hull(p, q), lo, hi)
}

/// The sums of the numbers of two sets that lie from `lo` to `hi`.
pub fn sums(a: &Ival, b: &Ival, lo: i128, hi: i128) -> Ival
    requires lo { IsNumber lo }
    requires hi { IsNumber hi }
    requires sums { (x y : ℤ) → Holds a.now x → Holds b.now y → IsNumber (x +ℤ y) }
    ensures { result.shape ≡ sums lo hi a.now.shape b.now.shape }
{
    match b.shape() {
        Shape::Few(few) => sums_with(a, few.as_slice(), lo, hi),
        Shape::Many(q) => sums_with_run(a, b, *q, lo, hi),
    }
}

/// `b` holds the run `q`.
fn sums_with_run(a: &Ival, b: &Ival, q: Progression, lo: i128, hi: i128) -> Ival
    requires run { b.now.shape ≡ Shape.Many q }
    requires lo { IsNumber lo }
    requires hi { IsNumber hi }
    requires sums { (x y : ℤ) → Holds a.now x → Holds b.now y → IsNumber (x +ℤ y) }
    ensures { result.shape ≡ sums lo hi a.now.shape b.now.shape }
{
    match a.shape() {
        Shape::Few(few) => sums_with(b, few.as_slice(), lo, hi),
        Shape::Many(p) => run_sums(*p, q, lo, hi),
    }
}

ghost use Rattle.std.specs.Prelude.{◌≡◌, ◌⊎◌, ◌↔◌, ◌+◌, ◌*◌, ◌%◌, ◌^◌, ◌<◌, ◌≤◌, ℕ, ℤ, ◌<ℤ◌, ◌≤ℤ◌, IfSome, IfNone};
ghost use Rattle.ival_core.specs.Sets.{Among, IsSmallSet, IsNumber, Steps, IsLongRun};
ghost use Rattle.ival_core.specs.Solutions.{IsGap, IsFirstCommon, IsLeastSolution, MeetsBoth, lifted_count};
ghost use Rattle.ival_core.specs.Ivals.{Holds, IsMeet};

use crate::hull::gcd;
use crate::steps::run_from;
use crate::value::{Ival, Progression, Shape};
use arrayvec::ArrayVec;

impl Ival {
    /// The numbers that both hold.
    pub fn meet(&self, o: &Ival) -> Ival
        ensures { IsMeet self.now o.now result }
    {
        match &self.shape {
            Shape::Few(few) => common(few.as_slice(), o),
            Shape::Many(run) => meet_run(*run, o),
        }
    }
}

/// The numbers among `numbers` that `set` holds.
fn common(numbers: &[i128], set: &Ival) -> Ival
    requires { IsSmallSet numbers.now }
    ensures { (n : ℤ) → Holds result n ↔ (Among numbers.now n × Holds set.now n) }
{
    let mut few = ArrayVec::new();
    for number in numbers {
        if set.contains(*number) {
            few.push(*number);
        }
    }
    Ival {
        shape: Shape::Few(few),
    }
}

fn meet_run(run: Progression, set: &Ival) -> Ival
    requires { IsLongRun run }
    ensures { (n : ℤ) → Holds result n ↔ (Steps run n × Holds set.now n) }
{
    match &set.shape {
        Shape::Few(few) => common_with_run(few.as_slice(), run),
        Shape::Many(other) => meet_runs(run, *other),
    }
}

fn common_with_run(numbers: &[i128], run: Progression) -> Ival
    requires few { IsSmallSet numbers.now }
    requires run { IsLongRun run }
    ensures { (n : ℤ) → Holds result n ↔ (Steps run n × Among numbers.now n) }
{
    let whole = Ival {
        shape: Shape::Many(run),
    };
    common(numbers, &whole)
}

fn meet_runs(first: Progression, second: Progression) -> Ival
    requires first { IsLongRun first }
    requires second { IsLongRun second }
    ensures { (n : ℤ) → Holds result n ↔ (Steps first n × Steps second n) }
{
    if first.low < second.low {
        meet_from(second, first)
    } else {
        meet_from(first, second)
    }
}

/// `upper` starts at or above `lower`.
fn meet_from(upper: Progression, lower: Progression) -> Ival
    requires upper { IsLongRun upper }
    requires lower { IsLongRun lower }
    requires order { lower.low ≤ℤ upper.low }
    ensures { (n : ℤ) → Holds result n ↔ (Steps upper n × Steps lower n) }
{
    let high = upper.high.min(lower.high);
    if high < upper.low {
        return Ival::empty();
    }
    match first_common(upper, lower, high) {
        None => Ival::empty(),
        Some(first) => cycle(first, high, upper.stride, lower.stride),
    }
}

/// The least number up to `high` at which steps from both starts meet.
fn first_common(upper: Progression, lower: Progression, high: i128) -> Option<i128>
    requires upper { IsLongRun upper }
    requires lower { IsLongRun lower }
    requires order { lower.low ≤ℤ upper.low }
    requires reach { upper.low ≤ℤ high }
    requires high { IsNumber high }
    ensures some { IfSome result (λ first. IsFirstCommon upper lower high first) }
    ensures none { IfNone result ((n : ℤ) → n ≤ℤ high → Steps upper n → Steps lower n → ⊥) }
{
    let gap = gap_to(upper.low.abs_diff(lower.low), lower.stride);
    match solve(upper.stride, gap, lower.stride, high.abs_diff(upper.low)) {
        None => None,
        Some(count) => Some(upper.low + (upper.stride * count) as i128),
    }
}

/// The numbers from `first` to `high` whose distance from `first` both strides divide.
fn cycle(first: i128, high: i128, one: u128, other: u128) -> Ival
    requires first { IsNumber first }
    requires high { IsNumber high }
    requires order { first ≤ℤ high }
    requires one { (0 < one) × (one < 2 ^ 122) }
    requires other { (0 < other) × (other < 2 ^ 122) }
    ensures { (n : ℤ) → Holds result n ↔ MeetsBoth first high one other n }
{
    let part = one / gcd(one, other);
    if high.abs_diff(first) / other < part {
        Ival::single(first)
    } else {
        run_from(first, high, part * other)
    }
}

/// The least `count` at which `step * count` leaves `rest` modulo `modulus`.
///
/// `None` where no such `step * count` is at most `bound`. No product passes `bound`, so none
/// wraps.
fn solve(step: u128, rest: u128, modulus: u128, bound: u128) -> Option<u128>
    requires step { (0 < step) × (step < 2 ^ 122) }
    requires modulus { modulus < 2 ^ 122 }
    requires rest { rest < modulus }
    requires bound { bound < 2 ^ 122 }
    ensures { IsLeastSolution step rest modulus bound result }
{
    if rest == 0 {
        return Some(0);
    }
    let less = step % modulus;
    if less == 0 {
        return None;
    }
    match solve(modulus, gap_to(rest, less), less, bound) {
        None => None,
        Some(turns) => lifted(step, rest, modulus, bound, turns),
    }
}

/// From the least number of `turns` round `modulus` to the least `count` of steps.
fn lifted(step: u128, rest: u128, modulus: u128, bound: u128, turns: u128) -> Option<u128>
    requires modulus { 0 < modulus }
    requires step { 0 < step % modulus }
    requires turns { modulus * turns ≤ bound }
    requires rest { rest < 2 ^ 122 }
    requires bound { bound < 2 ^ 122 }
    ensures { result ≡ lifted_count step rest modulus bound turns }
{
    let count = (rest + modulus * turns) / (step % modulus);
    if bound / step < count {
        None
    } else {
        Some(count)
    }
}

/// What `rest` lacks to a multiple of `modulus`.
fn gap_to(rest: u128, modulus: u128) -> u128
    requires { 0 < modulus }
    ensures { IsGap rest result modulus }
{
    let over = rest % modulus;
    if over == 0 { 0 } else { modulus - over }
}

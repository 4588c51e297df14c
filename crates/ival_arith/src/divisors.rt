//! Quotients and remainders of single numbers by the numbers of long sets (C11 6.5.5).

ghost use Rattle.std.specs.Prelude.{◌≡◌, ◌<◌, ◌≤◌, ◌^◌, ℤ, Some};
ghost use Rattle.c_base.specs.Integers.{FitsBits, FitsKind};
ghost use Rattle.ival_core.specs.Sets.{IsNumber, IsLongRun, Among, Steps, steps_from};
ghost use Rattle.ival_core.specs.Ivals.{Holds};
ghost use Rattle.ival_core.specs.Joined.{with_numbers};
ghost use Rattle.ival_core.specs.Views.{bounds_of};
ghost use Rattle.ival_arith.specs.Exact.{shape_option};
ghost use Rattle.ival_arith.specs.Pieces.{none};
ghost use Rattle.ival_arith.specs.Promises.{InType};
ghost use Rattle.ival_arith.specs.Values.{op_of, is_far, far_part, with_far, same_quotients, same_results, few_alone, going_on, number_at, with_outcome, with_divisors, number_divided, numbers_divided};

use crate::divisions::Part;
use crate::kinds::either;
use crate::pieces::{clipped, with};
use crate::values::{with_result, with_row};
use c_base::format::Format;
use c_base::operators::{BinOp, apply_binary};
use ival_core::{Ival, Progression, Shape};

/// How many divisors are tried, at most, once there are more than 8 results.
const MOST: u128 = 64;

fn op_of(part: Part) -> BinOp
    ensures { result ≡ op_of part }
{
    match part {
        Part::Quotient => BinOp::Div,
        Part::Remainder => BinOp::Rem,
    }
}

/// A number of the set is farther from 0 than `x`.
fn is_far(x: i128, set: &Ival) -> bool
    requires { IsNumber x }
    ensures { result ≡ is_far x (bounds_of set.now.shape) }
{
    let Some((low, high)) = set.bounds() else {
        return false;
    };
    let size = x.unsigned_abs() as i128;
    either(low < -size, size < high)
}

/// What `x` gives, divided by such a number.
fn far_part(part: Part, x: i128) -> i128
    requires { IsNumber x }
    ensures value { result ≡ far_part part x }
    ensures number { IsNumber result }
{
    match part {
        Part::Quotient => 0,
        Part::Remainder => x,
    }
}

fn with_far(set: &Ival, part: Part, x: i128, divisors: &Ival) -> Ival
    requires { IsNumber x }
    ensures { result.shape ≡ with_far part x divisors.now.shape set.now.shape }
{
    if is_far(x, divisors) {
        with(set, far_part(part, x))
    } else {
        set.copy()
    }
}

/// How many steps of `stride` up from `y` on keep the quotient of `y`, in a number of this size.
fn same_quotients(size: u128, y: i128, stride: u128) -> u128
    requires moves { 0 < stride }
    requires number { IsNumber y }
    requires size { size ≤ 2 ^ 120 }
    ensures value { result ≡ same_quotients size y stride }
    ensures small { result ≤ 2 ^ 120 }
{
    if y == 0 {
        return 0;
    }
    let divisor = y.unsigned_abs();
    let quotient = size / divisor;
    if y < 0 {
        divisor.saturating_sub(size / (quotient + 1) + 1) / stride
    } else {
        (size / quotient.max(1)).saturating_sub(divisor) / stride
    }
}

/// How many steps of `stride` up from `y` on are passed over, since they give what `y` gives.
fn same_results(part: Part, x: i128, y: i128, stride: u128) -> u128
    requires moves { 0 < stride }
    requires left { IsNumber x }
    requires right { IsNumber y }
    ensures value { result ≡ same_results part x y stride }
    ensures small { result ≤ 2 ^ 120 }
{
    match part {
        Part::Quotient => same_quotients(x.unsigned_abs(), y, stride),
        Part::Remainder => 0,
    }
}

/// A set, unless it has more than 8 numbers.
fn few_alone(set: &Ival) -> Option<Ival>
    ensures { shape_option result ≡ few_alone set.now.shape }
{
    match set.shape() {
        Shape::Few(_) => Some(set.copy()),
        Shape::Many(_) => None,
    }
}

/// A set, unless it has more than 8 numbers while many are left to try.
fn going_on(set: &Ival, left: u128) -> Option<Ival>
    ensures { shape_option result ≡ going_on left set.now.shape }
{
    if left < MOST {
        Some(set.copy())
    } else {
        few_alone(set)
    }
}

/// The number at a place of a run.
fn number_at(run: Progression, at: u128) -> i128
    requires low { IsNumber run.low }
    requires number { IsNumber (number_at run at) }
    ensures { result ≡ number_at run at }
{
    run.low + (at * run.stride) as i128
}

/// With the result of `x` with `y`, if there is one, unless that is too many while many are left.
fn with_outcome(
    set: &Ival,
    part: Part,
    format: Format,
    x: i128,
    y: i128,
    left: u128,
) -> Option<Ival>
    requires left { FitsBits format.signed format.width x }
    requires right { FitsBits format.signed format.width y }
    ensures { shape_option result
        ≡ going_on left (with_outcome part format.signed format.width x y set.now.shape) }
{
    let outcome = apply_binary(op_of(part), format.kind, format.machine, x, y);
    going_on(&with_result(set.copy(), outcome), left)
}

/// With the results of `x` with the numbers of a run, unless they are too many while many are left.
fn with_places(set: &Ival, part: Part, format: Format, x: i128, run: Progression) -> Option<Ival>
    requires left { FitsBits format.signed format.width x }
    requires long { IsLongRun run }
    requires right { (y : ℤ) → Steps run y → FitsBits format.signed format.width y }
    ensures { shape_option result
        ≡ with_divisors part format.signed format.width x (Shape.Many run) set.now.shape }
{
    let count = run.high.abs_diff(run.low) / run.stride + 1;
    let mut all = set.copy();
    let mut at = 0;
    'trying: while at < count {
        let y = number_at(run, at);
        match with_outcome(&all, part, format, x, y, count - at - 1) {
            None => return None,
            Some(more) => all = more,
        }
        at += 1 + same_results(part, x, y, run.stride);
    }
    Some(all)
}

/// With the results of `x` with each number of another set, unless a long set gives more than 8.
#[tactic(auto, unfolding(crate::specs::Values::with_divisors))]
fn with_divisors(set: &Ival, part: Part, format: Format, x: i128, near: &Ival) -> Option<Ival>
    requires left { FitsBits format.signed format.width x }
    requires right { InType format.signed format.width near.now }
    ensures { shape_option result
        ≡ with_divisors part format.signed format.width x near.now.shape set.now.shape }
{
    match near.shape() {
        Shape::Few(few) => Some(with_row(set, op_of(part), format, x, few.as_slice())),
        Shape::Many(run) => with_places(set, part, format, x, *run),
    }
}

/// With the quotients or remainders of `x` by the numbers of a set, unless more than 8 are found.
#[tactic(auto, unfolding(crate::specs::Values::number_divided))]
fn number_divided(set: &Ival, part: Part, format: Format, x: i128, divisors: &Ival) -> Option<Ival>
    requires left { FitsBits format.signed format.width x }
    requires right { InType format.signed format.width divisors.now }
    ensures { shape_option result
        ≡ number_divided part format.signed format.width divisors.now.shape set.now.shape x }
{
    let size = x.unsigned_abs() as i128;
    let near = clipped(divisors, -size, size);
    let all = with_far(set, part, x, divisors);
    with_divisors(&all, part, format, x, &near)
}

/// The quotients or remainders of numbers by those of a set, unless more than 8 are found.
pub(crate) fn numbers_divided(
    part: Part,
    format: Format,
    numbers: &[i128],
    divisors: &Ival,
) -> Option<Ival>
    requires left { (x : ℤ) → Among numbers.now x → FitsBits format.signed format.width x }
    requires right { InType format.signed format.width divisors.now }
    ensures { shape_option result
        ≡ numbers_divided part format.signed format.width divisors.now.shape
        (Some none) numbers.now }
{
    let mut all = Ival::empty();
    for x in numbers {
        match number_divided(&all, part, format, *x, divisors) {
            None => return None,
            Some(more) => all = more,
        }
    }
    Some(all)
}

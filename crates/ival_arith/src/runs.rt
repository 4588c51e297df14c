//! Products of two long sets in a type (C11 6.5.5).

ghost use Rattle.std.specs.Prelude.{◌≡◌, ◌<◌, ◌≤◌, ◌^◌, ◌*◌, ℤ, true};
ghost use Rattle.c_base.specs.Integers.{FitsBits};
ghost use Rattle.ival_core.specs.Sets.{IsLongRun, Among, Steps, steps_from};
ghost use Rattle.ival_core.specs.Ivals.{Holds};
ghost use Rattle.ival_arith.specs.Exact.{shape_option};
ghost use Rattle.ival_arith.specs.Promises.{InType};
ghost use Rattle.ival_arith.specs.Values.{nearest, least_factor, lines_onto, set_lines, zero_products, near_products, rows, few_value, repeats, all_repeat, IsShortRun};
ghost use Rattle.ival_arith.specs.Pieces.{gathered};
ghost use Rattle.ival_arith.specs.Sums.{firsts};

use crate::arithmetic::both;
use crate::kinds::holds_number;
use crate::pieces::{clipped, join};
use crate::products::{line, lines_onto};
use crate::sums::eight;
use crate::values::few_results;
use c_base::format::{Format, power};
use c_base::operators::BinOp;
use ival_core::{Ival, LIMIT, Progression, Shape};

/// How many factors that are not far from 0 are tried, at most.
const MOST: u128 = 64;

/// How far from 0 the nearest number that is not 0 is, of the first above 0 and the last below it.
fn nearest(up: Option<(i128, i128)>, down: Option<(i128, i128)>) -> u128
    ensures { result ≡ nearest up down }
{
    match up {
        None => match down {
            None => 1,
            Some((_, last)) => last.unsigned_abs(),
        },
        Some((first, _)) => match down {
            None => first.unsigned_abs(),
            Some((_, last)) => first.unsigned_abs().min(last.unsigned_abs()),
        },
    }
}

#[tactic(auto, unfolding(crate::specs::Values::least_factor))]
pub(crate) fn least_factor(set: &Ival) -> u128
    ensures value { result ≡ least_factor set.now.shape }
    ensures some { 0 < result }
{
    nearest(
        clipped(set, 1, LIMIT).bounds(),
        clipped(set, -LIMIT, -1).bounds(),
    )
}

/// With the products of the numbers of `run` with the first `count` numbers of another run.
fn step_lines(
    set: &Ival,
    format: Format,
    run: Progression,
    factors: Progression,
    count: u32,
) -> Ival
    requires run { IsLongRun run }
    requires low { FitsBits format.signed format.width run.low }
    requires high { FitsBits format.signed format.width run.high }
    requires factors { (y : ℤ) → Among (steps_from factors.low factors.stride count) y
        → FitsBits format.signed format.width y }
    requires small { factors.stride ≤ 2 ^ 122 }
    ensures { result.shape
        ≡ lines_onto format.signed format.width set.now.shape run
        (steps_from factors.low factors.stride count) }
{
    if count == 0 {
        return set.copy();
    }
    let more = join(set, &line(format, run, factors.low));
    let rest = Progression {
        low: factors.low + factors.stride as i128,
        high: factors.high,
        stride: factors.stride,
    };
    step_lines(&more, format, run, rest, count - 1)
}

/// The same of all numbers of the other run, if they are few enough.
fn run_lines(set: &Ival, format: Format, run: Progression, factors: Progression) -> Option<Ival>
    requires run { IsLongRun run }
    requires low { FitsBits format.signed format.width run.low }
    requires high { FitsBits format.signed format.width run.high }
    requires long { IsLongRun factors }
    requires factors { (y : ℤ) → Steps factors y → FitsBits format.signed format.width y }
    ensures { shape_option result
        ≡ set_lines format.signed format.width set.now.shape run (Shape.Many factors) }
{
    let more = factors.high.abs_diff(factors.low) / factors.stride;
    if more < MOST {
        Some(step_lines(set, format, run, factors, more as u32 + 1))
    } else {
        None
    }
}

/// With the products of the numbers of a run with each number of a set, if these are few enough.
#[tactic(auto, unfolding(crate::specs::Values::set_lines))]
fn set_lines(set: &Ival, format: Format, run: Progression, factors: &Ival) -> Option<Ival>
    requires run { IsLongRun run }
    requires low { FitsBits format.signed format.width run.low }
    requires high { FitsBits format.signed format.width run.high }
    requires factors { InType format.signed format.width factors.now }
    ensures { shape_option result
        ≡ set_lines format.signed format.width set.now.shape run factors.now.shape }
{
    match factors.shape() {
        Shape::Few(few) => Some(lines_onto(set, format, run, few.as_slice())),
        Shape::Many(other) => run_lines(set, format, run, *other),
    }
}

/// The products with 0.
fn zero_products(set: &Ival) -> Ival
    ensures { result.shape ≡ zero_products set.now.shape }
{
    if holds_number(set, 0) {
        Ival::single(0)
    } else {
        Ival::empty()
    }
}

/// Products in a signed type, if few numbers of `a` are near enough to 0 to have one.
#[tactic(auto, unfolding(crate::specs::Values::near_products))]
pub(crate) fn near_products(format: Format, a: &Ival, b: &Ival, run: Progression) -> Option<Ival>
    requires signed { format.signed ≡ true }
    requires run { b.now.shape ≡ Shape.Many run }
    requires left { InType format.signed format.width a.now }
    requires right { InType format.signed format.width b.now }
    ensures { shape_option result ≡ near_products format.width a.now.shape run }
{
    let far = (power(format.width - 1) / least_factor(b)) as i128;
    let near = clipped(a, -far, far);
    set_lines(&zero_products(b), format, run, &near)
}

/// 8 steps of a run make no difference to its products with this factor modulo `m`.
fn repeats(m: u128, stride: u128, factor: u128) -> bool
    requires modulus { 0 < m }
    requires stride { 8 * stride < 2 ^ 64 }
    requires factor { factor < 2 ^ 64 }
    ensures { result ≡ repeats m stride factor }
{
    8 * stride * factor % m == 0
}

/// Nor to those with any number of the other run.
pub(crate) fn all_repeat(width: u32, p: Progression, q: Progression) -> bool
    requires width { width ≤ 64 }
    requires left { IsShortRun p }
    requires right { IsShortRun q }
    ensures { result ≡ all_repeat (2 ^ width) p q }
{
    let m = power(width);
    let x = p.low.unsigned_abs();
    let y = q.low.unsigned_abs();
    if both(repeats(m, p.stride, y), repeats(m, p.stride, y + q.stride)) {
        both(repeats(m, q.stride, x), repeats(m, q.stride, x + p.stride))
    } else {
        false
    }
}

/// Products of few numbers.
fn few_products(format: Format, a: &Ival, b: &Ival) -> Ival
    requires left { InType format.signed format.width a.now }
    requires right { InType format.signed format.width b.now }
    ensures { result.shape
        ≡ few_value BinOp.Mul format.signed format.width a.now.shape b.now.shape }
{
    match a.shape() {
        Shape::Few(few) => few_with(format, a, few.as_slice(), b),
        Shape::Many(_) => Ival::empty(),
    }
}

/// `a` has these numbers.
fn few_with(format: Format, a: &Ival, numbers: &[i128], b: &Ival) -> Ival
    requires few { a.now.shape ≡ Shape.Few (record { items = numbers.now }) }
    requires left { InType format.signed format.width a.now }
    requires right { InType format.signed format.width b.now }
    ensures { result.shape
        ≡ few_value BinOp.Mul format.signed format.width a.now.shape b.now.shape }
{
    match b.shape() {
        Shape::Few(few) => few_results(BinOp::Mul, format, numbers, few.as_slice()),
        Shape::Many(_) => Ival::empty(),
    }
}

/// Products of the first 8 numbers of two runs.
pub(crate) fn first_products(format: Format, p: Progression, q: Progression) -> Ival
    requires left { IsLongRun p }
    requires right { IsLongRun q }
    requires first { (x : ℤ) → Steps p x → FitsBits format.signed format.width x }
    requires second { (y : ℤ) → Steps q y → FitsBits format.signed format.width y }
    ensures { result.shape
        ≡ gathered (rows BinOp.Mul format.signed format.width (firsts p) (firsts q)) }
{
    few_products(format, &eight(p.low, p.stride), &eight(q.low, q.stride))
}

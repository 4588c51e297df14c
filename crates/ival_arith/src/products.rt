//! Products of the numbers of two sets of a type.

ghost use Rattle.std.specs.Prelude.{◌≡◌, ◌<◌, ◌≤◌, ◌^◌, ◌*◌, ℤ, pos, ◌≤ℤ◌, ◌<ℤ◌, false, cond, neg_ℤ, true, unsigned_abs};
ghost use Rattle.c_base.specs.Integers.{FitsBits};
ghost use Rattle.ival_core.specs.Sets.{IsNumber, IsLongRun, Among, Steps};
ghost use Rattle.ival_core.specs.Ivals.{Holds};
ghost use Rattle.ival_arith.specs.Pieces.{none, run_negated};
ghost use Rattle.ival_arith.specs.Values.{product_line, line, lines_onto, multiplied, spread, extent, is_natural};
ghost use Rattle.ival_core.specs.Views.{bounds_of};

use crate::pieces::{Change, changed, clipped, cycle, join, run_negated};
use c_base::format::{Format, power};
use ival_core::{Ival, Progression, Shape, run_from};

/// The numbers of a run, or these negated.
fn turned(run: Progression, negative: bool) -> Ival
    requires { IsLongRun run }
    ensures { result.shape ≡ cond negative (run_negated run) (Shape.Many run) }
{
    if negative {
        run_negated(run)
    } else {
        run_from(run.low, run.high, run.stride)
    }
}

/// The products of the numbers of a run with `y` that lie from `-below` to `above`.
pub fn product_line(below: u128, above: u128, run: Progression, y: i128) -> Ival
    requires run { IsLongRun run }
    requires below { below ≤ 2 ^ 64 }
    requires above { above ≤ 2 ^ 64 }
    requires factor { unsigned_abs y < 2 ^ 64 }
    ensures { result.shape ≡ product_line below above run y }
{
    if y == 0 {
        return Ival::single(0);
    }
    let size = y.unsigned_abs();
    let all = turned(run, y < 0);
    let cut = clipped(&all, -((below / size) as i128), (above / size) as i128);
    changed(&cut, Change::Times(size as u64))
}

/// The products of the numbers of a run with `y`, modulo 2 to the `width`.
fn product_cycle(width: u32, run: Progression, y: i128) -> Ival
    requires width { width ≤ 64 }
    requires run { IsLongRun run }
    requires low { pos 0 ≤ℤ run.low }
    requires high { run.high <ℤ pos (2 ^ 64) }
    requires factor { pos 0 ≤ℤ y }
    requires small { y <ℤ pos (2 ^ 64) }
    ensures { result.shape ≡ line false width run y }
{
    let m = power(width);
    let more = run.high.abs_diff(run.low) / run.stride;
    let factor = y as u128;
    let first = run.low as u128 * factor;
    cycle(m, first % m, run.stride * factor % m, more)
}

/// The products of the numbers of a run with `y`, in a type.
pub(crate) fn line(format: Format, run: Progression, y: i128) -> Ival
    requires run { IsLongRun run }
    requires low { FitsBits format.signed format.width run.low }
    requires high { FitsBits format.signed format.width run.high }
    requires factor { FitsBits format.signed format.width y }
    ensures { result.shape ≡ line format.signed format.width run y }
{
    if format.signed {
        let half = power(format.width - 1);
        product_line(half, half - 1, run, y)
    } else {
        product_cycle(format.width, run, y)
    }
}

/// With the products of the numbers of a run with each of `others`, in a type.
pub(crate) fn lines_onto(set: &Ival, format: Format, run: Progression, others: &[i128]) -> Ival
    requires run { IsLongRun run }
    requires low { FitsBits format.signed format.width run.low }
    requires high { FitsBits format.signed format.width run.high }
    requires factors { (y : ℤ) → Among others.now y → FitsBits format.signed format.width y }
    ensures { result.shape ≡ lines_onto format.signed format.width set.now.shape run others.now }
{
    let mut all = set.copy();
    for other in others {
        all = join(&all, &line(format, run, *other));
    }
    all
}

/// The products of the numbers of a run with each of `others`, in a type.
pub(crate) fn lines(format: Format, run: Progression, others: &[i128]) -> Ival
    requires run { IsLongRun run }
    requires low { FitsBits format.signed format.width run.low }
    requires high { FitsBits format.signed format.width run.high }
    requires factors { (y : ℤ) → Among others.now y → FitsBits format.signed format.width y }
    ensures { result.shape ≡ lines_onto format.signed format.width none run others.now }
{
    lines_onto(&Ival::empty(), format, run, others)
}

pub(crate) fn low_of(natural: bool, m: u128) -> i128
    requires { m < 2 ^ 127 }
    ensures value { result ≡ cond natural (pos 0) (neg_ℤ (pos m)) }
    ensures below { result ≤ℤ pos 0 }
{
    if natural { 0 } else { -(m as i128) }
}

/// The numbers of the type that are at most `m` away from 0, without the negative ones where there are none.
pub(crate) fn spread(format: Format, natural: bool, m: u128) -> Ival
    requires { m < 2 ^ 127 }
    ensures { result.shape ≡ spread format.signed format.width natural m }
{
    run_from(
        format.least().max(low_of(natural, m)),
        format.greatest().min(m as i128),
        1,
    )
}

/// How far the numbers of a set are from 0.
pub(crate) fn extent(set: &Ival) -> u128
    ensures { result ≡ extent (bounds_of set.now.shape) }
{
    match set.bounds() {
        None => 0,
        Some((low, high)) => low.unsigned_abs().max(high.unsigned_abs()),
    }
}

/// No number of the set is negative.
pub(crate) fn is_natural(set: &Ival) -> bool
    ensures { result ≡ is_natural (bounds_of set.now.shape) }
{
    match set.bounds() {
        None => true,
        Some((low, _)) => 0 <= low,
    }
}

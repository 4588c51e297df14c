//! The numbers of sets, each divided by a positive number and rounded down.

ghost use Rattle.std.specs.Prelude.{◌≡◌, ◌<◌, ◌≤◌, ◌^◌, ◌%◌, ◌/◌, ◌==◌, cond, map};
ghost use Rattle.c_base.specs.Operators as operators;
ghost use Rattle.ival_core.specs.Sets.{IsNumber, AllNumbers, IsLongRun};
ghost use Rattle.ival_arith.specs.Pieces.{gathered};
ghost use Rattle.ival_arith.specs.Floors.{run_floored, floored};

use crate::pieces::with;
use ival_core::{Ival, Progression, Shape, run_from};

/// The greatest number that is not above `n / d`.
fn floor(n: i128, d: u128) -> i128
    requires number { IsNumber n }
    requires divisor { (0 < d) × (d ≤ 2 ^ 64) }
    ensures value { result ≡ operators.floor n d }
    ensures number { IsNumber result }
{
    n.div_euclid(d as i128)
}

fn few_floored(few: &[i128], d: u128) -> Ival
    requires numbers { AllNumbers few.now }
    requires divisor { (0 < d) × (d ≤ 2 ^ 64) }
    ensures { result.shape ≡ gathered (map (λ n. operators.floor n d) few.now) }
{
    let mut all = Ival::empty();
    for n in few {
        all = with(&all, floor(*n, d));
    }
    all
}

/// How far apart the quotients of the numbers of a run are, where they are so evenly, or else 1.
fn step(stride: u128, d: u128) -> u128
    requires moves { 0 < stride }
    requires divisor { 0 < d }
    ensures value { result ≡ cond (stride % d == 0) (stride / d) 1 }
    ensures moves { 0 < result }
{
    if stride % d == 0 { stride / d } else { 1 }
}

fn run_floored(run: Progression, d: u128) -> Ival
    requires run { IsLongRun run }
    requires divisor { (0 < d) × (d ≤ 2 ^ 64) }
    ensures { result.shape ≡ run_floored d run }
{
    run_from(floor(run.low, d), floor(run.high, d), step(run.stride, d))
}

/// The numbers of a set, each divided by `d`, rounded down.
pub fn floored(set: &Ival, d: u128) -> Ival
    requires { (0 < d) × (d ≤ 2 ^ 64) }
    ensures { result.shape ≡ floored d set.now.shape }
{
    match set.shape() {
        Shape::Few(few) => few_floored(few.as_slice(), d),
        Shape::Many(run) => run_floored(*run, d),
    }
}

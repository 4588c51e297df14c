//! Results of operators on sets of numbers of a type.

ghost use Rattle.std.specs.Prelude.{◌≡◌, ◌<◌, ◌≤◌, ◌^◌, ℤ, pos, ◌+ℤ◌, IfOk, [], ◌/◌, ◌%◌, map};
ghost use Rattle.c_base.specs.Integers as integers;
ghost use Rattle.c_base.specs.Integers.{FitsKind};
ghost use Rattle.ival_core.specs.Sets.{IsNumber, IsLongRun, Among};
ghost use Rattle.ival_core.specs.Ivals.{Holds};
ghost use Rattle.ival_core.specs.Joined.{with_numbers};
ghost use Rattle.ival_arith.specs.Pieces.{run_residues, gathered};
ghost use Rattle.ival_arith.specs.Values.{kept, row, rows, residues, added};

use crate::pieces::{cycle, with};
use crate::sums::sums;
use c_base::format::{Format, power};
use c_base::kind::Kind;
use c_base::operators::{BinOp, apply_binary};
use ival_core::{Ival, Progression, Shape};

/// With the result, if there is one.
pub(crate) fn with_result(all: Ival, outcome: Result<i128, Kind>) -> Ival
    requires { IfOk outcome IsNumber }
    ensures { result.shape ≡ with_numbers all.shape (kept outcome []) }
{
    match outcome {
        Ok(n) => with(&all, n),
        Err(_) => all,
    }
}

/// With the results of `x` with each of `others`.
pub(crate) fn with_row(set: &Ival, op: BinOp, format: Format, x: i128, others: &[i128]) -> Ival
    requires left { FitsKind format.kind format.machine x }
    requires right { (y : ℤ) → Among others.now y → FitsKind format.kind format.machine y }
    ensures { result.shape
        ≡ with_numbers set.now.shape (row op format.signed format.width x others.now) }
{
    let mut all = set.copy();
    for y in others {
        let outcome = apply_binary(op, format.kind, format.machine, x, *y);
        all = with_result(all, outcome);
    }
    all
}

/// The results of each of `numbers` with each of `others`.
pub fn few_results(op: BinOp, format: Format, numbers: &[i128], others: &[i128]) -> Ival
    requires left { (x : ℤ) → Among numbers.now x → FitsKind format.kind format.machine x }
    requires right { (y : ℤ) → Among others.now y → FitsKind format.kind format.machine y }
    ensures { result.shape ≡ gathered (rows op format.signed format.width numbers.now others.now) }
{
    let mut all = Ival::empty();
    for x in numbers {
        all = with_row(&all, op, format, *x, others);
    }
    all
}

/// What `n` leaves modulo `m`.
pub fn residue(m: u128, n: i128) -> u128
    requires modulus { (0 < m) × (m ≤ 2 ^ 64) }
    ensures value { result ≡ integers.residue m n }
    ensures below { result < m }
{
    n.rem_euclid(m as i128) as u128
}

fn few_residues(few: &[i128], m: u128) -> Ival
    requires modulus { (0 < m) × (m ≤ 2 ^ 64) }
    ensures { result.shape ≡ gathered (map (λ n. pos (integers.residue m n)) few.now) }
{
    let mut all = Ival::empty();
    for n in few {
        all = with(&all, residue(m, *n) as i128);
    }
    all
}

fn run_residues(run: Progression, m: u128) -> Ival
    requires run { IsLongRun run }
    requires modulus { (0 < m) × (m ≤ 2 ^ 64) }
    ensures { result.shape ≡ run_residues m run }
{
    let more = run.high.abs_diff(run.low) / run.stride;
    cycle(m, residue(m, run.low), run.stride % m, more)
}

/// What the numbers of a set leave modulo `m`.
pub fn residues(set: &Ival, m: u128) -> Ival
    requires modulus { (0 < m) × (m ≤ 2 ^ 64) }
    ensures { result.shape ≡ residues m set.now.shape }
{
    match set.shape() {
        Shape::Few(few) => few_residues(few.as_slice(), m),
        Shape::Many(run) => run_residues(*run, m),
    }
}

//! Quotients and remainders of the numbers of a set by single numbers (C11 6.5.5).

ghost use Rattle.std.specs.Prelude.{◌≡◌, ◌<◌, ◌≤◌, ◌^◌, ℤ, pos, ◌&&◌};
ghost use Rattle.c_base.specs.Integers.{FitsBits};
ghost use Rattle.ival_core.specs.Sets.{Among};
ghost use Rattle.ival_core.specs.Ivals.{Holds};
ghost use Rattle.ival_arith.specs.Pieces.{none, all_changed};
ghost use Rattle.ival_arith.specs.Values.{natural_part, parts, is_minus_one, dividends, oriented, part_line, part_lines};

use crate::floors::floored;
use crate::pieces::{Change, changed, clipped, join};
use crate::values::residues;
use c_base::format::Format;
use ival_core::{Ival, LIMIT};

/// Which of the results of a division.
#[derive(Clone, Copy)]
pub enum Part {
    Quotient,
    Remainder,
}

/// Quotients or remainders by `d` of numbers that are not negative.
fn natural_part(part: Part, set: &Ival, d: u128) -> Ival
    requires { (0 < d) × (d ≤ 2 ^ 64) }
    ensures { result.shape ≡ natural_part part d set.now.shape }
{
    match part {
        Part::Quotient => floored(set, d),
        Part::Remainder => residues(set, d),
    }
}

fn negative(set: &Ival) -> Ival
    ensures { result.shape ≡ all_changed Change.Negative set.now.shape }
{
    changed(set, Change::Negative)
}

/// The same of any numbers: the sign is that of what is divided.
#[tactic(auto, unfolding(crate::specs::Values::parts))]
fn parts(part: Part, set: &Ival, d: u128) -> Ival
    requires { (0 < d) × (d ≤ 2 ^ 64) }
    ensures { result.shape ≡ parts part d set.now.shape }
{
    let up = natural_part(part, &clipped(set, 0, LIMIT), d);
    let down = natural_part(part, &clipped(&negative(set), 1, LIMIT), d);
    join(&up, &negative(&down))
}

fn is_minus_one(y: i128) -> bool
    ensures { result ≡ is_minus_one y }
{
    if y < 0 { -1 <= y } else { false }
}

/// The numbers whose quotient by `y` is of the type.
fn dividends(format: Format, y: i128, set: &Ival) -> Ival
    ensures { result.shape ≡ dividends format.signed format.width y set.now.shape }
{
    if is_minus_one(y) {
        clipped(set, -format.greatest(), format.greatest())
    } else {
        set.copy()
    }
}

/// A negative divisor turns the sign of quotients.
fn oriented(part: Part, y: i128, set: &Ival) -> Ival
    ensures { result.shape ≡ oriented part y set.now.shape }
{
    match part {
        Part::Quotient => { if y < 0 { negative(set) } else { set.copy() } }
        Part::Remainder => set.copy(),
    }
}

/// The quotients or remainders of the numbers of a set by `y`, in a type.
#[tactic(auto, unfolding(crate::specs::Values::part_line))]
fn part_line(part: Part, format: Format, set: &Ival, y: i128) -> Ival
    requires { FitsBits format.signed format.width y }
    ensures { result.shape ≡ part_line part format.signed format.width set.now.shape y }
{
    if y == 0 {
        return Ival::empty();
    }
    let divided = oriented(part, y, &dividends(format, y, set));
    parts(part, &divided, y.unsigned_abs())
}

/// The quotients or remainders of the numbers of a set by each of `others`, in a type.
pub(crate) fn part_lines(part: Part, format: Format, set: &Ival, others: &[i128]) -> Ival
    requires { (y : ℤ) → Among others.now y → FitsBits format.signed format.width y }
    ensures { result.shape
        ≡ part_lines part format.signed format.width none set.now.shape others.now }
{
    let mut all = Ival::empty();
    for other in others {
        all = join(&all, &part_line(part, format, set, *other));
    }
    all
}

//! C's arithmetic on sets of integers (C11 6.5.3.3, 6.5.5 and 6.5.6).

ghost use Rattle.std.specs.Prelude.{◌≡◌, ◌↔◌, ◌<◌, ◌≤◌, ℤ, pos, ◌+ℤ◌, ◌≤ℤ◌, IsTrue, false, ◌&&◌, ◌*◌, ◌^◌, ◌-◌, ◌+◌, min};
ghost use Rattle.c_base.specs.Integers.{FitsBits, least_of, greatest_of};
ghost use Rattle.ival_core.specs.Sets.{IsNumber, IsLongRun, Has};
ghost use Rattle.ival_core.specs.Ivals.{Holds};
ghost use Rattle.ival_core.specs.Views.{bounds_of};
ghost use Rattle.ival_arith.specs.Values.{extent, is_natural, spread, added, product_hull, runs_multiplied, multiplied, part_lines, part_spread, divided, long_value, value};
ghost use Rattle.ival_arith.specs.Kinds.{holds_number, sums_leave, products_leave, overflows, divides_by_zero, kind_set, kinds};
ghost use Rattle.ival_arith.specs.Promises.{InType};

use crate::divisions::{Part, part_lines};
use crate::divisors::numbers_divided;
use crate::pieces::{Change, changed, clipped};
use crate::products::{extent, is_natural, lines, spread};
use crate::runs::{all_repeat, first_products, least_factor, near_products};
use crate::sums::sums;
use crate::values::{few_results, residues};
use c_base::format::{Format, format_of, power};
use c_base::integer::{IntKind, Machine};
use c_base::kind::{Kind, KindSet};
use c_base::operators::BinOp;
use ival_core::{Ival, LIMIT, Progression, Shape};

/// Sums in a type: those that it can hold, or all of them reduced.
fn added(format: Format, a: &Ival, b: &Ival) -> Ival
    requires { (x y : ℤ) → Holds a.now x → Holds b.now y → IsNumber (x +ℤ y) }
    ensures { result.shape ≡ added format.signed format.width a.now.shape b.now.shape }
{
    if format.signed {
        sums(a, b, format.least(), format.greatest())
    } else {
        residues(&sums(a, b, -LIMIT, LIMIT), power(format.width))
    }
}

/// Both hold.
pub fn both(a: bool, b: bool) -> bool
    ensures { result ≡ (a && b) }
{
    if a { b } else { false }
}

/// How far results of products are from 0.
fn product_extent(a: &Ival, b: &Ival) -> u128
    requires left { extent (bounds_of a.now.shape) ≤ 2 ^ 63 + 2 ^ 63 - 1 }
    requires right { extent (bounds_of b.now.shape) ≤ 2 ^ 63 + 2 ^ 63 - 1 }
    ensures value { result
        ≡ min (extent (bounds_of a.now.shape) * extent (bounds_of b.now.shape)) (2 ^ 65) }
    ensures small { result ≤ 2 ^ 65 }
{
    (extent(a) * extent(b)).min(1 << 65)
}

/// Products of long sets, in a type.
fn product_hull(format: Format, a: &Ival, b: &Ival) -> Ival
    requires left { InType format.signed format.width a.now }
    requires right { InType format.signed format.width b.now }
    ensures { result.shape ≡ product_hull format.signed format.width a.now.shape b.now.shape }
{
    spread(
        format,
        both(is_natural(a), is_natural(b)),
        product_extent(a, b),
    )
}

/// Products of two runs in an unsigned type.
#[tactic(auto, unfolding(crate::specs::Values::runs_multiplied))]
fn wrapped_products(
    format: Format,
    a: &Ival,
    run: Progression,
    b: &Ival,
    other: Progression,
) -> Ival
    requires unsigned { format.signed ≡ false }
    requires run { a.now.shape ≡ Shape.Many run }
    requires other { b.now.shape ≡ Shape.Many other }
    requires left { InType format.signed format.width a.now }
    requires right { InType format.signed format.width b.now }
    ensures { result.shape ≡ runs_multiplied format.signed format.width run other }
{
    if all_repeat(format.width, run, other) {
        first_products(format, run, other)
    } else {
        product_hull(format, a, b)
    }
}

/// Products of two runs in a type.
#[tactic(auto, unfolding(crate::specs::Values::runs_multiplied))]
fn runs_multiplied(format: Format, a: &Ival, run: Progression, b: &Ival, other: Progression) -> Ival
    requires run { a.now.shape ≡ Shape.Many run }
    requires other { b.now.shape ≡ Shape.Many other }
    requires left { InType format.signed format.width a.now }
    requires right { InType format.signed format.width b.now }
    ensures { result.shape ≡ runs_multiplied format.signed format.width run other }
{
    if format.signed {
        match near_products(format, a, b, other) {
            Some(all) => all,
            None => product_hull(format, a, b),
        }
    } else {
        wrapped_products(format, a, run, b, other)
    }
}

/// Products of a run and a set, in a type.
fn run_multiplied(format: Format, a: &Ival, run: Progression, b: &Ival) -> Ival
    requires run { a.now.shape ≡ Shape.Many run }
    requires left { InType format.signed format.width a.now }
    requires right { InType format.signed format.width b.now }
    ensures { result.shape ≡ multiplied format.signed format.width a.now.shape b.now.shape }
{
    match b.shape() {
        Shape::Few(few) => lines(format, run, few.as_slice()),
        Shape::Many(other) => runs_multiplied(format, a, run, b, *other),
    }
}

/// Products of few numbers and a set, in a type.
fn few_multiplied(format: Format, a: &Ival, numbers: &[i128], b: &Ival) -> Ival
    requires few { a.now.shape ≡ Shape.Few (record { items = numbers.now }) }
    requires left { InType format.signed format.width a.now }
    requires right { InType format.signed format.width b.now }
    ensures { result.shape ≡ multiplied format.signed format.width a.now.shape b.now.shape }
{
    match b.shape() {
        Shape::Few(_) => Ival::empty(),
        Shape::Many(run) => lines(format, *run, numbers),
    }
}

/// Products in a type, where one of the sets is long.
fn multiplied(format: Format, a: &Ival, b: &Ival) -> Ival
    requires left { InType format.signed format.width a.now }
    requires right { InType format.signed format.width b.now }
    ensures { result.shape ≡ multiplied format.signed format.width a.now.shape b.now.shape }
{
    match a.shape() {
        Shape::Few(few) => few_multiplied(format, a, few.as_slice(), b),
        Shape::Many(run) => run_multiplied(format, a, *run, b),
    }
}

/// Where quotients and remainders lie, in a type.
#[tactic(auto, unfolding(crate::specs::Values::part_spread))]
fn part_spread(part: Part, format: Format, a: &Ival, b: &Ival) -> Ival
    requires left { InType format.signed format.width a.now }
    ensures { result.shape ≡ part_spread part format.signed format.width a.now.shape b.now.shape }
{
    match part {
        Part::Quotient => {
            let far = extent(a) / least_factor(b);
            spread(format, both(is_natural(a), is_natural(b)), far)
        }
        Part::Remainder => {
            let below = extent(b).saturating_sub(1);
            spread(format, is_natural(a), extent(a).min(below))
        }
    }
}

/// Quotients or remainders by the numbers of a run, in a type.
#[tactic(auto, unfolding(crate::specs::Values::divided))]
fn run_divided(part: Part, format: Format, a: &Ival, b: &Ival, run: Progression) -> Ival
    requires run { b.now.shape ≡ Shape.Many run }
    requires left { InType format.signed format.width a.now }
    requires right { InType format.signed format.width b.now }
    ensures { result.shape ≡ divided part format.signed format.width a.now.shape b.now.shape }
{
    match a.shape() {
        Shape::Few(few) => match numbers_divided(part, format, few.as_slice(), b) {
            Some(all) => all,
            None => part_spread(part, format, a, b),
        },
        Shape::Many(_) => part_spread(part, format, a, b),
    }
}

/// Quotients or remainders in a type, where one of the sets is long.
#[tactic(auto, unfolding(crate::specs::Values::divided))]
fn divided(part: Part, format: Format, a: &Ival, b: &Ival) -> Ival
    requires left { InType format.signed format.width a.now }
    requires right { InType format.signed format.width b.now }
    ensures { result.shape ≡ divided part format.signed format.width a.now.shape b.now.shape }
{
    match b.shape() {
        Shape::Few(few) => part_lines(part, format, a, few.as_slice()),
        Shape::Many(run) => run_divided(part, format, a, b, *run),
    }
}

/// Results in a type, where one of the sets is long.
fn long_value(op: BinOp, format: Format, a: &Ival, b: &Ival) -> Ival
    requires left { InType format.signed format.width a.now }
    requires right { InType format.signed format.width b.now }
    ensures { result.shape ≡ long_value op format.signed format.width a.now.shape b.now.shape }
{
    match op {
        BinOp::Add => added(format, a, b),
        BinOp::Sub => added(format, a, &changed(b, Change::Negative)),
        BinOp::Mul => multiplied(format, a, b),
        BinOp::Div => divided(Part::Quotient, format, a, b),
        BinOp::Rem => divided(Part::Remainder, format, a, b),
        BinOp::And | BinOp::Or | BinOp::Xor | BinOp::Shl | BinOp::Shr => Ival::empty(),
        BinOp::Lt | BinOp::Le | BinOp::Gt | BinOp::Ge | BinOp::Eq | BinOp::Ne => Ival::empty(),
    }
}

/// What an operator gives on two sets of numbers of a type.
pub(crate) fn value(op: BinOp, format: Format, a: &Ival, b: &Ival) -> Ival
    requires left { InType format.signed format.width a.now }
    requires right { InType format.signed format.width b.now }
    ensures { result.shape ≡ value op format.signed format.width a.now.shape b.now.shape }
{
    match a.shape() {
        Shape::Few(few) => few_value(op, format, a, few.as_slice(), b),
        Shape::Many(_) => long_value(op, format, a, b),
    }
}

/// `a` has these few numbers.
fn few_value(op: BinOp, format: Format, a: &Ival, numbers: &[i128], b: &Ival) -> Ival
    requires few { a.now.shape ≡ Shape.Few (record { items = numbers.now }) }
    requires left { InType format.signed format.width a.now }
    requires right { InType format.signed format.width b.now }
    ensures { result.shape ≡ value op format.signed format.width a.now.shape b.now.shape }
{
    match b.shape() {
        Shape::Few(few) => few_results(op, format, numbers, few.as_slice()),
        Shape::Many(_) => long_value(op, format, a, b),
    }
}

//! Bounds of what operators on bits make of numbers between bounds.

ghost use Rattle.std.specs.Prelude.{◌≡◌, ◌≤◌, ◌^◌, ◌&&◌, pos, neg_ℤ, ◌≤ℤ◌, int_le, cond};
ghost use Rattle.std.specs.Int.{int_min};
ghost use Rattle.ival_core.specs.Sets.{IsNumber};
ghost use Rattle.ival_core.specs.Views.{bounds_of};
ghost use Rattle.ival_arith.specs.Pieces.{run};
ghost use Rattle.ival_arith.specs.Promises.{InType};
ghost use Rattle.ival_bits.specs.Spans.{IsEnds, Within, length_of, sized, ends_sized, span, and_span, or_span, spanned, bounds_value};

use crate::wraps::{last, negative};
use c_base::format::Format;
use c_base::operators::BinOp;
use ival_arith::both;
use ival_core::{Ival, run_from};

/// The least and the greatest number of a set.
#[derive(Clone, Copy)]
pub struct Ends {
    pub low: i128,
    pub high: i128,
}

/// How many bits `n` has.
pub(crate) fn length_of(n: u128) -> u32
    ensures { result ≡ length_of n }
{
    128 - n.leading_zeros()
}

/// How many bits a number has beside those that repeat its sign.
pub(crate) fn sized(n: i128) -> u32
    requires { IsNumber n }
    ensures { result ≡ sized n }
{
    if n < 0 {
        length_of(n.unsigned_abs() - 1)
    } else {
        length_of(n as u128)
    }
}

fn ends_sized(ends: Ends) -> u32
    requires { IsEnds ends }
    ensures { result ≡ ends_sized ends }
{
    sized(ends.low).max(sized(ends.high))
}

/// The least number of so many bits, or 0.
fn least(natural: bool, bits: u32) -> i128
    requires { bits ≤ 64 }
    ensures value { result ≡ cond natural (pos 0) (neg_ℤ (pos (2 ^ bits))) }
    ensures below { result ≤ℤ pos 0 }
    ensures number { IsNumber result }
{
    if natural { 0 } else { negative(bits) }
}

/// All numbers of so many bits, without the negative ones where there are none.
fn span(natural: bool, bits: u32) -> Ival
    requires { bits ≤ 64 }
    ensures { result.shape ≡ span natural bits }
{
    run_from(least(natural, bits), last(bits), 1)
}

/// No number is negative.
fn is_natural(ends: Ends) -> bool
    ensures { result ≡ int_le (pos 0) ends.low }
{
    0 <= ends.low
}

/// From 0 to the end of `a`, or that of `b` where it is less and no number of `b` is negative.
fn under(a: Ends, b: Ends) -> Ival
    requires left { IsEnds a }
    requires right { IsEnds b }
    requires natural { pos 0 ≤ℤ a.low }
    ensures { result.shape
        ≡ run (pos 0) (cond (int_le (pos 0) b.low) (int_min a.high b.high) a.high) 1 }
{
    if is_natural(b) {
        run_from(0, a.high.min(b.high), 1)
    } else {
        run_from(0, a.high, 1)
    }
}

#[tactic(auto, unfolding(crate::specs::Spans::and_span))]
fn and_span(a: Ends, b: Ends, bits: u32) -> Ival
    requires small { bits ≤ 64 }
    requires left { IsEnds a }
    requires right { IsEnds b }
    ensures { result.shape ≡ and_span a b bits }
{
    if is_natural(a) {
        return under(a, b);
    }
    if is_natural(b) {
        run_from(0, b.high, 1)
    } else {
        span(false, bits)
    }
}

#[tactic(auto, unfolding(crate::specs::Spans::or_span))]
fn or_span(a: Ends, b: Ends, bits: u32) -> Ival
    requires small { bits ≤ 64 }
    requires left { IsEnds a }
    requires right { IsEnds b }
    requires low { Within bits a.low }
    requires other { Within bits b.low }
    ensures { result.shape ≡ or_span a b bits }
{
    if both(is_natural(a), is_natural(b)) {
        run_from(a.low.max(b.low), last(bits), 1)
    } else {
        span(false, bits)
    }
}

#[tactic(auto, unfolding(crate::specs::Spans::spanned))]
fn spanned(op: BinOp, a: Ends, b: Ends, bits: u32) -> Ival
    requires small { bits ≤ 64 }
    requires left { IsEnds a }
    requires right { IsEnds b }
    requires low { Within bits a.low }
    requires other { Within bits b.low }
    ensures { result.shape ≡ spanned op a b bits }
{
    match op {
        BinOp::And => and_span(a, b, bits),
        BinOp::Or => or_span(a, b, bits),
        _ => span(both(is_natural(a), is_natural(b)), bits),
    }
}

/// Results of numbers between the bounds of two sets.
#[tactic(auto, unfolding(crate::specs::Spans::bounds_value))]
pub(crate) fn bounds_value(op: BinOp, format: Format, a: &Ival, b: &Ival) -> Ival
    requires left { InType format.signed format.width a.now }
    requires right { InType format.signed format.width b.now }
    ensures { result.shape ≡ bounds_value op (bounds_of a.now.shape) (bounds_of b.now.shape) }
{
    let Some((low, high)) = a.bounds() else {
        return Ival::empty();
    };
    let Some((least, greatest)) = b.bounds() else {
        return Ival::empty();
    };
    let left = Ends { low, high };
    let right = Ends {
        low: least,
        high: greatest,
    };
    spanned(op, left, right, ends_sized(left).max(ends_sized(right)))
}

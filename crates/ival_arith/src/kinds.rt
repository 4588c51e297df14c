//! With which kinds an operator is undefined for numbers of two sets of a type.

ghost use Rattle.std.specs.Prelude.{◌≡◌, ℤ, pos, negsuc, ◌+ℤ◌, ◌*ℤ◌, int_lt, true, false, ◌&&◌, ◌||◌};
ghost use Rattle.c_base.specs.Integers.{least_of, greatest_of};
ghost use Rattle.ival_core.specs.Sets.{IsNumber};
ghost use Rattle.ival_core.specs.Ivals.{Holds};
ghost use Rattle.ival_core.specs.Views.{bounds_of};
ghost use Rattle.ival_arith.specs.Kinds.{holds_number, holds_some, is_out, sums_leave, products_leave, overflows, divides_by_zero, kind_set, kinds, IsShort};
ghost use Rattle.ival_arith.specs.Promises.{InType};

use crate::pieces::{Change, changed};
use c_base::format::Format;
use c_base::kind::{Kind, KindSet};
use c_base::operators::BinOp;
use ival_core::Ival;

/// `n` is one of the numbers.
pub fn holds_number(set: &Ival, n: i128) -> bool
    ensures { result ≡ holds_number set.now.shape n }
{
    set.contains(n)
}

pub(crate) fn holds_some(set: &Ival) -> bool
    ensures { result ≡ holds_some (bounds_of set.now.shape) }
{
    match set.bounds() {
        None => false,
        Some(_) => true,
    }
}

fn sum(a: i128, b: i128) -> i128
    requires left { IsNumber a }
    requires right { IsNumber b }
    ensures { result ≡ a +ℤ b }
{
    a + b
}

fn product(a: i128, b: i128) -> i128
    requires left { IsShort a }
    requires right { IsShort b }
    ensures { result ≡ a *ℤ b }
{
    a * b
}

/// Some number from `low` to `high` is out of the type's range.
fn leave(format: Format, low: i128, high: i128) -> bool
    ensures { result ≡ (int_lt low (least_of format.signed format.width)
        || int_lt (greatest_of format.signed format.width) high) }
{
    if low < format.least() {
        true
    } else {
        format.greatest() < high
    }
}

/// Some sum is out of the type's range.
fn sums_leave(format: Format, a: &Ival, b: &Ival) -> bool
    ensures { result ≡ sums_leave (least_of format.signed format.width)
        (greatest_of format.signed format.width) (bounds_of a.now.shape) (bounds_of b.now.shape) }
{
    let Some((low_a, high_a)) = a.bounds() else {
        return false;
    };
    let Some((low_b, high_b)) = b.bounds() else {
        return false;
    };
    leave(format, sum(low_a, low_b), sum(high_a, high_b))
}

/// A product of `n` is out of the type's range, where the other factor is `low` or `high`.
fn ends_leave(format: Format, n: i128, low: i128, high: i128) -> bool
    requires factor { IsShort n }
    requires low { IsShort low }
    requires high { IsShort high }
    ensures { result ≡ (is_out (least_of format.signed format.width)
        (greatest_of format.signed format.width) (n *ℤ low)
        || is_out (least_of format.signed format.width) (greatest_of format.signed format.width)
        (n *ℤ high)) }
{
    let first = product(n, low);
    let last = product(n, high);
    either(leave(format, first, first), leave(format, last, last))
}

pub(crate) fn either(a: bool, b: bool) -> bool
    ensures { result ≡ (a || b) }
{
    if a { true } else { b }
}

/// Some product is out of the type's range.
fn products_leave(format: Format, a: &Ival, b: &Ival) -> bool
    requires left { (n : ℤ) → Holds a.now n → IsShort n }
    requires right { (n : ℤ) → Holds b.now n → IsShort n }
    ensures { result ≡ products_leave (least_of format.signed format.width)
        (greatest_of format.signed format.width) (bounds_of a.now.shape) (bounds_of b.now.shape) }
{
    let Some((low_a, high_a)) = a.bounds() else {
        return false;
    };
    let Some((low_b, high_b)) = b.bounds() else {
        return false;
    };
    let first = ends_leave(format, low_a, low_b, high_b);
    let last = ends_leave(format, high_a, low_b, high_b);
    either(first, last)
}

/// The least number of the type is divided by -1.
fn quotient_leaves(format: Format, a: &Ival, b: &Ival) -> bool
    ensures { result ≡ (holds_number a.now.shape (least_of format.signed format.width)
        && holds_number b.now.shape (negsuc 0)) }
{
    if holds_number(a, format.least()) {
        holds_number(b, -1)
    } else {
        false
    }
}

/// Some result is out of the signed type's range.
fn overflows(op: BinOp, format: Format, a: &Ival, b: &Ival) -> bool
    requires sign { format.signed ≡ true }
    requires left { InType format.signed format.width a.now }
    requires right { InType format.signed format.width b.now }
    ensures { result ≡ overflows op format.width a.now.shape b.now.shape }
{
    match op {
        BinOp::Add => sums_leave(format, a, b),
        BinOp::Sub => sums_leave(format, a, &changed(b, Change::Negative)),
        BinOp::Mul => products_leave(format, a, b),
        BinOp::Div | BinOp::Rem => quotient_leaves(format, a, b),
        BinOp::And | BinOp::Or | BinOp::Xor | BinOp::Shl | BinOp::Shr => false,
        BinOp::Lt | BinOp::Le | BinOp::Gt | BinOp::Ge | BinOp::Eq | BinOp::Ne => false,
    }
}

/// Some divisor is 0.
fn divides_by_zero(op: BinOp, a: &Ival, b: &Ival) -> bool
    ensures { result ≡ divides_by_zero op a.now.shape b.now.shape }
{
    match op {
        BinOp::Div | BinOp::Rem => {
            if holds_some(a) {
                holds_number(b, 0)
            } else {
                false
            }
        }
        BinOp::Add | BinOp::Sub | BinOp::Mul | BinOp::And | BinOp::Or | BinOp::Xor => false,
        BinOp::Shl | BinOp::Shr | BinOp::Lt | BinOp::Le | BinOp::Gt | BinOp::Ge => false,
        BinOp::Eq | BinOp::Ne => false,
    }
}

pub(crate) fn kind_set(zero: bool, overflow: bool) -> KindSet
    ensures { result ≡ kind_set zero overflow }
{
    let none = if zero {
        KindSet::none().with(Kind::DivisionByZero)
    } else {
        KindSet::none()
    };
    if overflow {
        none.with(Kind::SignedOverflow)
    } else {
        none
    }
}

/// The kinds of an operator on two sets of numbers of a type.
pub(crate) fn kinds(op: BinOp, format: Format, a: &Ival, b: &Ival) -> KindSet
    requires left { InType format.signed format.width a.now }
    requires right { InType format.signed format.width b.now }
    ensures { result ≡ kinds op format.signed format.width a.now.shape b.now.shape }
{
    let zero = divides_by_zero(op, a, b);
    if format.signed {
        kind_set(zero, overflows(op, format, a, b))
    } else {
        kind_set(zero, false)
    }
}

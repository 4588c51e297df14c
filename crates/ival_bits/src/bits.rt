//! Operators on the bits of sets of integers (C11 6.5.10 to 6.5.12).

ghost use Rattle.std.specs.Prelude.{◌≡◌, ◌≤◌, ◌^◌, ◌↔◌, ◌||◌, ℤ, IsTrue, IfSome, Some, Ok, Err};
ghost use Rattle.c_base.specs.Integers.{is_signed, width_of};
ghost use Rattle.c_base.specs.KindSets.{allowed, no_kinds};
ghost use Rattle.ival_core.specs.Sets.{HoldsNine};
ghost use Rattle.ival_core.specs.Ivals.{Holds};
ghost use Rattle.ival_core.specs.Views.{bounds_of};
ghost use Rattle.ival_arith.specs.Answers.{typed};
ghost use Rattle.ival_arith.specs.Promises.{InType, Gives};
ghost use Rattle.ival_bits.specs.Promises.{IsBitwise, IsSharp};
ghost use Rattle.ival_bits.specs.Bitwise.{low_bits, is_clear, is_apart, long_and, long_or, long_bits, bits_value, bitwise_value};

use crate::masks::and_by;
use crate::spans::{bounds_value, sized};
use c_base::format::{Format, format_of, power};
use c_base::integer::{IntKind, Machine};
use c_base::kind::{Kind, KindSet};
use c_base::operators::BinOp;
use ival_arith::sums::sums;
use ival_arith::{Answer, few_results, residues, typed};
use ival_core::{Ival, LIMIT, Shape};

/// Results of `&`, where one of the sets is long.
#[tactic(auto, unfolding(crate::specs::Bitwise::long_and))]
fn long_and(format: Format, a: &Ival, b: &Ival) -> Ival
    requires left { InType format.signed format.width a.now }
    requires right { InType format.signed format.width b.now }
    ensures { result.shape ≡ long_and format.signed format.width a.now.shape b.now.shape }
{
    if let Some(left) = and_by(format, b, a) {
        return left;
    }
    if let Some(left) = and_by(format, a, b) {
        return left;
    }
    bounds_value(BinOp::And, format, a, b)
}

/// How many bits the numbers of a set have, if none is negative.
fn low_bits(format: Format, set: &Ival) -> Option<u32>
    requires { InType format.signed format.width set.now }
    ensures value { result ≡ low_bits (bounds_of set.now.shape) }
    ensures small { IfSome result (λ bits. bits ≤ 64) }
{
    match set.bounds() {
        None => None,
        Some((low, high)) => { if low < 0 { None } else { Some(sized(high)) } }
    }
}

/// No number of `a` has one of the bits below the highest of those of `b`, of which none is negative.
fn is_clear(format: Format, a: &Ival, b: &Ival) -> bool
    requires { InType format.signed format.width b.now }
    ensures { result ≡ is_clear (low_bits (bounds_of b.now.shape)) a.now.shape }
{
    match low_bits(format, b) {
        None => false,
        Some(bits) => match residues(a, power(bits)).as_single() {
            None => false,
            Some(n) => n == 0,
        },
    }
}

/// The numbers of the sets have no bit in common, since those of one end below those of the other.
fn is_apart(format: Format, a: &Ival, b: &Ival) -> bool
    requires left { InType format.signed format.width a.now }
    requires right { InType format.signed format.width b.now }
    ensures { result ≡ is_apart a.now.shape b.now.shape }
{
    if is_clear(format, a, b) {
        true
    } else {
        is_clear(format, b, a)
    }
}

/// Results of `|` and `^`, where one of the sets is long.
#[tactic(auto, unfolding(crate::specs::Bitwise::long_or))]
fn long_or(op: BinOp, format: Format, a: &Ival, b: &Ival) -> Ival
    requires left { InType format.signed format.width a.now }
    requires right { InType format.signed format.width b.now }
    ensures { result.shape ≡ long_or op a.now.shape b.now.shape }
{
    if is_apart(format, a, b) {
        sums(a, b, -LIMIT, LIMIT)
    } else {
        bounds_value(op, format, a, b)
    }
}

/// Results, where one of the sets is long.
#[tactic(auto, unfolding(crate::specs::Bitwise::long_bits))]
fn long_bits(op: BinOp, format: Format, a: &Ival, b: &Ival) -> Ival
    requires left { InType format.signed format.width a.now }
    requires right { InType format.signed format.width b.now }
    ensures { result.shape ≡ long_bits op format.signed format.width a.now.shape b.now.shape }
{
    match op {
        BinOp::And => long_and(format, a, b),
        _ => long_or(op, format, a, b),
    }
}

/// `a` has these few numbers.
#[tactic(auto, unfolding(crate::specs::Bitwise::bits_value))]
fn few_value(op: BinOp, format: Format, a: &Ival, numbers: &[i128], b: &Ival) -> Ival
    requires few { a.now.shape ≡ Shape.Few (record { items = numbers.now }) }
    requires left { InType format.signed format.width a.now }
    requires right { InType format.signed format.width b.now }
    ensures { result.shape ≡ bits_value op format.signed format.width a.now.shape b.now.shape }
{
    match b.shape() {
        Shape::Few(few) => few_results(op, format, numbers, few.as_slice()),
        Shape::Many(_) => long_bits(op, format, a, b),
    }
}

/// What an operator gives on two sets of numbers of a type.
#[tactic(auto, unfolding(crate::specs::Bitwise::bits_value))]
fn bits_value(op: BinOp, format: Format, a: &Ival, b: &Ival) -> Ival
    requires left { InType format.signed format.width a.now }
    requires right { InType format.signed format.width b.now }
    ensures { result.shape ≡ bits_value op format.signed format.width a.now.shape b.now.shape }
{
    match a.shape() {
        Shape::Few(few) => few_value(op, format, a, few.as_slice(), b),
        Shape::Many(_) => long_bits(op, format, a, b),
    }
}

/// `& | ^` on numbers of the type `k` (C11 6.5.10 to 6.5.12). Other numbers have no results.
pub fn bitwise(op: BinOp, k: IntKind, m: Machine, a: &Ival, b: &Ival) -> Answer
    requires { IsBitwise op }
    ensures value { result.value.shape ≡ bitwise_value op k m a.now.shape b.now.shape }
    ensures kind_set { result.kinds ≡ no_kinds }
    ensures holds { (n : ℤ) → Gives op k m a.now b.now (Ok n) → Holds result.value n }
    ensures kinds { (kind : Kind) → IsTrue (allowed result.kinds kind)
        ↔ Gives op k m a.now b.now (Err kind) }
    ensures exact { IsSharp op (is_signed k) (width_of k m)
        (typed (is_signed k) (width_of k m) a.now.shape)
        (typed (is_signed k) (width_of k m) b.now.shape)
        → (HoldsNine (λ n. Gives op k m a.now b.now (Ok n)) → ⊥) → (n : ℤ) → Holds result.value n
        → Gives op k m a.now b.now (Ok n) }
{
    let format = format_of(k, m);
    let left = typed(format, a);
    let right = typed(format, b);
    Answer {
        value: bits_value(op, format, &left, &right),
        kinds: KindSet::none(),
    }
}

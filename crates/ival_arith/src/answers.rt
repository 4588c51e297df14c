//! The operators of arithmetic on sets of integers (C11 6.5.3.3, 6.5.5 and 6.5.6).

ghost use Rattle.std.specs.Prelude.{◌≡◌, ◌↔◌, ℤ, ◌+ℤ◌, ◌-ℤ◌, IsTrue, Ok, Err, true, false};
ghost use Rattle.c_base.specs.Integers.{FitsBits, is_signed, width_of};
ghost use Rattle.c_base.specs.KindSets.{allowed};
ghost use Rattle.ival_core.specs.Sets.{IsLeast, HoldsNine};
ghost use Rattle.ival_core.specs.Ivals.{Holds};
ghost use Rattle.ival_arith.specs.Answers.{typed, binary_value, binary_kinds, negated, negated_kinds, negate_value, negate_kinds};
ghost use Rattle.ival_arith.specs.Promises.{InType, Gives, GivesNegated, IsArithmetic, IsSharp, AllInRange, AllNegatedInRange};

use crate::arithmetic::value;
use crate::kinds::{holds_number, kind_set, kinds};
use crate::pieces::{Change, changed, clipped};
use crate::values::residues;
use c_base::format::{Format, format_of, power};
use c_base::integer::{IntKind, Machine};
use c_base::kind::{Kind, KindSet};
use c_base::operators::BinOp;
use ival_core::Ival;

/// What an operator gives on sets of numbers.
#[derive(Drop)]
pub struct Answer {
    /// Holds each result.
    pub value: Ival,
    /// With which kinds the operator is undefined for some numbers.
    pub kinds: KindSet,
}

/// The numbers that the type can hold.
pub fn typed(format: Format, set: &Ival) -> Ival
    ensures value { result.shape ≡ typed format.signed format.width set.now.shape }
    ensures typed { InType format.signed format.width result }
{
    clipped(set, format.least(), format.greatest())
}

/// `+ - * / %` on numbers of the type `k`. Other numbers have no results.
pub fn binary(op: BinOp, k: IntKind, m: Machine, a: &Ival, b: &Ival) -> Answer
    requires { IsArithmetic op }
    ensures value { result.value.shape ≡ binary_value op k m a.now.shape b.now.shape }
    ensures kind_set { result.kinds ≡ binary_kinds op k m a.now.shape b.now.shape }
    ensures holds { (n : ℤ) → Gives op k m a.now b.now (Ok n) → Holds result.value n }
    ensures kinds { (kind : Kind) → IsTrue (allowed result.kinds kind)
        ↔ Gives op k m a.now b.now (Err kind) }
    ensures exact { IsSharp op (is_signed k) (width_of k m)
        (typed (is_signed k) (width_of k m) a.now.shape)
        (typed (is_signed k) (width_of k m) b.now.shape)
        → (HoldsNine (λ n. Gives op k m a.now b.now (Ok n)) → ⊥) → (n : ℤ) → Holds result.value n
        → Gives op k m a.now b.now (Ok n) }
    ensures least_sum { op ≡ BinOp.Add → AllInRange (λ x y. x +ℤ y) k m a.now b.now
        → IsLeast (λ n. Gives op k m a.now b.now (Ok n)) result.value.shape }
    ensures least_difference { op ≡ BinOp.Sub → AllInRange (λ x y. x -ℤ y) k m a.now b.now
        → IsLeast (λ n. Gives op k m a.now b.now (Ok n)) result.value.shape }
{
    let format = format_of(k, m);
    let left = typed(format, a);
    let right = typed(format, b);
    Answer {
        value: value(op, format, &left, &right),
        kinds: kinds(op, format, &left, &right),
    }
}

/// The negated numbers of a type, in it.
fn negated(format: Format, set: &Ival) -> Ival
    requires { InType format.signed format.width set.now }
    ensures { result.shape ≡ negated format.signed format.width set.now.shape }
{
    let turned = changed(set, Change::Negative);
    if format.signed {
        typed(format, &turned)
    } else {
        residues(&turned, power(format.width))
    }
}

fn negated_kinds(format: Format, set: &Ival) -> KindSet
    ensures { result ≡ negated_kinds format.signed format.width set.now.shape }
{
    if format.signed {
        kind_set(false, holds_number(set, format.least()))
    } else {
        kind_set(false, false)
    }
}

/// Unary minus on numbers of the type `k`. Other numbers have no results.
pub fn negate(k: IntKind, m: Machine, a: &Ival) -> Answer
    ensures value { result.value.shape ≡ negate_value k m a.now.shape }
    ensures kind_set { result.kinds ≡ negate_kinds k m a.now.shape }
    ensures holds { (n : ℤ) → GivesNegated k m a.now (Ok n) → Holds result.value n }
    ensures kinds { (kind : Kind) → IsTrue (allowed result.kinds kind)
        ↔ GivesNegated k m a.now (Err kind) }
    ensures exact { (HoldsNine (λ n. GivesNegated k m a.now (Ok n)) → ⊥) → (n : ℤ)
        → Holds result.value n → GivesNegated k m a.now (Ok n) }
    ensures least { AllNegatedInRange k m a.now
        → IsLeast (λ n. GivesNegated k m a.now (Ok n)) result.value.shape }
{
    let format = format_of(k, m);
    let set = typed(format, a);
    Answer {
        value: negated(format, &set),
        kinds: negated_kinds(format, &set),
    }
}

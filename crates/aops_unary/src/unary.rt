//! Unary minus, `!` and `~`.
ghost use Rattle.std.specs.Prelude.{◌≡◌, ◌↔◌, ℤ, cond, true, false, IsTrue, IfOk, Ok, Err};
ghost use Rattle.c_base.specs.Integers.{FitsBits, FitsKind, is_signed};
ghost use Rattle.c_base.specs.KindSets.{allowed, no_kinds, with_kind};
ghost use Rattle.c_base.specs.Operators.{complement};
ghost use Rattle.c_base.specs.declared.kind.Kind.{Kind as PlainKind};
ghost use Rattle.ival_core.specs.Ivals.{Holds, IsOnly};
ghost use Rattle.c_memory.specs.Layouts.{Layout};
ghost use Rattle.c_memory.specs.Values.{Value};
ghost use Rattle.c_pointers.specs.Conversions.{applied_to_one};
ghost use Rattle.ival_arith.specs.Kinds.{kind_set};
ghost use Rattle.avalue_base.specs.Meaning.{Means};
ghost use Rattle.avalue_base.specs.Numbers.{is_empty_list};
ghost use Rattle.avalue_base.specs.Values.{bases_of};
ghost use Rattle.aops.specs.Soles.{is_single_number, IsSole};
ghost use Rattle.aops_unary.specs.Ones.{Cause, GivesUnary, IsNarrowOne, NarrowOne, blended_one, complements, one_kinds, one_set, one_value, one_value_kinds, possible_kinds};

use aops::{Computed, related, truth_set, wrapped};
use avalue_values::{AVal, Mem};
use c_base::format::{Format, format_of};
use c_base::integer::{IntKind, Machine};
use c_base::kind::{Kind, KindSet};
use c_base::operators::{Rel, UnOp};
use ival_arith::{Answer, exact_sub, negate, typed};
use ival_core::Ival;
use std::alloc::Global;

/// The numbers of a type with all bits turned.
fn complemented(format: Format, a: &Ival) -> Ival
    ensures value { result ≡ complements format.signed format.width a.now }
    ensures holds { (n : ℤ) → Holds a.now n → FitsBits format.signed format.width n → Holds result (complement format.signed format.width n) }
    ensures single { (n : ℤ) → IsOnly a.now n → FitsBits format.signed format.width n → IsOnly result (complement format.signed format.width n) }
{
    let set = typed(format, a);
    match exact_sub(&Ival::single(-1), &set) {
        None => Ival::empty(),
        Some(turned) => wrapped(format.signed, format.width, &turned),
    }
}

fn turned(k: IntKind, m: Machine, a: &Ival) -> Answer
    ensures value { result.value ≡ one_set UnOp.Compl k m a.now }
    ensures kind_set { result.kinds ≡ one_kinds UnOp.Compl k m a.now }
    ensures holds { (n : ℤ) → GivesUnary UnOp.Compl k m a.now (Ok n) → Holds result.value n }
    ensures kinds { (kind : PlainKind) → IsTrue (allowed result.kinds kind) ↔ GivesUnary UnOp.Compl k m a.now (Err kind) }
    ensures narrow { IsNarrowOne UnOp.Compl k m a.now result.value }
{
    Answer {
        value: complemented(format_of(k, m), a),
        kinds: KindSet::none(),
    }
}

fn is_zero(k: IntKind, m: Machine, a: &Ival) -> Answer
    ensures value { result.value ≡ one_set UnOp.Not k m a.now }
    ensures kind_set { result.kinds ≡ one_kinds UnOp.Not k m a.now }
    ensures holds { (n : ℤ) → GivesUnary UnOp.Not k m a.now (Ok n) → Holds result.value n }
    ensures kinds { (kind : PlainKind) → IsTrue (allowed result.kinds kind) ↔ GivesUnary UnOp.Not k m a.now (Err kind) }
    ensures narrow { IsNarrowOne UnOp.Not k m a.now result.value }
{
    Answer {
        value: related(Rel::Eq, a, &Ival::single(0)),
        kinds: KindSet::none(),
    }
}

/// An operator on numbers of a type. Other numbers have no results.
fn on_numbers(op: UnOp, k: IntKind, m: Machine, a: &Ival) -> Answer
    ensures value { result.value ≡ one_set op k m a.now }
    ensures kind_set { result.kinds ≡ one_kinds op k m a.now }
    ensures holds { (n : ℤ) → GivesUnary op k m a.now (Ok n) → Holds result.value n }
    ensures kinds { (kind : PlainKind) → IsTrue (allowed result.kinds kind) ↔ GivesUnary op k m a.now (Err kind) }
    ensures narrow { IsNarrowOne op k m a.now result.value }
{
    match op {
        UnOp::Neg => negate(k, m, a),
        UnOp::Not => is_zero(k, m, a),
        UnOp::Compl => turned(k, m, a),
    }
}

/// A result that a signed type can't hold.
fn overflow(signed: bool) -> KindSet
    ensures { result ≡ kind_set false signed }
{
    if signed {
        KindSet::none().with(Kind::SignedOverflow)
    } else {
        KindSet::none()
    }
}

fn possible_kinds(op: UnOp, signed: bool) -> KindSet
    ensures { result ≡ possible_kinds op signed }
{
    match op {
        UnOp::Neg => overflow(signed),
        UnOp::Not => KindSet::none(),
        UnOp::Compl => KindSet::none(),
    }
}

/// What is known of a result of values of which some may be made from an address.
fn blended(alloc: Global, op: UnOp, k: IntKind, m: Machine, a: &AVal) -> Mem<AVal>
    requires { is_empty_list (bases_of a.now) ≡ false }
    ensures value { IfOk result (λ v. v ≡ blended_one op (bases_of a.now)) }
    ensures holds { IfOk result (λ v. (l : Layout) (x z : Value) → Means l a.now x → applied_to_one op k m x ≡ Ok z → Means l v z) }
{
    match op {
        UnOp::Neg => a.as_mix(alloc),
        UnOp::Not => Ok(AVal::number(truth_set(true, true))),
        UnOp::Compl => a.as_mix(alloc),
    }
}

fn on_addresses(alloc: Global, op: UnOp, k: IntKind, m: Machine, a: &AVal) -> Mem<Computed>
    requires { is_empty_list (bases_of a.now) ≡ false }
    ensures value { IfOk result (λ c. c.value ≡ blended_one op (bases_of a.now)) }
    ensures kind_set { IfOk result (λ c. c.kinds ≡ possible_kinds op (is_signed k)) }
    ensures holds { IfOk result (λ c. (l : Layout) (x z : Value) → Means l a.now x → applied_to_one op k m x ≡ Ok z → Means l c.value z) }
{
    Ok(Computed {
        value: blended(alloc, op, k, m, a)?,
        kinds: possible_kinds(op, format_of(k, m).signed),
    })
}

/// An operator on values of the type `k`. An address leaves its base alone.
pub fn abs_unary(alloc: Global, op: UnOp, k: IntKind, m: Machine, a: &AVal) -> Mem<Computed>
    ensures value { IfOk result (λ c. c.value ≡ one_value op k m a.now) }
    ensures kind_set { IfOk result (λ c. c.kinds ≡ one_value_kinds op k m a.now) }
    ensures holds { IfOk result (λ c. (l : Layout) (x z : Value) → Means l a.now x → FitsKind k m x.number →
        applied_to_one op k m x ≡ Ok z → Means l c.value z) }
    ensures kinds { IfOk result (λ c. (l : Layout) (x : Value) (kind : PlainKind) → Means l a.now x → FitsKind k m x.number →
        applied_to_one op k m x ≡ Err kind → IsTrue (allowed c.kinds kind)) }
    ensures cause { IfOk result (λ c. (kind : PlainKind) → IsTrue (allowed c.kinds kind) → Cause op k m a.now kind) }
    ensures narrow { IfOk result (λ c. NarrowOne op k m a.now c.value) }
    ensures sole { IfOk result (λ c. (l : Layout) (x : Value) → is_single_number a.now ≡ true → Means l a.now x → FitsKind k m x.number →
        IsSole l (applied_to_one op k m x) c.value c.kinds) }
{
    match a.numbers_alone() {
        None => on_addresses(alloc, op, k, m, a),
        Some(numbers) => {
            let answer = on_numbers(op, k, m, numbers);
            Ok(Computed {
                value: AVal::number(answer.value),
                kinds: answer.kinds,
            })
        }
    }
}

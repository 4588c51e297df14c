//! Operators on values of integer types.
ghost use Rattle.std.specs.Prelude.{◌≡◌, ◌&&◌, true, false, cond, IsTrue, IfOk, Ok, Err};
ghost use Rattle.c_base.specs.Integers.{is_signed};
ghost use Rattle.c_base.specs.KindSets.{allowed, no_kinds, with_kind};
ghost use Rattle.c_memory.specs.Layouts.{Layout};
ghost use Rattle.c_memory.specs.Values.{Value};
ghost use Rattle.c_memory.specs.Operations.{applied_to, is_comparison};
ghost use Rattle.avalue_base.specs.Lists.{union_of};
ghost use Rattle.avalue_base.specs.Numbers.{is_empty_list};
ghost use Rattle.avalue_base.specs.Values.{bases_of};
ghost use Rattle.ival_arith.specs.Kinds.{kind_set};
ghost use Rattle.avalue_base.specs.Meaning.{Means};
ghost use Rattle.aops.specs.Integers.{AreOperands, Cause, blended, integer_value, integer_value_kinds, possible_kinds};
ghost use Rattle.aops.specs.Soles.{is_single_number, IsSole, NarrowValue};

use crate::numbers::{on_numbers, truth_set};
use avalue_values::{AVal, Mem};
use c_base::format::format_of;
use c_base::integer::{IntKind, Machine};
use c_base::kind::{Kind, KindSet};
use c_base::operators::BinOp;
use std::alloc::Global;

/// What an operator gives on values.
#[derive(Drop)]
pub struct Computed {
    /// Holds each result.
    pub value: AVal,
    /// With which kinds the operator may be undefined.
    pub kinds: KindSet,
}

fn zero_kind(zero: bool) -> KindSet
    ensures { result ≡ cond zero (with_kind no_kinds Kind.DivisionByZero) no_kinds }
{
    if zero {
        KindSet::none().with(Kind::DivisionByZero)
    } else {
        KindSet::none()
    }
}

/// A zero divisor, and a result that a signed type can't hold.
fn kind_set(zero: bool, overflow: bool) -> KindSet
    ensures { result ≡ kind_set zero overflow }
{
    let none = zero_kind(zero);
    if overflow {
        none.with(Kind::SignedOverflow)
    } else {
        none
    }
}

/// With which kinds an operator may be undefined at all.
fn possible_kinds(op: BinOp, signed: bool) -> KindSet
    ensures { result ≡ possible_kinds op signed }
{
    match op {
        BinOp::Add => kind_set(false, signed),
        BinOp::Sub => kind_set(false, signed),
        BinOp::Mul => kind_set(false, signed),
        BinOp::Div => kind_set(true, signed),
        BinOp::Rem => kind_set(true, signed),
        BinOp::Shl => KindSet::none().with(Kind::Shift),
        BinOp::Shr => KindSet::none().with(Kind::Shift),
        BinOp::And => KindSet::none(),
        BinOp::Or => KindSet::none(),
        BinOp::Xor => KindSet::none(),
        BinOp::Lt => KindSet::none(),
        BinOp::Le => KindSet::none(),
        BinOp::Gt => KindSet::none(),
        BinOp::Ge => KindSet::none(),
        BinOp::Eq => KindSet::none(),
        BinOp::Ne => KindSet::none(),
    }
}

fn is_comparison(op: BinOp) -> bool
    ensures { result ≡ is_comparison op }
{
    match op {
        BinOp::Lt => true,
        BinOp::Le => true,
        BinOp::Gt => true,
        BinOp::Ge => true,
        BinOp::Eq => true,
        BinOp::Ne => true,
        BinOp::Add => false,
        BinOp::Sub => false,
        BinOp::Mul => false,
        BinOp::Div => false,
        BinOp::Rem => false,
        BinOp::And => false,
        BinOp::Or => false,
        BinOp::Xor => false,
        BinOp::Shl => false,
        BinOp::Shr => false,
    }
}

/// What is known of a result of values of which one may be made from an address.
fn blended(alloc: Global, op: BinOp, a: &AVal, b: &AVal) -> Mem<AVal>
    requires { (is_empty_list (bases_of a.now) && is_empty_list (bases_of b.now)) ≡ false }
    ensures { IfOk result (λ v. v ≡ blended op (union_of (bases_of a.now) (bases_of b.now))) }
{
    if is_comparison(op) {
        return Ok(AVal::number(truth_set(true, true)));
    }
    a.blend(alloc, b)
}

/// The value of an operator on integers of which one may be made from an address, with the kinds that it may have at all.
fn on_addresses(
    alloc: Global,
    op: BinOp,
    k: IntKind,
    m: Machine,
    a: &AVal,
    b: &AVal,
) -> Mem<Computed>
    requires { (is_empty_list (bases_of a.now) && is_empty_list (bases_of b.now)) ≡ false }
    ensures value { IfOk result (λ c. c.value ≡ blended op (union_of (bases_of a.now) (bases_of b.now))) }
    ensures kind_set { IfOk result (λ c. c.kinds ≡ possible_kinds op (is_signed k)) }
{
    Ok(Computed {
        value: blended(alloc, op, a, b)?,
        kinds: possible_kinds(op, format_of(k, m).signed),
    })
}

/// An operator on values of the type `k`; of a shift, the right ones may be of any type.
pub fn on_integers(
    alloc: Global,
    op: BinOp,
    k: IntKind,
    m: Machine,
    a: &AVal,
    b: &AVal,
) -> Mem<Computed>
    ensures value { IfOk result (λ c. c.value ≡ integer_value op k m a.now b.now) }
    ensures kind_set { IfOk result (λ c. c.kinds ≡ integer_value_kinds op k m a.now b.now) }
    ensures holds { IfOk result (λ c. (l : Layout) (x y z : Value) → AreOperands op k m l a.now b.now x y →
        applied_to op k m x y ≡ Ok z → Means l c.value z) }
    ensures kinds { IfOk result (λ c. (l : Layout) (x y : Value) (kind : Kind) → AreOperands op k m l a.now b.now x y →
        applied_to op k m x y ≡ Err kind → IsTrue (allowed c.kinds kind)) }
    ensures cause { IfOk result (λ c. (kind : Kind) → IsTrue (allowed c.kinds kind) → Cause op k m a.now b.now kind) }
    ensures narrow { IfOk result (λ c. NarrowValue op k m a.now b.now c.value) }
    ensures sole { IfOk result (λ c. (l : Layout) (x y : Value) → is_single_number a.now ≡ true → is_single_number b.now ≡ true →
        AreOperands op k m l a.now b.now x y → IsSole l (applied_to op k m x y) c.value c.kinds) }
{
    match a.numbers_alone() {
        None => on_addresses(alloc, op, k, m, a, b),
        Some(left) => match b.numbers_alone() {
            None => on_addresses(alloc, op, k, m, a, b),
            Some(right) => {
                let answer = on_numbers(op, k, m, left, right);
                Ok(Computed {
                    value: AVal::number(answer.value),
                    kinds: answer.kinds,
                })
            }
        },
    }
}

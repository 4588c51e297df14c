//! Conversions of values.
ghost use Rattle.std.specs.Prelude.{◌≡◌, ◌↔◌, ◌<◌, ◌≤◌, ℤ, true, IsTrue, IsFalse, IfOk};
ghost use Rattle.c_base.specs.Operators.{reduced};
ghost use Rattle.c_memory.specs.Layouts.{Layout};
ghost use Rattle.c_memory.specs.Values.{Value};
ghost use Rattle.c_pointers.specs.Conversions.{converted_to};
ghost use Rattle.ival_core.specs.Ivals.{Holds, IsOnly};
ghost use Rattle.avalue_base.specs.Meaning.{Means};
ghost use Rattle.avalue_base.specs.Numbers.{bit_numbers, is_empty};
ghost use Rattle.avalue_base.specs.Hues.{pointer_bits};
ghost use Rattle.avalue_base.specs.Singles.{is_single_value};
ghost use Rattle.aops.specs.Soles.{IsAlone, is_single_number, keeps_addresses};
ghost use Rattle.aops.specs.Converted.{as_integers, as_pointers, as_truths, converted_value, is_word, truths, wrapped_set};

use crate::numbers::related;
use avalue_values::{AVal, Mem};
use c_base::format::{Format, format_of};
use c_base::integer::{IntKind, Machine};
use c_base::operators::Rel;
use c_memory::scalar::Scalar;
use ival_bits::wrap;
use ival_core::{Ival, run_from};
use std::alloc::Global;

/// The bits of a pointer.
pub fn pointer_bits(m: Machine) -> u32
    ensures value { result ≡ pointer_bits m }
    ensures some { 0 < result }
    ensures few { result ≤ 64 }
{
    match m {
        Machine::Lp64 => 64,
    }
}

/// The numbers as those of a type.
pub fn wrapped(signed: bool, bits: u32, a: &Ival) -> Ival
    requires { (0 < bits) × (bits ≤ 64) }
    ensures value { result ≡ wrapped_set signed bits a.now }
    ensures holds { (n : ℤ) → Holds a.now n → Holds result (reduced signed bits n) }
    ensures single { (n : ℤ) → IsOnly a.now n → IsOnly result (reduced signed bits n) }
    ensures none { is_empty a.now.shape ≡ true → is_empty result.shape ≡ true }
{
    wrap(bits, signed, a)
}

/// 1 for numbers other than 0.
fn truths(a: &Ival) -> Ival
    ensures { result ≡ truths a.now }
{
    related(Rel::Ne, a, &Ival::single(0))
}

/// The values, reduced to the pointer's range.
fn as_pointers(alloc: Global, m: Machine, a: &AVal) -> Mem<AVal>
    ensures value { IfOk result (λ v. v ≡ as_pointers m a.now) }
    ensures holds { IfOk result (λ v. (l : Layout) (x : Value) → l.machine ≡ m → Means l a.now x →
        Means l v (converted_to Scalar.Pointer m x)) }
    ensures alone { IfOk result (λ v. (l : Layout) → is_single_value a.now ≡ true → IsAlone l v) }
{
    match a.numbers() {
        None => a.duplicate(alloc),
        Some(numbers) => a.renumbered(alloc, wrapped(false, pointer_bits(m), numbers)),
    }
}

/// Whether the type holds each pointer's number as it is.
fn is_word(format: Format) -> bool
    ensures { result ≡ is_word format.kind format.machine }
{
    if format.signed {
        return false;
    }
    format.width == pointer_bits(format.machine)
}

fn as_integers(alloc: Global, format: Format, a: &AVal) -> Mem<AVal>
    requires other { format.kind ≡ IntKind.Bool → ⊥ }
    ensures value { IfOk result (λ v. v ≡ as_integers format.kind format.machine a.now) }
    ensures holds { IfOk result (λ v. (l : Layout) (x : Value) → l.machine ≡ format.machine → Means l a.now x →
        Means l v (converted_to (Scalar.Integer format.kind) format.machine x)) }
    ensures alone { IfOk result (λ v. (l : Layout) → is_single_value a.now ≡ true →
        keeps_addresses (Scalar.Integer format.kind) format.machine a.now ≡ true → IsAlone l v) }
{
    match a.numbers_alone() {
        Some(numbers) => Ok(AVal::number(wrapped(format.signed, format.width, numbers))),
        None => {
            if is_word(format) {
                return as_pointers(alloc, format.machine, a);
            }
            a.as_mix(alloc)
        }
    }
}

/// 0 and 1.
fn bits() -> Ival
    ensures { result ≡ bit_numbers }
{
    run_from(0, 1, 1)
}

fn as_truths(a: &AVal) -> AVal
    ensures value { result ≡ as_truths a.now }
    ensures holds { (l : Layout) (m : Machine) (x : Value) → Means l a.now x →
        Means l result (converted_to (Scalar.Integer IntKind.Bool) m x) }
    ensures alone { (l : Layout) → is_single_number a.now ≡ true → IsAlone l result }
{
    match a.numbers_alone() {
        Some(numbers) => AVal::number(truths(numbers)),
        None => AVal::number(bits()),
    }
}

fn is_bool(kind: IntKind) -> bool
    ensures yes { IsTrue result → kind ≡ IntKind.Bool }
    ensures no { IsFalse result → kind ≡ IntKind.Bool → ⊥ }
{
    match kind {
        IntKind::Bool => true,
        IntKind::Char => false,
        IntKind::SChar => false,
        IntKind::UChar => false,
        IntKind::Short => false,
        IntKind::UShort => false,
        IntKind::Int => false,
        IntKind::UInt => false,
        IntKind::Long => false,
        IntKind::ULong => false,
        IntKind::LLong => false,
        IntKind::ULLong => false,
    }
}

/// The values, converted to a scalar type (C11 6.3.1.2, 6.3.1.3, 6.3.2.3p5 and p6). An address that leaves the types of a pointer's range becomes
/// a mix of its base.
pub fn converted(alloc: Global, to: Scalar, m: Machine, a: &AVal) -> Mem<AVal>
    ensures value { IfOk result (λ v. v ≡ converted_value to m a.now) }
    ensures holds { IfOk result (λ v. (l : Layout) (x : Value) → l.machine ≡ m → Means l a.now x →
        Means l v (converted_to to m x)) }
    ensures sole { IfOk result (λ v. (l : Layout) (x z : Value) → l.machine ≡ m → is_single_value a.now ≡ true →
        keeps_addresses to m a.now ≡ true → Means l a.now x → Means l v z ↔ (z ≡ converted_to to m x)) }
{
    match to {
        Scalar::Pointer => as_pointers(alloc, m, a),
        Scalar::Integer(kind) => {
            if is_bool(kind) {
                return Ok(as_truths(a));
            }
            as_integers(alloc, format_of(kind, m), a)
        }
    }
}

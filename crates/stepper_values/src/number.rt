//! Numbers by sign and size, with room for each number of each scalar type.

ghost use Rattle.std.specs.Prelude.{◌≡◌, ◌<◌, ◌≤◌, ◌^◌, ◌-◌, ◌*◌, ◌+◌, ◌*ℤ◌, ◌+ℤ◌, ◌-ℤ◌, ◌≤ℤ◌, neg_ℤ, pos, negsuc, cond, Some, None};
ghost use Rattle.c_base.specs.Integers as integers;
ghost use Rattle.c_base.specs.Operators as operators;
ghost use Rattle.c_base.specs.Wide.{IsOperand};
ghost use Rattle.c_memory.specs.Scalars as scalars;
ghost use Rattle.c_memory.specs.Operations as operations;
ghost use Rattle.c_pointers.specs.Conversions as conversions;
ghost use Rattle.c_pointers.specs.Pointers as pointers;
ghost use Rattle.stepper_values.specs.Views.{number_of, number_result_of};

use c_base::format::format_of;
use c_base::integer::{IntKind, Machine};
use c_base::kind::Kind;
use c_base::operators::{BinOp, UnOp, compute};
use c_memory::scalar::Scalar;

/// A number from -2^64 to 2^64 - 1: `Natural(n)` is n, and `Negative(n)` is -1 - n.
#[derive(Clone, Copy, Drop)]
pub enum Number {
    Natural(u64),
    Negative(u64),
}

/// The number itself.
pub fn wide(n: Number) -> i128
    ensures value { result ≡ number_of n }
    ensures within { IsOperand result }
{
    match n {
        Number::Natural(x) => x as i128,
        Number::Negative(x) => -1 - x as i128,
    }
}

fn from_wide(n: i128) -> Number
    requires { IsOperand n }
    ensures { number_of result ≡ n }
{
    if n < 0 {
        Number::Negative((-1 - n) as u64)
    } else {
        Number::Natural(n as u64)
    }
}

pub fn is_zero(n: Number) -> bool
    ensures { result ≡ operators.is_zero (number_of n) }
{
    match n {
        Number::Natural(x) => x == 0,
        Number::Negative(_) => false,
    }
}

pub fn is_comparison(op: BinOp) -> bool
    ensures { result ≡ operations.is_comparison op }
{
    match op {
        BinOp::Add | BinOp::Sub | BinOp::Mul | BinOp::Div | BinOp::Rem => false,
        BinOp::And | BinOp::Or | BinOp::Xor | BinOp::Shl | BinOp::Shr => false,
        BinOp::Lt | BinOp::Le | BinOp::Gt | BinOp::Ge | BinOp::Eq | BinOp::Ne => true,
    }
}

fn kind_in_memory(scalar: Scalar) -> IntKind
    ensures { result ≡ scalars.kind_in_memory scalar }
{
    match scalar {
        Scalar::Integer(kind) => kind,
        Scalar::Pointer => IntKind::ULong,
    }
}

fn size_of_long(machine: Machine) -> u32
    ensures value { result ≡ integers.size_of_long machine }
    ensures some { 1 ≤ result }
    ensures small { result ≤ 8 }
{
    match machine {
        Machine::Lp64 => 8,
    }
}

fn size_of_kind(kind: IntKind, machine: Machine) -> u32
    ensures value { result ≡ integers.size_of_kind kind machine }
    ensures some { 1 ≤ result }
    ensures small { result ≤ 8 }
{
    match kind {
        IntKind::Bool | IntKind::Char | IntKind::SChar | IntKind::UChar => 1,
        IntKind::Short | IntKind::UShort => 2,
        IntKind::Int | IntKind::UInt => 4,
        IntKind::Long | IntKind::ULong => size_of_long(machine),
        IntKind::LLong | IntKind::ULLong => 8,
    }
}

pub fn size_of_scalar(scalar: Scalar, machine: Machine) -> u32
    ensures value { result ≡ scalars.size_of_scalar scalar machine }
    ensures some { 1 ≤ result }
    ensures small { result ≤ 8 }
{
    size_of_kind(kind_in_memory(scalar), machine)
}

fn is_signed(kind: IntKind) -> bool
    ensures { result ≡ integers.is_signed kind }
{
    match kind {
        IntKind::Char | IntKind::SChar | IntKind::Short => true,
        IntKind::Int | IntKind::Long | IntKind::LLong => true,
        IntKind::Bool | IntKind::UChar | IntKind::UShort => false,
        IntKind::UInt | IntKind::ULong | IntKind::ULLong => false,
    }
}

/// How many patterns so many bits have.
fn patterns(bits: u32) -> u128
    requires { bits ≤ 64 }
    ensures value { result ≡ 2 ^ bits }
    ensures some { 1 ≤ result }
    ensures small { result ≤ 2 ^ 64 }
{
    1u128 << bits
}

/// The pattern of so many bits that stands for the number in two's complement.
pub fn pattern_of(bits: u32, n: Number) -> u64
    requires { bits ≤ 64 }
    ensures { result ≡ integers.residue (2 ^ bits) (number_of n) }
{
    let patterns = patterns(bits);
    match n {
        Number::Natural(x) => (x as u128 % patterns) as u64,
        Number::Negative(x) => (patterns - 1 - x as u128 % patterns) as u64,
    }
}

/// The number that a pattern of so many bits stands for.
fn signed_number(signed: bool, bits: u32, pattern: u64) -> Number
    requires some { 1 ≤ bits }
    requires small { bits ≤ 64 }
    ensures { number_of result ≡ integers.signed_number signed bits pattern }
{
    if !signed {
        return Number::Natural(pattern);
    }
    if (pattern as u128) < patterns(bits - 1) {
        return Number::Natural(pattern);
    }
    Number::Negative(patterns(bits).saturating_sub(pattern as u128 + 1) as u64)
}

fn number_in(kind: IntKind, machine: Machine, pattern: u64) -> Number
    ensures { number_of result ≡ integers.number_in kind machine pattern }
{
    if kind == IntKind::Bool {
        return Number::Natural(if pattern == 0 { 0 } else { 1 });
    }
    signed_number(is_signed(kind), 8 * size_of_kind(kind, machine), pattern)
}

/// The number that a pattern of its bits stands for in the type.
pub fn scalar_in(scalar: Scalar, machine: Machine, pattern: u64) -> Number
    ensures { number_of result ≡ scalars.scalar_in scalar machine pattern }
{
    number_in(kind_in_memory(scalar), machine, pattern)
}

/// What the operator gives, or the kind of its undefined step.
pub fn computed(
    op: BinOp,
    kind: IntKind,
    machine: Machine,
    a: Number,
    b: Number,
) -> Result<Number, Kind>
    ensures { number_result_of result ≡ operators.applied op kind machine (number_of a) (number_of b) }
{
    match compute(op, kind, machine, wide(a), wide(b)) {
        Ok(n) => Ok(from_wide(n)),
        Err(undefined) => Err(undefined),
    }
}

/// The number with all bits turned, in so many bits.
fn complemented(signed: bool, bits: u32, n: Number) -> Number
    requires some { 1 ≤ bits }
    requires small { bits ≤ 64 }
    ensures { number_of result ≡ operators.complement signed bits (number_of n) }
{
    let ones = patterns(bits) - 1;
    let turned = ones.saturating_sub(pattern_of(bits, n) as u128);
    signed_number(signed, bits, turned as u64)
}

/// What `-`, `!` or `~` gives, or the kind of its undefined step.
pub fn computed_one(op: UnOp, kind: IntKind, machine: Machine, n: Number) -> Result<Number, Kind>
    ensures { number_result_of result ≡ operators.applied_unary op kind machine (number_of n) }
{
    let format = format_of(kind, machine);
    match op {
        UnOp::Neg => computed(BinOp::Sub, kind, machine, Number::Natural(0), n),
        UnOp::Not => Ok(Number::Natural(if is_zero(n) { 1 } else { 0 })),
        UnOp::Compl => Ok(complemented(format.signed, format.width, n)),
    }
}

/// The number converted to an integer type (C11 6.3.1.2 and 6.3.1.3).
pub fn converted(kind: IntKind, machine: Machine, n: Number) -> Number
    ensures { number_of result ≡ operators.converted kind machine (number_of n) }
{
    if kind == IntKind::Bool {
        return Number::Natural(if is_zero(n) { 0 } else { 1 });
    }
    let bits = 8 * size_of_kind(kind, machine);
    signed_number(is_signed(kind), bits, pattern_of(bits, n))
}

/// The number as an address.
pub fn address_number(machine: Machine, n: Number) -> Number
    ensures { number_of result ≡ conversions.address_number machine (number_of n) }
{
    let bits = 8 * size_of_scalar(Scalar::Pointer, machine);
    Number::Natural(pattern_of(bits, n))
}

/// So many elements in bytes.
fn scaled(count: Number, size: u64) -> i128
    requires { size ≤ 2 ^ 62 }
    ensures value { result ≡ number_of count *ℤ pos size }
    ensures least { neg_ℤ (pos (2 ^ 126)) ≤ℤ result }
    ensures greatest { result ≤ℤ pos (2 ^ 126) }
{
    wide(count) * size as i128
}

/// The pattern of so many bits that stands for any number.
pub fn pattern_of_wide(bits: u32, n: i128) -> u64
    requires { bits ≤ 64 }
    ensures { result ≡ integers.residue (2 ^ bits) n }
{
    n.rem_euclid(patterns(bits) as i128) as u64
}

/// The address that a number is.
fn wrapped(machine: Machine, n: i128) -> Number
    ensures { number_of result ≡ conversions.address_number machine n }
{
    let bits = 8 * size_of_scalar(Scalar::Pointer, machine);
    Number::Natural(n.rem_euclid(patterns(bits) as i128) as u64)
}

/// The address so many bytes behind another.
pub fn number_behind(machine: Machine, n: Number, bytes: u64) -> Number
    requires { bytes ≤ 2 ^ 62 }
    ensures { number_of result ≡ conversions.address_number machine (number_of n +ℤ pos bytes) }
{
    wrapped(machine, wide(n) + bytes as i128)
}

/// The address so many elements behind another, or, `true`, before it.
pub fn moved_number(back: bool, machine: Machine, size: u64, n: Number, count: Number) -> Number
    requires { size ≤ 2 ^ 62 }
    ensures { number_of result ≡ conversions.address_number machine (cond back (number_of n -ℤ number_of count *ℤ pos size) (number_of n +ℤ number_of count *ℤ pos size)) }
{
    let step = scaled(count, size);
    if back {
        wrapped(machine, wide(n) - step)
    } else {
        wrapped(machine, wide(n) + step)
    }
}

/// A comparison of two numbers; no other operator compares.
pub fn compared(op: BinOp, a: Number, b: Number) -> bool
    ensures { result ≡ pointers.compared op (number_of a) (number_of b) }
{
    let (a, b) = (wide(a), wide(b));
    match op {
        BinOp::Lt => a < b,
        BinOp::Le => a <= b,
        BinOp::Gt => b < a,
        BinOp::Ge => b <= a,
        BinOp::Eq => a == b,
        BinOp::Ne => a != b,
        BinOp::Add | BinOp::Sub | BinOp::Mul | BinOp::Div | BinOp::Rem => false,
        BinOp::And | BinOp::Or | BinOp::Xor | BinOp::Shl | BinOp::Shr => false,
    }
}

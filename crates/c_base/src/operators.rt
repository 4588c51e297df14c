//! C's operators on single numbers (C11 6.5).

ghost use Rattle.std.specs.Prelude.{◌≡◌, ◌<◌, ◌≤◌, ◌^◌, pos, ◌≤ℤ◌, ◌<ℤ◌, ◌*ℤ◌, cond, ◌&&◌, ◌||◌, unsigned_abs, IfOk, IfSome};
ghost use Rattle.c_base.specs.Integers as integers;
ghost use Rattle.c_base.specs.Integers.{FitsKind};
ghost use Rattle.c_base.specs.Operators as operators;
ghost use Rattle.c_base.specs.Wide.{IsWide, IsOperand};

use crate::format::{Format, format_of, power};
use crate::integer::{IntKind, Machine};
use crate::kind::Kind;

/// C's unary operators on numbers (C11 6.5.3.3): `-`, `!` and `~`. The operand stands promoted.
#[derive(Clone, Copy, Debug, PartialEq, Eq)]
pub enum UnOp {
    Neg,
    Not,
    Compl,
}

/// C's binary operators (C11 6.5.5 to 6.5.12). Their operands stand converted to one type, but for the count of a shift,
/// which has a type of its own (C11 6.5.7p3).
#[derive(Clone, Copy, Debug, PartialEq, Eq)]
pub enum BinOp {
    Add,
    Sub,
    Mul,
    Div,
    Rem,
    And,
    Or,
    Xor,
    Shl,
    Shr,
    Lt,
    Le,
    Gt,
    Ge,
    Eq,
    Ne,
}

/// C's relational and equality operators (C11 6.5.8 and 6.5.9).
#[derive(Clone, Copy, Debug, PartialEq, Eq)]
pub enum Rel {
    Lt,
    Le,
    Gt,
    Ge,
    Eq,
    Ne,
}

/// 2 to the `exponent`, among the signed numbers.
fn signed_power(exponent: u32) -> i128
    requires { exponent ≤ 64 }
    ensures value { result ≡ pos (2 ^ exponent) }
    ensures some { pos 0 <ℤ result }
    ensures small { result ≤ℤ pos (2 ^ 64) }
{
    power(exponent) as i128
}

fn fits(format: Format, n: i128) -> bool
    ensures { result ≡ integers.fits_bits format.signed format.width n }
{
    if format.signed {
        let half = signed_power(format.width - 1);
        -half <= n && n < half
    } else {
        0 <= n && n < signed_power(format.width)
    }
}

/// The number from 0 on below 2 to the width that differs from `n` by a multiple of it.
fn residue(format: Format, n: i128) -> u128
    ensures value { result ≡ integers.residue (2 ^ format.width) n }
    ensures below { result < 2 ^ format.width }
    ensures small { result < 2 ^ 64 }
{
    n.rem_euclid(signed_power(format.width)) as u128
}

/// The number of the type that is the result, or the kind where there is none.
fn in_type(kind: Kind, format: Format, n: i128) -> Result<i128, Kind>
    ensures { result ≡ operators.in_type kind format.signed format.width n }
{
    if fits(format, n) {
        Ok(n)
    } else if format.signed {
        Err(kind)
    } else {
        Ok(residue(format, n) as i128)
    }
}

/// The same of a product.
fn product(kind: Kind, format: Format, a: i128, b: i128) -> Result<i128, Kind>
    ensures { result ≡ operators.in_type kind format.signed format.width (a *ℤ b) }
{
    if format.signed {
        match a.checked_mul(b) {
            Some(n) => in_type(kind, format, n),
            None => Err(kind),
        }
    } else {
        let n = residue(format, a) * residue(format, b);
        Ok((n % signed_power(format.width) as u128) as i128)
    }
}

/// The number that a pattern of bits stands for.
fn from_pattern(format: Format, pattern: u128) -> i128
    requires { pattern < 2 ^ format.width }
    ensures { result ≡ integers.signed_number format.signed format.width pattern }
{
    let n = pattern as i128;
    if format.signed && signed_power(format.width - 1) <= n {
        n - signed_power(format.width)
    } else {
        n
    }
}

/// The number with all bits turned.
fn complement(format: Format, a: i128) -> i128
    ensures { result ≡ operators.complement format.signed format.width a }
{
    let ones = signed_power(format.width) as u128 - 1;
    from_pattern(format, ones - residue(format, a))
}

fn and(format: Format, a: i128, b: i128) -> i128
    ensures { result ≡ operators.on_bits (λ x y. x && y) format.signed format.width a b }
{
    from_pattern(format, residue(format, a) & residue(format, b))
}

fn or(format: Format, a: i128, b: i128) -> i128
    ensures { result ≡ operators.on_bits (λ x y. x || y) format.signed format.width a b }
{
    from_pattern(format, residue(format, a) | residue(format, b))
}

fn xor(format: Format, a: i128, b: i128) -> i128
    ensures { result ≡ operators.on_bits operators.xor format.signed format.width a b }
{
    from_pattern(format, residue(format, a) ^ residue(format, b))
}

fn quotient(format: Format, a: i128, b: i128) -> Result<i128, Kind>
    requires { IsWide a }
    ensures { result ≡ operators.quotient format.signed format.width a b }
{
    if b == 0 {
        return Err(Kind::DivisionByZero);
    }
    let n = a / b;
    if fits(format, n) {
        Ok(n)
    } else {
        Err(Kind::SignedOverflow)
    }
}

fn remainder(format: Format, a: i128, b: i128) -> Result<i128, Kind>
    requires { IsWide a }
    ensures { result ≡ operators.remainder format.signed format.width a b }
{
    if b == 0 {
        return Err(Kind::DivisionByZero);
    }
    if fits(format, a / b) {
        Ok(a % b)
    } else {
        Err(Kind::SignedOverflow)
    }
}

/// How far a shift goes, where it is defined.
fn count(format: Format, b: i128) -> Option<u32>
    ensures value { result ≡ cond (operators.is_count format.width b) (Some (unsigned_abs b)) None }
    ensures small { IfSome result (λ n. n < 64) }
{
    if 0 <= b && b < format.width as i128 {
        Some(b as u32)
    } else {
        None
    }
}

fn shifted_left(format: Format, a: i128, b: i128) -> Result<i128, Kind>
    ensures { result ≡ operators.shifted_left format.signed format.width a b }
{
    match count(format, b) {
        Some(count) => {
            if a < 0 {
                Err(Kind::Shift)
            } else {
                product(Kind::Shift, format, a, signed_power(count))
            }
        }
        None => Err(Kind::Shift),
    }
}

fn shifted_right(format: Format, a: i128, b: i128) -> Result<i128, Kind>
    requires { IsWide a }
    ensures { result ≡ operators.shifted_right format.width a b }
{
    match count(format, b) {
        Some(count) => Ok(a.div_euclid(signed_power(count))),
        None => Err(Kind::Shift),
    }
}

fn truth_number(truth: bool) -> i128
    ensures { result ≡ operators.truth_number truth }
{
    if truth { 1 } else { 0 }
}

fn operate(op: BinOp, format: Format, a: i128, b: i128) -> Result<i128, Kind>
    requires left { IsWide a }
    requires right { operators.OnRight op IsWide b }
    ensures { result ≡ operators.operated op format.signed format.width a b }
{
    match op {
        BinOp::Add => in_type(Kind::SignedOverflow, format, a + b),
        BinOp::Sub => in_type(Kind::SignedOverflow, format, a - b),
        BinOp::Mul => product(Kind::SignedOverflow, format, a, b),
        BinOp::Div => quotient(format, a, b),
        BinOp::Rem => remainder(format, a, b),
        BinOp::And => Ok(and(format, a, b)),
        BinOp::Or => Ok(or(format, a, b)),
        BinOp::Xor => Ok(xor(format, a, b)),
        BinOp::Shl => shifted_left(format, a, b),
        BinOp::Shr => shifted_right(format, a, b),
        BinOp::Lt => Ok(truth_number(a < b)),
        BinOp::Le => Ok(truth_number(a <= b)),
        BinOp::Gt => Ok(truth_number(b < a)),
        BinOp::Ge => Ok(truth_number(b <= a)),
        BinOp::Eq => Ok(truth_number(a == b)),
        BinOp::Ne => Ok(truth_number(a != b)),
    }
}

/// What the operator gives in the integer type, also for numbers that the type does not have.
pub fn compute(op: BinOp, k: IntKind, m: Machine, a: i128, b: i128) -> Result<i128, Kind>
    requires left { IsOperand a }
    requires right { IsOperand b }
    ensures value { result ≡ operators.applied op k m a b }
    ensures within { IfOk result IsOperand }
{
    operate(op, format_of(k, m), a, b)
}

/// What the operator gives in the integer type, or the kind of its undefined step (C11 6.5.5 to 6.5.12).
pub fn apply_binary(op: BinOp, k: IntKind, m: Machine, a: i128, b: i128) -> Result<i128, Kind>
    requires left { FitsKind k m a }
    requires right { operators.OnRight op (λ n. FitsKind k m n) b }
    ensures { result ≡ operators.applied op k m a b }
{
    operate(op, format_of(k, m), a, b)
}

/// The same of an operator with one operand (C11 6.5.3.3).
pub fn apply_unary(op: UnOp, k: IntKind, m: Machine, a: i128) -> Result<i128, Kind>
    requires { FitsKind k m a }
    ensures { result ≡ operators.applied_unary op k m a }
{
    let format = format_of(k, m);
    match op {
        UnOp::Neg => in_type(Kind::SignedOverflow, format, -a),
        UnOp::Not => Ok(truth_number(a == 0)),
        UnOp::Compl => Ok(complement(format, a)),
    }
}

/// The number as a value of the integer type (C11 6.3.1.2 and 6.3.1.3).
pub fn convert(k: IntKind, m: Machine, a: i128) -> i128
    ensures { result ≡ operators.converted k m a }
{
    if k == IntKind::Bool {
        return truth_number(a != 0);
    }
    let format = format_of(k, m);
    from_pattern(format, residue(format, a))
}

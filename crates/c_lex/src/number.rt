//! Integer and floating constants (C11 6.4.4.1, 6.4.4.2).
ghost use Rattle.std.specs.Prelude.{◌≡◌, ◌≤◌, length};
ghost use Rattle.c_lex.specs.Numbers.{is_digit_of, base, digit_value, digits_at, value_of, length_of, suffix_of, constant, constant_with, begins_hexadecimal, integer_of, ends_floating, has_exponent, exponent_digits, exponent_letter, floating_tail, floating, is_floating, is_l, is_u, is_f, with_length};

use crate::bytes::{before, behind, byte_at, is_digit_byte, is_sign_byte};
use c_base::token::{IntegerConstant, Length, Radix};

/// What the suffix of an integer constant says.
#[derive(Clone, Copy)]
pub struct Suffix {
    pub unsigned: bool,
    pub length: Length,
}

fn is_digit_in(radix: Radix, byte: u8) -> bool
    ensures { result ≡ is_digit_of radix byte }
{
    match radix {
        Radix::Octal => byte >= b'0' && byte <= b'7',
        Radix::Decimal => is_digit_byte(byte),
        Radix::Hexadecimal => is_digit_byte(byte)
            || (byte >= b'a' && byte <= b'f')
            || (byte >= b'A' && byte <= b'F'),
    }
}

fn base_of(radix: Radix) -> u128
    ensures value { result ≡ base radix }
    ensures some { 8 ≤ result }
    ensures few { result ≤ 16 }
{
    match radix {
        Radix::Octal => 8,
        Radix::Decimal => 10,
        Radix::Hexadecimal => 16,
    }
}

fn value_of_digit(byte: u8) -> u8
    ensures { result ≡ digit_value byte }
{
    if byte >= b'a' {
        return byte - 87;
    }
    if byte >= b'A' {
        return byte - 55;
    }
    byte.saturating_sub(b'0')
}

/// How many digits stand at the front.
#[tactic(auto, unfolding(crate::specs::Numbers::digits_at))]
pub fn count_digits(radix: Radix, bytes: &[u8]) -> usize
    ensures value { result ≡ digits_at radix bytes.now }
    ensures within { result ≤ length bytes.now }
{
    let mut count = 0;
    for byte in bytes {
        if !is_digit_in(radix, *byte) {
            return count;
        }
        count += 1;
    }
    count
}

/// The number that digits write, where it is below 2^128.
#[tactic(auto, unfolding(crate::specs::Numbers::value_of))]
pub fn read_digits(radix: Radix, digits: &[u8]) -> Option<u128>
    ensures { result ≡ value_of radix digits.now }
{
    let base = base_of(radix);
    let mut value: u128 = 0;
    for byte in digits {
        let digit = u128::from(value_of_digit(*byte));
        if value > (u128::MAX - digit) / base {
            return None;
        }
        value = value * base + digit;
    }
    Some(value)
}

fn is_long_letter(byte: u8) -> bool
    ensures { result ≡ is_l byte }
{
    byte == b'l' || byte == b'L'
}

fn is_unsigned_letter(byte: u8) -> bool
    ensures { result ≡ is_u byte }
{
    byte == b'u' || byte == b'U'
}

// The part of a suffix that is about length.
#[tactic(auto, unfolding(crate::specs::Numbers::length_of))]
fn read_length(text: &[u8]) -> Option<Length>
    ensures { result ≡ length_of text.now }
{
    let first = byte_at(text, 0);
    if text.len() == 0 {
        return Some(Length::Plain);
    }
    if !is_long_letter(first) {
        return None;
    }
    if text.len() == 1 {
        return Some(Length::Long);
    }
    if text.len() != 2 {
        return None;
    }
    if byte_at(text, 1) == first {
        Some(Length::LongLong)
    } else {
        None
    }
}

fn suffix_with(unsigned: bool, length: Option<Length>) -> Option<Suffix>
    ensures { result ≡ with_length unsigned length }
{
    match length {
        None => None,
        Some(length) => Some(Suffix { unsigned, length }),
    }
}

/// The suffix of an integer constant: at most one `u`, before or behind `l` or `ll`, in either case, but not `lL`.
#[tactic(auto, unfolding(crate::specs::Numbers::suffix_of))]
fn read_suffix(text: &[u8]) -> Option<Suffix>
    ensures { result ≡ suffix_of text.now }
{
    if is_unsigned_letter(byte_at(text, 0)) {
        return suffix_with(true, read_length(behind(text, 1)));
    }
    let last = text.len().saturating_sub(1);
    if is_unsigned_letter(byte_at(text, last)) {
        return suffix_with(true, read_length(before(text, last)));
    }
    suffix_with(false, read_length(text))
}

fn integer_with(
    radix: Radix,
    value: Option<u128>,
    suffix: Option<Suffix>,
) -> Option<IntegerConstant>
    ensures { result ≡ constant_with radix value suffix }
{
    match value {
        None => None,
        Some(value) => match suffix {
            None => None,
            Some(suffix) => Some(IntegerConstant {
                value,
                radix,
                unsigned: suffix.unsigned,
                length: suffix.length,
            }),
        },
    }
}

// Digits with a suffix.
#[tactic(auto, unfolding(crate::specs::Numbers::constant))]
fn integer_in(radix: Radix, text: &[u8]) -> Option<IntegerConstant>
    ensures { result ≡ constant radix text.now }
{
    let count = count_digits(radix, text);
    if count == 0 {
        return None;
    }
    integer_with(
        radix,
        read_digits(radix, before(text, count)),
        read_suffix(behind(text, count)),
    )
}

fn is_hexadecimal(text: &[u8]) -> bool
    ensures { result ≡ begins_hexadecimal text.now }
{
    let mark = byte_at(text, 1);
    byte_at(text, 0) == b'0' && (mark == b'x' || mark == b'X')
}

/// The integer constant that the text is (C11 6.4.4.1), where it is one below 2^128.
#[tactic(auto, unfolding(crate::specs::Numbers::integer_of))]
pub fn read_integer(text: &[u8]) -> Option<IntegerConstant>
    ensures { result ≡ integer_of text.now }
{
    if is_hexadecimal(text) {
        return integer_in(Radix::Hexadecimal, behind(text, 2));
    }
    if byte_at(text, 0) == b'0' {
        return integer_in(Radix::Octal, text);
    }
    integer_in(Radix::Decimal, text)
}

fn is_floating_letter(byte: u8) -> bool
    ensures { result ≡ is_f byte }
{
    byte == b'f' || byte == b'F'
}

// Nothing, or a suffix of a floating constant.
#[tactic(auto, unfolding(crate::specs::Numbers::ends_floating))]
fn is_floating_end(text: &[u8]) -> bool
    ensures { result ≡ ends_floating text.now }
{
    let first = byte_at(text, 0);
    if text.len() == 0 {
        return true;
    }
    text.len() == 1 && (is_floating_letter(first) || is_long_letter(first))
}

// A sign or none, digits, and the end of the constant.
#[tactic(auto, unfolding(crate::specs::Numbers::exponent_digits))]
fn are_exponent_digits(text: &[u8]) -> bool
    ensures { result ≡ exponent_digits text.now }
{
    let count = count_digits(Radix::Decimal, text);
    count != 0 && is_floating_end(behind(text, count))
}

#[tactic(auto, unfolding(crate::specs::Numbers::has_exponent))]
fn is_exponent(radix: Radix, text: &[u8]) -> bool
    ensures { result ≡ has_exponent radix text.now }
{
    if !is_letter_of_exponent(radix, byte_at(text, 0)) {
        return false;
    }
    if is_sign_byte(byte_at(text, 1)) {
        are_exponent_digits(behind(text, 2))
    } else {
        are_exponent_digits(behind(text, 1))
    }
}

fn is_letter_of_exponent(radix: Radix, byte: u8) -> bool
    ensures { result ≡ exponent_letter radix byte }
{
    match radix {
        Radix::Hexadecimal => byte == b'p' || byte == b'P',
        Radix::Decimal => byte == b'e' || byte == b'E',
        Radix::Octal => false,
    }
}

// What stands behind the fraction: an exponent, or with decimal digits the end.
#[tactic(auto, unfolding(crate::specs::Numbers::floating_tail))]
fn is_behind_fraction(radix: Radix, text: &[u8]) -> bool
    ensures { result ≡ floating_tail radix text.now }
{
    if is_exponent(radix, text) {
        return true;
    }
    match radix {
        Radix::Hexadecimal => false,
        Radix::Decimal => is_floating_end(text),
        Radix::Octal => false,
    }
}

#[tactic(auto, unfolding(crate::specs::Numbers::floating))]
fn is_floating_in(radix: Radix, text: &[u8]) -> bool
    ensures { result ≡ floating radix text.now }
{
    let whole = count_digits(radix, text);
    let rest = behind(text, whole);
    if byte_at(rest, 0) != b'.' {
        return whole != 0 && is_exponent(radix, rest);
    }
    let fraction = behind(rest, 1);
    let count = count_digits(radix, fraction);
    if whole == 0 && count == 0 {
        return false;
    }
    is_behind_fraction(radix, behind(fraction, count))
}

/// Whether the text is a floating constant (C11 6.4.4.2).
#[tactic(auto, unfolding(crate::specs::Numbers::is_floating))]
pub fn is_floating_constant(text: &[u8]) -> bool
    ensures { result ≡ is_floating text.now }
{
    if is_hexadecimal(text) {
        return is_floating_in(Radix::Hexadecimal, behind(text, 2));
    }
    is_floating_in(Radix::Decimal, text)
}

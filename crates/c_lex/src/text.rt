//! Character constants and string literals (C11 6.4.4.4, 6.4.5).
ghost use Rattle.std.specs.Prelude.{◌≡◌, ◌+◌, ◌<◌, ◌≤◌, length, IfOk, IfSome};
ghost use Rattle.c_lex.specs.Texts.{simple, numeric, escape_hexadecimal, escape, contents, inner, IsWithin};

use crate::bytes::{before, behind, byte_at};
use crate::number::{count_digits, read_digits};
use c_base::token::Radix;
use sqlite_items::Items;
use std::alloc::{AllocError, Global};

/// An escape: the byte that it stands for, and how many bytes it has behind its `\`.
#[derive(Clone, Copy)]
pub struct Escaped {
    pub value: u8,
    pub length: usize,
}

#[tactic(auto, unfolding(crate::specs::Texts::simple))]
fn simple_escape(byte: u8) -> Option<u8>
    ensures { result ≡ simple byte }
{
    match byte {
        b'\'' => Some(b'\''),
        b'"' => Some(b'"'),
        b'?' => Some(b'?'),
        b'\\' => Some(b'\\'),
        b'a' => Some(7),
        b'b' => Some(8),
        b't' => Some(9),
        b'n' => Some(10),
        b'v' => Some(11),
        b'f' => Some(12),
        b'r' => Some(13),
        _ => None,
    }
}

fn numeric_escape(value: Option<u128>, length: usize) -> Option<Escaped>
    ensures value { result ≡ numeric value length }
    ensures same { IfSome result (λ e. e.length ≡ length) }
{
    match value {
        None => None,
        Some(value) => if value <= 255 {
            Some(Escaped {
                value: value as u8,
                length,
            })
        } else {
            None
        },
    }
}

#[tactic(auto, unfolding(crate::specs::Texts::escape_hexadecimal))]
fn hexadecimal_escape(text: &[u8]) -> Option<Escaped>
    ensures value { result ≡ escape_hexadecimal text.now }
    ensures within { IfSome result (λ e. e.length ≤ length text.now) }
{
    let digits = behind(text, 1);
    let count = count_digits(Radix::Hexadecimal, digits);
    if count == 0 {
        return None;
    }
    numeric_escape(
        read_digits(Radix::Hexadecimal, before(digits, count)),
        count + 1,
    )
}

/// The escape whose `\` stands directly before the text.
#[tactic(auto, unfolding(crate::specs::Texts::escape))]
pub fn read_escape(text: &[u8]) -> Option<Escaped>
    ensures value { result ≡ escape text.now }
    ensures within { IfSome result (λ e. e.length ≤ length text.now) }
{
    let count = count_digits(Radix::Octal, before(text, 3));
    if count > 0 {
        return numeric_escape(read_digits(Radix::Octal, before(text, count)), count);
    }
    let first = byte_at(text, 0);
    if first == b'x' {
        return hexadecimal_escape(text);
    }
    match simple_escape(first) {
        None => None,
        Some(value) => Some(Escaped { value, length: 1 }),
    }
}

/// What a text between quotes stands for: its bytes, or where the first escape that is wrong has its `\\`.
#[derive(Drop)]
pub enum Contents {
    Bytes(Items<u8>),
    WrongAt(usize),
}

/// What a text between quotes stands for.
pub fn read_contents(alloc: Global, text: &[u8]) -> Result<Contents, AllocError>
    ensures value { IfOk result (λ found. found ≡ contents 0 0 text.now) }
    ensures within { IfOk result (IsWithin (length text.now)) }
{
    let mut bytes = Vec::new(alloc);
    let mut next = 0;
    'reading: while next < text.len() {
        let byte = text[next];
        if byte == b'\\' {
            match read_escape(behind(text, next + 1)) {
                None => return Ok(Contents::WrongAt(next)),
                Some(escaped) => {
                    bytes.push(escaped.value)?;
                    next += 1 + escaped.length;
                }
            }
        } else {
            bytes.push(byte)?;
            next += 1;
        }
    }
    Ok(Contents::Bytes(Items::from_vec(bytes)))
}

/// What stands between the quotes of a constant.
pub fn between_quotes(text: &[u8]) -> &[u8]
    ensures value { result.now ≡ inner text.now }
    ensures within { 0 < length text.now → length result.now + 1 ≤ length text.now }
{
    before(behind(text, 1), text.len().saturating_sub(2))
}

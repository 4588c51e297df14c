//! Classes of bytes, and what stands at an index of some bytes.
ghost use Rattle.std.specs.Prelude.{◌≡◌, slice_index, take, drop};
ghost use Rattle.c_lex.specs.Bytes.{is_white, is_digit, is_capital, is_small, is_letter, is_name_start, is_name_byte, is_sign, is_exponent_letter};

/// White space (C11 6.4): space, tab, line feed, vertical tab, form feed, carriage return.
pub fn is_white_byte(byte: u8) -> bool
    ensures { result ≡ is_white byte }
{
    byte == b' ' || (byte >= 9 && byte <= 13)
}

/// A digit (C11 6.4.2.1).
pub fn is_digit_byte(byte: u8) -> bool
    ensures { result ≡ is_digit byte }
{
    byte >= b'0' && byte <= b'9'
}

fn is_small_letter(byte: u8) -> bool
    ensures { result ≡ is_small byte }
{
    byte >= b'a' && byte <= b'z'
}

fn is_capital_letter(byte: u8) -> bool
    ensures { result ≡ is_capital byte }
{
    byte >= b'A' && byte <= b'Z'
}

/// A letter of the alphabet, in either case.
pub fn is_letter_byte(byte: u8) -> bool
    ensures { result ≡ is_letter byte }
{
    is_small_letter(byte) || is_capital_letter(byte)
}

/// A byte with which a name may begin (C11 6.4.2.1).
pub fn begins_name(byte: u8) -> bool
    ensures { result ≡ is_name_start byte }
{
    is_letter_byte(byte) || byte == b'_'
}

/// A byte with which a name may go on (C11 6.4.2.1).
pub fn continues_name(byte: u8) -> bool
    ensures { result ≡ is_name_byte byte }
{
    begins_name(byte) || is_digit_byte(byte)
}

/// A sign.
pub fn is_sign_byte(byte: u8) -> bool
    ensures { result ≡ is_sign byte }
{
    byte == b'+' || byte == b'-'
}

/// The letters behind which a number may have a sign (C11 6.4.8).
pub fn begins_exponent(byte: u8) -> bool
    ensures { result ≡ is_exponent_letter byte }
{
    (byte == b'e' || byte == b'E') || (byte == b'p' || byte == b'P')
}

/// The byte at an index, and 0 past the end.
pub fn byte_at(bytes: &[u8], index: usize) -> u8
    ensures { result ≡ slice_index bytes.now index }
{
    if index < bytes.len() { bytes[index] } else { 0 }
}

/// The bytes from an index on; none past the end.
pub fn behind(bytes: &[u8], index: usize) -> &[u8]
    ensures { result.now ≡ drop index bytes.now }
{
    if index < bytes.len() {
        &bytes[index..]
    } else {
        &[]
    }
}

/// The bytes before an index.
pub fn before(bytes: &[u8], index: usize) -> &[u8]
    ensures { result.now ≡ take index bytes.now }
{
    if index < bytes.len() {
        &bytes[..index]
    } else {
        bytes
    }
}

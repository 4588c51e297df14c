//! Bytes as they are in every layout, and what cells hold of them.

use avalue::{AVal, Cellv};
use c_base::number::BaseId;
use offmap_tests::sample::{holds, is_one};

/// Where objects begin: the first, and how far apart they are.
#[derive(Clone, Copy, Drop)]
pub(crate) struct Layout {
    pub(crate) first: u64,
    pub(crate) apart: u64,
}

impl Layout {
    /// Objects stand close together.
    pub(crate) fn low() -> Layout {
        Layout {
            first: 4096,
            apart: 64,
        }
    }

    /// They stand far apart, and their addresses have other bytes.
    pub(crate) fn high() -> Layout {
        Layout {
            first: 0x7ff0_ffff_f000,
            apart: 0x1_0000_0010,
        }
    }

    fn address(&self, base: u32) -> u64 {
        self.first
            .wrapping_add(u64::from(base).wrapping_mul(self.apart))
    }
}

/// A byte of memory.
#[derive(Clone, Copy, PartialEq, Drop)]
pub(crate) enum Byte {
    Unwritten,
    Dead,
    Number(u8),
    /// This byte, from the lowest on, of the address of a byte of the base.
    Piece { base: u32, offset: u8, index: u8 },
}

impl Byte {
    /// What a load finds in a layout.
    fn shown(&self, layout: &Layout) -> u8 {
        match self {
            Byte::Unwritten => 0,
            Byte::Dead => 0,
            Byte::Number(n) => *n,
            Byte::Piece {
                base,
                offset,
                index,
            } => {
                let address = layout.address(*base).wrapping_add(u64::from(*offset));
                (address.wrapping_shr(u32::from(*index) * 8) & 0xff) as u8
            }
        }
    }

    fn base(&self) -> Option<u32> {
        match self {
            Byte::Piece { base, .. } => Some(*base),
            _ => None,
        }
    }

    fn is_known(&self) -> bool {
        match self {
            Byte::Unwritten => false,
            Byte::Dead => false,
            _ => true,
        }
    }

    fn is_unwritten(&self) -> bool {
        match self {
            Byte::Unwritten => true,
            _ => false,
        }
    }

    fn is_dead(&self) -> bool {
        match self {
            Byte::Dead => true,
            _ => false,
        }
    }
}

/// Some bits of all bytes, at most 64.
#[derive(Clone, Copy, Drop)]
pub(crate) struct Span {
    pub(crate) first: u64,
    pub(crate) bits: u64,
}

impl Span {
    /// The bytes in which they stand.
    fn touched<'a>(&self, bytes: &'a [Byte]) -> Option<&'a [Byte]> {
        let first = (self.first / 8) as usize;
        let end = (self.first.wrapping_add(self.bits).wrapping_add(7) / 8) as usize;
        bytes.get(first..end)
    }

    /// Their number in a layout.
    fn number(&self, layout: &Layout, touched: &[Byte]) -> u64 {
        let behind = number_in(layout, touched).wrapping_shr((self.first & 7) as u32);
        let number = (behind & 0xffff_ffff_ffff_ffff) as u64;
        if self.bits >= 64 {
            return number;
        }
        number & 1_u64.wrapping_shl((self.bits & 63) as u32).wrapping_sub(1)
    }
}

/// What the byte with this index shows, if it is there.
fn shown_at(layout: &Layout, bytes: &[Byte], at: usize) -> u8 {
    match bytes.get(at) {
        None => 0,
        Some(byte) => byte.shown(layout),
    }
}

/// The number of some bytes in a layout, the lowest first.
fn number_in(layout: &Layout, bytes: &[Byte]) -> u128 {
    let mut number = 0_u128;
    let mut i = bytes.len();
    while i > 0 {
        i -= 1;
        let shown = shown_at(layout, bytes, i);
        number = number.wrapping_shl(8).wrapping_add(u128::from(shown));
    }
    number
}

/// Whether the cell has the flags of all bytes that show no number.
fn has_flags(cell: &Cellv, bytes: &[Byte]) -> bool {
    for byte in bytes {
        if byte.is_unwritten() && !cell.uninit {
            return false;
        }
        if byte.is_dead() && !cell.dead {
            return false;
        }
    }
    true
}

fn are_known(bytes: &[Byte]) -> bool {
    for byte in bytes {
        if !byte.is_known() {
            return false;
        }
    }
    true
}

fn are_plain(bytes: &[Byte]) -> bool {
    for byte in bytes {
        if byte.base().is_some() {
            return false;
        }
    }
    true
}

fn are_unwritten(bytes: &[Byte]) -> bool {
    for byte in bytes {
        if !byte.is_unwritten() {
            return false;
        }
    }
    true
}

fn are_dead(bytes: &[Byte]) -> bool {
    for byte in bytes {
        if !byte.is_dead() {
            return false;
        }
    }
    true
}

/// Whether they are one whole address.
fn are_address(bytes: &[Byte]) -> bool {
    if bytes.len() != 8 {
        return false;
    }
    let Byte::Piece { base, offset, .. } = bytes[0] else {
        return false;
    };
    let mut index = 0_u8;
    for byte in bytes {
        let piece = Byte::Piece {
            base,
            offset,
            index,
        };
        if *byte != piece {
            return false;
        }
        index = index.wrapping_add(1);
    }
    true
}

/// Whether the value may have been made from all of the bytes' addresses.
fn has_bases(value: &AVal, bytes: &[Byte]) -> bool {
    for byte in bytes {
        if let Some(base) = byte.base() {
            if !value.has_base(BaseId(base)) {
                return false;
            }
        }
    }
    true
}

/// Whether one of the value's addresses is this number in the layout.
fn is_address(value: &AVal, layout: &Layout, number: u64) -> bool {
    for address in value.addresses() {
        let first = i128::from(layout.address(address.base().0));
        let offset = i128::from(number).wrapping_sub(first);
        if address.offsets().contains(offset) {
            return true;
        }
    }
    false
}

/// Whether an element of these bits with the cell may have them in the layout.
pub(crate) fn describes(cell: &Cellv, layout: &Layout, bytes: &[Byte], span: &Span) -> bool {
    let Some(here) = span.touched(bytes) else {
        return false;
    };
    if !has_flags(cell, here) {
        return false;
    }
    if !are_known(here) {
        return true;
    }
    let Some(value) = &cell.value else {
        return false;
    };
    if !value.members().is_empty() {
        return has_bases(value, here);
    }
    let number = span.number(layout, here);
    if are_plain(here) {
        return holds(cell, span.bits, number);
    }
    span.bits == 64 && has_bases(value, here) && is_address(value, layout, number)
}

/// Whether the value is one address with one offset.
fn is_one_address(cell: &Cellv) -> bool {
    let Some(value) = &cell.value else {
        return false;
    };
    let Some(numbers) = value.numbers() else {
        return false;
    };
    let addresses = value.addresses();
    if addresses.len() != 1 || numbers.bounds().is_some() {
        return false;
    }
    addresses[0].offsets().as_single().is_some()
}

/// Whether the cell has one number alone, and no address.
fn is_one_number(cell: &Cellv) -> bool {
    let Some(value) = &cell.value else {
        return false;
    };
    value.addresses().is_empty() && is_one(cell)
}

/// Whether the cell allows no more than these bits, where they are of one kind and an address is whole.
pub(crate) fn is_exact(cell: &Cellv, bytes: &[Byte], span: &Span) -> bool {
    let Some(here) = span.touched(bytes) else {
        return false;
    };
    if are_unwritten(here) {
        return cell.is_blank() && !cell.dead;
    }
    if are_dead(here) {
        return cell.is_blank() && !cell.uninit;
    }
    if !are_known(here) {
        return true;
    }
    if are_plain(here) {
        return !cell.uninit && !cell.dead && is_one_number(cell);
    }
    if are_address(here) {
        return !cell.uninit && !cell.dead && is_one_address(cell);
    }
    true
}

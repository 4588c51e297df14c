//! The objects and functions of these programs, each named by one letter.

use crate::types::{INT, Of};
use c_base::integer::IntKind;
use c_base::number::BaseId;
use c_program::base::BaseSort;

/// An object or a function: its letter, type, size in bytes and sort; what each byte of a static object holds.
#[derive(Clone, Copy)]
pub struct Entry {
    pub name: u8,
    pub of: Of,
    pub size: u64,
    pub sort: BaseSort,
    pub bytes: i128,
}

fn local(name: u8, of: Of, size: u64) -> Entry {
    Entry {
        name,
        of,
        size,
        sort: BaseSort::Local,
        bytes: 0,
    }
}

fn row(name: u8, of: Of, size: u64, sort: BaseSort, bytes: i128) -> Entry {
    Entry {
        name,
        of,
        size,
        sort,
        bytes,
    }
}

/// `m` is main, `k` a constant, `v` volatile, and `w` a string literal. A struct has a char and an int, and 8 bytes; a union has an int and four
/// chars.
pub fn entries() -> [Entry; 24] {
    [
        row(b'm', Of::Function, 1, BaseSort::Func, 0),
        local(b'x', INT, 4),
        local(b'y', INT, 4),
        local(b'z', INT, 4),
        local(b'p', Of::ToInt, 8),
        local(b'a', Of::ThreeInts, 12),
        row(b'f', Of::Function, 1, BaseSort::Func, 0),
        row(b'n', INT, 4, BaseSort::Formal, 0),
        row(b'h', Of::StructFunction, 1, BaseSort::Func, 0),
        row(b'r', Of::Struct, 8, BaseSort::Formal, 0),
        local(b's', Of::Struct, 8),
        local(b't', Of::Struct, 8),
        local(b'u', Of::Union, 4),
        local(b'c', Of::Int(IntKind::Char), 1),
        local(b'd', Of::FourChars, 4),
        local(b'i', Of::Int(IntKind::UInt), 4),
        local(b'l', Of::Int(IntKind::Long), 8),
        local(b'q', Of::ToFunction, 8),
        local(b'e', Of::ToChar, 8),
        row(b'g', INT, 4, BaseSort::Static, 1),
        row(b'k', INT, 4, BaseSort::Static, 2),
        row(b'v', INT, 4, BaseSort::Static, 3),
        local(b'b', Of::ManyInts, 40_000),
        row(b'w', Of::FourChars, 4, BaseSort::Text, 98),
    ]
}

/// The number of the object or function with the name.
pub fn base_named(letter: u8) -> BaseId {
    let mut at = 0;
    for entry in &entries() {
        if entry.name == letter {
            return BaseId(at);
        }
        at = at.wrapping_add(1);
    }
    BaseId(0)
}

/// The type of the object or function with the name.
pub fn of_letter(letter: u8) -> Of {
    for entry in &entries() {
        if entry.name == letter {
            return entry.of;
        }
    }
    INT
}

/// The size in bytes of the object with the number.
pub fn size_of(base: BaseId) -> u64 {
    match entries().get(base.0 as usize) {
        None => 0,
        Some(entry) => entry.size,
    }
}

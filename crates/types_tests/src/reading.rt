//! Types by short texts: `v` is void; `b`, `c`, `s`, `i`, `u`, `l` are integer types; `*` is a pointer to what follows, a digit an array
//! of so many of what follows, a capital a struct or union, `f` a function without parameters that gives what follows, and `g` the same
//! with more arguments.

use c_base::integer::IntKind;
use c_types::ctype::{CType, FuncType};
use sqlite_items::{Boxed, Items};
use std::alloc::{AllocError, Global};

fn function(alloc: Global, gives: CType, variadic: bool) -> Result<CType, AllocError> {
    let func = FuncType {
        result: gives,
        params: Items::new(alloc),
        variadic,
    };
    Ok(CType::Func(Boxed::new(alloc, func)?))
}

fn wrapped(alloc: Global, byte: u8, inner: CType) -> Result<CType, AllocError> {
    if byte.is_ascii_digit() {
        let count = byte.wrapping_sub(b'0') as u64;
        return Ok(CType::Array(Boxed::new(alloc, inner)?, count));
    }
    if byte.is_ascii_uppercase() {
        return Ok(CType::Comp(byte.wrapping_sub(b'A') as u32));
    }
    match byte {
        b'b' => Ok(CType::Int(IntKind::Bool)),
        b'c' => Ok(CType::Int(IntKind::Char)),
        b's' => Ok(CType::Int(IntKind::Short)),
        b'i' => Ok(CType::Int(IntKind::Int)),
        b'u' => Ok(CType::Int(IntKind::UInt)),
        b'l' => Ok(CType::Int(IntKind::Long)),
        b'*' => Ok(CType::Ptr(Boxed::new(alloc, inner)?)),
        b'f' => function(alloc, inner, false),
        b'g' => function(alloc, inner, true),
        _ => Ok(CType::Void),
    }
}

pub fn type_from(alloc: Global, text: &[u8]) -> Result<CType, AllocError> {
    let mut t = CType::Void;
    for at in 0..text.len() {
        t = wrapped(alloc, text[text.len() - 1 - at], t)?;
    }
    Ok(t)
}

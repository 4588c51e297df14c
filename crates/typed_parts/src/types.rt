//! The types of the objects and values of these programs.

use c_base::integer::IntKind;
use c_types::ctype::{CType, FuncType};
use c_types::duplicate::Mem;
use sqlite_items::{Boxed, Items};
use std::alloc::Global;

/// A type by its name. `Struct` and `Union` are those of number 0 and 1; each function has one parameter.
#[derive(Clone, Copy, Debug, PartialEq, Eq)]
pub enum Of {
    Void,
    Int(IntKind),
    Struct,
    Union,
    ThreeInts,
    ManyInts,
    FourChars,
    Function,
    StructFunction,
    ToInt,
    ToChar,
    ToStruct,
    ToUnion,
    ToFunction,
    ToStructFunction,
}

pub const INT: Of = Of::Int(IntKind::Int);

/// What a pointer points to, the elements of an array, what a function gives; any other type as it is.
pub fn target(of: Of) -> Of {
    match of {
        Of::ThreeInts | Of::ManyInts | Of::Function | Of::ToInt => INT,
        Of::FourChars | Of::ToChar => Of::Int(IntKind::Char),
        Of::StructFunction | Of::ToStruct => Of::Struct,
        Of::ToUnion => Of::Union,
        Of::ToFunction => Of::Function,
        Of::ToStructFunction => Of::StructFunction,
        Of::Void | Of::Int(_) | Of::Struct | Of::Union => of,
    }
}

pub fn pointer_to(of: Of) -> Of {
    match of {
        Of::Int(IntKind::Char) => Of::ToChar,
        Of::Struct => Of::ToStruct,
        Of::Union => Of::ToUnion,
        Of::Function => Of::ToFunction,
        Of::StructFunction => Of::ToStructFunction,
        _ => Of::ToInt,
    }
}

/// The type of a value that is held in a place of the type (C11 6.3.2.1).
pub fn loaded_of(of: Of) -> Of {
    if is_function(of) {
        return pointer_to(of);
    }
    match count_of(of) {
        Some(_) => pointer_to(target(of)),
        None => of,
    }
}

pub fn is_pointer(of: Of) -> bool {
    match of {
        Of::ToInt | Of::ToChar | Of::ToStruct => true,
        Of::ToUnion | Of::ToFunction | Of::ToStructFunction => true,
        _ => false,
    }
}

pub fn is_function(of: Of) -> bool {
    match of {
        Of::Function | Of::StructFunction => true,
        _ => false,
    }
}

/// How many elements an array has.
pub fn count_of(of: Of) -> Option<u64> {
    match of {
        Of::ThreeInts => Some(3),
        Of::FourChars => Some(4),
        Of::ManyInts => Some(10_000),
        _ => None,
    }
}

/// A type without parts.
fn simple(of: Of) -> CType {
    match of {
        Of::Int(kind) => CType::Int(kind),
        Of::Struct => CType::Comp(0),
        Of::Union => CType::Comp(1),
        _ => CType::Void,
    }
}

fn function(alloc: Global, of: Of) -> Mem<CType> {
    let mut params = Items::new(alloc);
    params.push(simple(target(of)))?;
    let func = FuncType {
        result: simple(target(of)),
        params,
        variadic: false,
    };
    Ok(CType::Func(Boxed::new(alloc, func)?))
}

/// What is no pointer.
fn object_type(alloc: Global, of: Of) -> Mem<CType> {
    if is_function(of) {
        return function(alloc, of);
    }
    match count_of(of) {
        None => Ok(simple(of)),
        Some(count) => Ok(CType::Array(Boxed::new(alloc, simple(target(of)))?, count)),
    }
}

pub fn type_of(alloc: Global, of: Of) -> Mem<CType> {
    if !is_pointer(of) {
        return object_type(alloc, of);
    }
    let to = object_type(alloc, target(of))?;
    Ok(CType::Ptr(Boxed::new(alloc, to)?))
}

//! Types, structs and unions.

use c_base::integer::IntKind;
use c_base::name::Name;
use sqlite_items::{Boxed, Items};

/// A type without qualifiers (C11 6.2.5). Enumerations are `int`.
#[cycle(ctype)]
#[derive(Drop)]
pub enum CType {
    Void,
    Int(IntKind),
    Ptr(Boxed<CType>),
    /// An array of so many elements; of 0 where its bound isn't given (C11 6.7.6.2p4).
    Array(Boxed<CType>, u64),
    /// A struct or union, by its number among the composites.
    Comp(u32),
    Func(Boxed<FuncType>),
}

/// The type of a function with its adjusted parameters (C11 6.7.6.3).
#[cycle(ctype)]
#[derive(Drop)]
pub struct FuncType {
    pub result: CType,
    pub params: Items<CType>,
    /// Whether more arguments may follow.
    pub variadic: bool,
}

/// A struct or union (C11 6.7.2.1).
#[derive(Drop)]
pub struct Composite {
    pub name: Name,
    pub is_union: bool,
    /// Empty while it is incomplete.
    pub members: Items<Member>,
    /// What an object of it takes; none while it is incomplete.
    pub extent: Option<Extent>,
}

/// A member; that of an anonymous struct or union has an empty name (C11 6.7.2.1p13).
#[derive(Drop)]
pub struct Member {
    pub name: Name,
    pub ctype: CType,
    pub volatile: bool,
}

/// The structs and unions of a program, by number.
pub type Composites = Items<Composite>;

/// Bytes of an object, and of which number its place in a struct is a multiple.
#[derive(Clone, Copy, Debug, PartialEq, Eq)]
pub struct Extent {
    pub size: u64,
    pub align: u64,
}

//! Initial contents and initialisers (C11 6.7.9).
ghost use Rattle.std.specs.Prelude.{◌≡◌, IfOk};

use c_base::number::BaseId;
use c_typed_expr::expr::{TExpr, TLval};
use c_types::ctype::CType;
use c_types::duplicate::{Duplicate, Mem};
use sqlite_items::{Boxed, Items};
use std::alloc::Global;

/// Equal elements of an initial content, one after the other from bit `low` on.
#[derive(Clone, Copy, Debug, PartialEq, Eq)]
pub struct ImageItem {
    pub low: u64,
    /// Bits of one element, from 1 to 64.
    pub bits: u32,
    /// How many elements, at least 1.
    pub count: u64,
    pub number: i128,
    /// The base to whose address the number is added, where it is an address.
    pub base: Option<BaseId>,
}

/// An initial content; bits that no item names are left as they are.
pub type Image = Items<ImageItem>;

impl Duplicate for ImageItem {
    fn duplicate(&self, _alloc: Global) -> Mem<ImageItem> {
        Ok(*self)
    }
}

/// An initialiser of an automatic object: what is made 0 first, since no item names it, and the items in source order.
#[derive(Drop)]
pub struct TInit {
    pub cleared: Image,
    pub items: Items<TInitItem>,
}

/// One item of an initialiser.
#[derive(Drop)]
pub enum TInitItem {
    /// A value for a part of the object, which `place` names, of the type.
    Value(Boxed<TLval>, CType, Boxed<TExpr>),
    /// A string literal in an array of characters (C11 6.7.9p14).
    Text(Image),
}

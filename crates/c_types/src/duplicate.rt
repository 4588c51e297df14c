//! Copies of boxes, options and lists.
ghost use Rattle.std.specs.Prelude.{◌≡◌, IfOk};

use c_base::name::Name;
use c_base::number::BaseId;
use sqlite_items::{Boxed, Items};
use std::alloc::{AllocError, Global};

/// What a call gives that may run out of memory.
pub type Mem<T> = Result<T, AllocError>;

/// What has copies that take memory.
pub trait Duplicate: Sized + Drop {
    /// An equal value.
    fn duplicate(&self, alloc: Global) -> Mem<Self>
        ensures { IfOk result (λ copy. copy ≡ self.now) };
}

impl Duplicate for Name {
    fn duplicate(&self, alloc: Global) -> Mem<Name> {
        Name::from_bytes(alloc, self.as_bytes())
    }
}

impl Duplicate for BaseId {
    fn duplicate(&self, _alloc: Global) -> Mem<BaseId> {
        Ok(*self)
    }
}

impl<T: Duplicate> Duplicate for Boxed<T> {
    fn duplicate(&self, alloc: Global) -> Mem<Boxed<T>> {
        Boxed::new(alloc, self.get().duplicate(alloc)?)
    }
}

impl<T: Duplicate> Duplicate for Option<T> {
    fn duplicate(&self, alloc: Global) -> Mem<Option<T>> {
        match self {
            None => Ok(None),
            Some(value) => Ok(Some(value.duplicate(alloc)?)),
        }
    }
}

impl<T: Duplicate> Duplicate for Items<T> {
    fn duplicate(&self, alloc: Global) -> Mem<Items<T>> {
        let mut copies = Items::new(alloc);
        for each in self.as_slice() {
            copies.push(each.duplicate(alloc)?)?;
        }
        Ok(copies)
    }
}

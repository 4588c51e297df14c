//! Copies of types.
ghost use Rattle.std.specs.Prelude.{◌≡◌, IfOk};

use crate::ctype::{CType, Composite, FuncType, Member};
use crate::duplicate::{Duplicate, Mem};
use sqlite_items::{Boxed, Items};
use std::alloc::Global;

#[cycle(copying)]
fn boxed_type(alloc: Global, ctype: &Boxed<CType>) -> Mem<Boxed<CType>>
    ensures { IfOk result (λ copy. copy ≡ ctype.now) }
{
    Boxed::new(alloc, ctype.get().duplicate(alloc)?)
}

#[cycle(copying)]
fn boxed_function(alloc: Global, func: &Boxed<FuncType>) -> Mem<Boxed<FuncType>>
    ensures { IfOk result (λ copy. copy ≡ func.now) }
{
    Boxed::new(alloc, func.get().duplicate(alloc)?)
}

#[cycle(copying)]
fn copied_types(alloc: Global, all: &[CType]) -> Mem<Items<CType>>
    ensures { IfOk result (λ copies. copies ≡ all.now) }
{
    let mut copies = Items::new(alloc);
    for each in all {
        copies.push(each.duplicate(alloc)?)?;
    }
    Ok(copies)
}

impl CType {
    /// An equal value.
    #[cycle(copying)]
    pub fn duplicate(&self, alloc: Global) -> Mem<CType>
        ensures { IfOk result (λ copy. copy ≡ self.now) }
    {
        match self {
            CType::Void => Ok(CType::Void),
            CType::Int(kind) => Ok(CType::Int(*kind)),
            CType::Ptr(to) => Ok(CType::Ptr(boxed_type(alloc, to)?)),
            CType::Array(of, count) => Ok(CType::Array(boxed_type(alloc, of)?, *count)),
            CType::Comp(number) => Ok(CType::Comp(*number)),
            CType::Func(func) => Ok(CType::Func(boxed_function(alloc, func)?)),
        }
    }
}

impl FuncType {
    /// An equal value.
    #[cycle(copying)]
    pub fn duplicate(&self, alloc: Global) -> Mem<FuncType>
        ensures { IfOk result (λ copy. copy ≡ self.now) }
    {
        Ok(FuncType {
            result: self.result.duplicate(alloc)?,
            params: copied_types(alloc, self.params.as_slice())?,
            variadic: self.variadic,
        })
    }
}

impl Member {
    /// An equal value.
    pub fn duplicate(&self, alloc: Global) -> Mem<Member>
        ensures { IfOk result (λ copy. copy ≡ self.now) }
    {
        Ok(Member {
            name: self.name.duplicate(alloc)?,
            ctype: self.ctype.duplicate(alloc)?,
            volatile: self.volatile,
        })
    }
}

impl Composite {
    /// An equal value.
    pub fn duplicate(&self, alloc: Global) -> Mem<Composite>
        ensures { IfOk result (λ copy. copy ≡ self.now) }
    {
        Ok(Composite {
            name: self.name.duplicate(alloc)?,
            is_union: self.is_union,
            members: self.members.duplicate(alloc)?,
            extent: self.extent,
        })
    }
}

impl Duplicate for CType {
    fn duplicate(&self, alloc: Global) -> Mem<CType> {
        CType::duplicate(self, alloc)
    }
}

impl Duplicate for Member {
    fn duplicate(&self, alloc: Global) -> Mem<Member> {
        Member::duplicate(self, alloc)
    }
}

impl Duplicate for Composite {
    fn duplicate(&self, alloc: Global) -> Mem<Composite> {
        Composite::duplicate(self, alloc)
    }
}

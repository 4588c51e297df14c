//! Copies of statements and initialisers.
ghost use Rattle.std.specs.Prelude.{◌≡◌, IfOk};

use crate::init::{TInit, TInitItem};
use crate::stmt::{Numbered, TArm, TBlock, TLoop, TStmt};
use c_types::duplicate::{Duplicate, Mem};
use sqlite_items::{Boxed, Items};
use std::alloc::Global;

impl TInitItem {
    /// An equal value.
    pub fn duplicate(&self, alloc: Global) -> Mem<TInitItem>
        ensures { IfOk result (λ copy. copy ≡ self.now) }
    {
        match self {
            TInitItem::Value(place, t, e) => {
                let copy = place.duplicate(alloc)?;
                let value = e.duplicate(alloc)?;
                Ok(TInitItem::Value(copy, t.duplicate(alloc)?, value))
            }
            TInitItem::Text(image) => Ok(TInitItem::Text(image.duplicate(alloc)?)),
        }
    }
}

impl Duplicate for TInitItem {
    fn duplicate(&self, alloc: Global) -> Mem<TInitItem> {
        TInitItem::duplicate(self, alloc)
    }
}

impl TInit {
    /// An equal value.
    pub fn duplicate(&self, alloc: Global) -> Mem<TInit>
        ensures { IfOk result (λ copy. copy ≡ self.now) }
    {
        Ok(TInit {
            cleared: self.cleared.duplicate(alloc)?,
            items: self.items.duplicate(alloc)?,
        })
    }
}

impl Duplicate for TInit {
    fn duplicate(&self, alloc: Global) -> Mem<TInit> {
        TInit::duplicate(self, alloc)
    }
}

impl<E: Duplicate> Numbered<E> {
    /// An equal value.
    pub fn duplicate(&self, alloc: Global) -> Mem<Numbered<E>>
        ensures { IfOk result (λ copy. copy ≡ self.now) }
    {
        Ok(Numbered {
            id: self.id,
            value: self.value.duplicate(alloc)?,
        })
    }
}

impl<E: Duplicate> Duplicate for Numbered<E> {
    fn duplicate(&self, alloc: Global) -> Mem<Numbered<E>> {
        Numbered::duplicate(self, alloc)
    }
}

#[cycle(copying)]
fn boxed_stmt<E: Duplicate, I: Duplicate, P: Duplicate>(
    alloc: Global,
    stmt: &Boxed<TStmt<E, I, P>>,
) -> Mem<Boxed<TStmt<E, I, P>>>
    ensures { IfOk result (λ copy. copy ≡ stmt.now) }
{
    Boxed::new(alloc, stmt.get().duplicate(alloc)?)
}

#[cycle(copying)]
fn boxed_loop<E: Duplicate, I: Duplicate, P: Duplicate>(
    alloc: Global,
    body: &Boxed<TLoop<E, I, P>>,
) -> Mem<Boxed<TLoop<E, I, P>>>
    ensures { IfOk result (λ copy. copy ≡ body.now) }
{
    Boxed::new(alloc, body.get().duplicate(alloc)?)
}

#[cycle(copying)]
fn copied_stmts<E: Duplicate, I: Duplicate, P: Duplicate>(
    alloc: Global,
    all: &[TStmt<E, I, P>],
) -> Mem<Items<TStmt<E, I, P>>>
    ensures { IfOk result (λ copies. copies ≡ all.now) }
{
    let mut copies = Items::new(alloc);
    for each in all {
        copies.push(each.duplicate(alloc)?)?;
    }
    Ok(copies)
}

#[cycle(copying)]
fn copied_arms<E: Duplicate, I: Duplicate, P: Duplicate>(
    alloc: Global,
    all: &[TArm<E, I, P>],
) -> Mem<Items<TArm<E, I, P>>>
    ensures { IfOk result (λ copies. copies ≡ all.now) }
{
    let mut copies = Items::new(alloc);
    for each in all {
        copies.push(each.duplicate(alloc)?)?;
    }
    Ok(copies)
}

impl<E: Duplicate, I: Duplicate, P: Duplicate> TStmt<E, I, P> {
    /// An equal value.
    #[cycle(copying)]
    pub fn duplicate(&self, alloc: Global) -> Mem<TStmt<E, I, P>>
        ensures { IfOk result (λ copy. copy ≡ self.now) }
    {
        match self {
            TStmt::Expr(id, e) => Ok(TStmt::Expr(*id, e.duplicate(alloc)?)),
            TStmt::Init(id, base, init) => Ok(TStmt::Init(*id, *base, init.duplicate(alloc)?)),
            TStmt::Block(block) => Ok(TStmt::Block(block.duplicate(alloc)?)),
            TStmt::If(arms, otherwise) => {
                let copies = copied_arms(alloc, arms.as_slice())?;
                match otherwise {
                    None => Ok(TStmt::If(copies, None)),
                    Some(stmt) => Ok(TStmt::If(copies, Some(boxed_stmt(alloc, stmt)?))),
                }
            }
            TStmt::Loop(body) => Ok(TStmt::Loop(boxed_loop(alloc, body)?)),
            TStmt::Switch(id, e, body) => Ok(TStmt::Switch(
                *id,
                e.duplicate(alloc)?,
                boxed_stmt(alloc, body)?,
            )),
            TStmt::Case(value, body) => Ok(TStmt::Case(*value, boxed_stmt(alloc, body)?)),
            TStmt::Label(name, body) => Ok(TStmt::Label(
                name.duplicate(alloc)?,
                boxed_stmt(alloc, body)?,
            )),
            TStmt::Goto(id, name) => Ok(TStmt::Goto(*id, name.duplicate(alloc)?)),
            TStmt::Break(id) => Ok(TStmt::Break(*id)),
            TStmt::Continue(id) => Ok(TStmt::Continue(*id)),
            TStmt::Return(id, value) => Ok(TStmt::Return(*id, value.duplicate(alloc)?)),
            TStmt::Empty(id) => Ok(TStmt::Empty(*id)),
            TStmt::Assert(id, predicate) => Ok(TStmt::Assert(*id, predicate.duplicate(alloc)?)),
        }
    }
}

impl<E: Duplicate, I: Duplicate, P: Duplicate> TArm<E, I, P> {
    /// An equal value.
    #[cycle(copying)]
    pub fn duplicate(&self, alloc: Global) -> Mem<TArm<E, I, P>>
        ensures { IfOk result (λ copy. copy ≡ self.now) }
    {
        let cond = self.cond.duplicate(alloc)?;
        Ok(TArm {
            id: self.id,
            cond,
            body: self.body.duplicate(alloc)?,
        })
    }
}

impl<E: Duplicate, I: Duplicate, P: Duplicate> TBlock<E, I, P> {
    /// An equal value.
    #[cycle(copying)]
    pub fn duplicate(&self, alloc: Global) -> Mem<TBlock<E, I, P>>
        ensures { IfOk result (λ copy. copy ≡ self.now) }
    {
        let locals = self.locals.duplicate(alloc)?;
        Ok(TBlock {
            locals,
            stmts: copied_stmts(alloc, self.stmts.as_slice())?,
        })
    }
}

impl<E: Duplicate, I: Duplicate, P: Duplicate> TLoop<E, I, P> {
    /// An equal value.
    #[cycle(copying)]
    pub fn duplicate(&self, alloc: Global) -> Mem<TLoop<E, I, P>>
        ensures { IfOk result (λ copy. copy ≡ self.now) }
    {
        let first = self.first.duplicate(alloc)?;
        let invariants = self.invariants.duplicate(alloc)?;
        let cond = self.cond.duplicate(alloc)?;
        let next = self.next.duplicate(alloc)?;
        Ok(TLoop {
            sort: self.sort,
            first,
            id: self.id,
            invariants,
            cond,
            next,
            body: self.body.duplicate(alloc)?,
        })
    }
}

impl<E: Duplicate, I: Duplicate, P: Duplicate> Duplicate for TBlock<E, I, P> {
    fn duplicate(&self, alloc: Global) -> Mem<TBlock<E, I, P>> {
        TBlock::duplicate(self, alloc)
    }
}

//! Copies of the parts of simple programs.
ghost use Rattle.std.specs.Prelude.{◌≡◌, IfOk};
ghost use Rattle.c_simple.specs.declared.edge.Act.TheVariants as act;

use crate::edge::{Act, Edge, HeldSlot, PlaceInfo, Scope, SimpleFunction};
use crate::expr::{SExpr, SLval};
use c_types::duplicate::{Duplicate, Mem};
use sqlite_items::{Boxed, Items};
use std::alloc::Global;

#[cycle(copying)]
fn boxed_expr(alloc: Global, tree: &Boxed<SExpr>) -> Mem<Boxed<SExpr>>
    ensures { IfOk result (λ copy. copy ≡ tree.now) }
{
    Boxed::new(alloc, tree.get().duplicate(alloc)?)
}

#[cycle(copying)]
fn boxed_lvalue(alloc: Global, tree: &Boxed<SLval>) -> Mem<Boxed<SLval>>
    ensures { IfOk result (λ copy. copy ≡ tree.now) }
{
    Boxed::new(alloc, tree.get().duplicate(alloc)?)
}

impl SExpr {
    /// An equal value.
    #[cycle(copying)]
    pub fn duplicate(&self, alloc: Global) -> Mem<SExpr>
        ensures { IfOk result (λ copy. copy ≡ self.now) }
    {
        match self {
            SExpr::Const(n, kind) => Ok(SExpr::Const(*n, *kind)),
            SExpr::Addr(place) => Ok(SExpr::Addr(boxed_lvalue(alloc, place)?)),
            SExpr::Load(place) => Ok(SExpr::Load(boxed_lvalue(alloc, place)?)),
            SExpr::Held(slot) => Ok(SExpr::Held(*slot)),
            SExpr::Unary(op, t, e) => Ok(SExpr::Unary(
                *op,
                t.duplicate(alloc)?,
                boxed_expr(alloc, e)?,
            )),
            SExpr::Binary(op, t, a, b) => {
                let left = boxed_expr(alloc, a)?;
                let right = boxed_expr(alloc, b)?;
                Ok(SExpr::Binary(*op, t.duplicate(alloc)?, left, right))
            }
            SExpr::Convert(t, e) => Ok(SExpr::Convert(t.duplicate(alloc)?, boxed_expr(alloc, e)?)),
        }
    }
}

impl SLval {
    /// An equal value.
    #[cycle(copying)]
    pub fn duplicate(&self, alloc: Global) -> Mem<SLval>
        ensures { IfOk result (λ copy. copy ≡ self.now) }
    {
        match self {
            SLval::Var(base) => Ok(SLval::Var(*base)),
            SLval::Held(slot, t) => Ok(SLval::Held(*slot, t.duplicate(alloc)?)),
            SLval::Deref(e, t, volatile) => Ok(SLval::Deref(
                boxed_expr(alloc, e)?,
                t.duplicate(alloc)?,
                *volatile,
            )),
            SLval::Member(place, composite, member) => Ok(SLval::Member(
                boxed_lvalue(alloc, place)?,
                *composite,
                *member,
            )),
            SLval::Index(place, e) => Ok(SLval::Index(
                boxed_lvalue(alloc, place)?,
                boxed_expr(alloc, e)?,
            )),
        }
    }
}

impl Duplicate for SExpr {
    fn duplicate(&self, alloc: Global) -> Mem<SExpr> {
        SExpr::duplicate(self, alloc)
    }
}

fn copied_set(alloc: Global, place: &SLval, e: &SExpr) -> Mem<Act>
    ensures { IfOk result (λ copy. copy ≡ act.Set place.now e.now) }
{
    let copy = place.duplicate(alloc)?;
    Ok(Act::Set(copy, e.duplicate(alloc)?))
}

fn copied_copy(alloc: Global, to: &SLval, source: &SLval) -> Mem<Act>
    ensures { IfOk result (λ copy. copy ≡ act.Copy to.now source.now) }
{
    let copy = to.duplicate(alloc)?;
    Ok(Act::Copy(copy, source.duplicate(alloc)?))
}

impl Act {
    /// An equal value.
    pub fn duplicate(&self, alloc: Global) -> Mem<Act>
        ensures { IfOk result (λ copy. copy ≡ self.now) }
    {
        match self {
            Act::Set(place, e) => copied_set(alloc, place, e),
            Act::Hold(slot, e) => Ok(Act::Hold(*slot, e.duplicate(alloc)?)),
            Act::Release(slot) => Ok(Act::Release(*slot)),
            Act::Copy(to, source) => copied_copy(alloc, to, source),
            Act::Paste(base, image) => Ok(Act::Paste(*base, image.duplicate(alloc)?)),
            Act::Test(e, truth) => Ok(Act::Test(e.duplicate(alloc)?, *truth)),
            Act::Enter(bases) => Ok(Act::Enter(bases.duplicate(alloc)?)),
            Act::Leave(bases) => Ok(Act::Leave(bases.duplicate(alloc)?)),
            Act::Check(kind, predicate) => Ok(Act::Check(*kind, predicate.duplicate(alloc)?)),
            Act::Call(site, function, arguments, slot) => {
                let copies = arguments.duplicate(alloc)?;
                Ok(Act::Call(*site, function.duplicate(alloc)?, copies, *slot))
            }
            Act::Return(value, slot) => Ok(Act::Return(value.duplicate(alloc)?, *slot)),
            Act::Skip => Ok(Act::Skip),
        }
    }
}

impl Edge {
    /// An equal value.
    pub fn duplicate(&self, alloc: Global) -> Mem<Edge>
        ensures { IfOk result (λ copy. copy ≡ self.now) }
    {
        Ok(Edge {
            start: self.start,
            end: self.end,
            at: self.at,
            act: self.act.duplicate(alloc)?,
            callee: self.callee,
        })
    }
}

impl Duplicate for Edge {
    fn duplicate(&self, alloc: Global) -> Mem<Edge> {
        Edge::duplicate(self, alloc)
    }
}

impl HeldSlot {
    /// An equal value.
    pub fn duplicate(&self, alloc: Global) -> Mem<HeldSlot>
        ensures { IfOk result (λ copy. copy ≡ self.now) }
    {
        Ok(HeldSlot {
            slot: self.slot,
            ctype: self.ctype.duplicate(alloc)?,
        })
    }
}

impl Duplicate for HeldSlot {
    fn duplicate(&self, alloc: Global) -> Mem<HeldSlot> {
        HeldSlot::duplicate(self, alloc)
    }
}

impl Scope {
    /// An equal value.
    pub fn duplicate(&self, alloc: Global) -> Mem<Scope>
        ensures { IfOk result (λ copy. copy ≡ self.now) }
    {
        let live = self.live.duplicate(alloc)?;
        Ok(Scope {
            live,
            slots: self.slots.duplicate(alloc)?,
        })
    }
}

impl PlaceInfo {
    /// An equal value.
    pub fn duplicate(&self, alloc: Global) -> Mem<PlaceInfo>
        ensures { IfOk result (λ copy. copy ≡ self.now) }
    {
        let sites = Items::from_slice(alloc, self.sites.as_slice())?;
        Ok(PlaceInfo {
            at: self.at,
            arrival: self.arrival,
            sites,
            scope: self.scope.duplicate(alloc)?,
        })
    }
}

impl Duplicate for PlaceInfo {
    fn duplicate(&self, alloc: Global) -> Mem<PlaceInfo> {
        PlaceInfo::duplicate(self, alloc)
    }
}

impl SimpleFunction {
    /// An equal value.
    pub fn duplicate(&self, alloc: Global) -> Mem<SimpleFunction>
        ensures { IfOk result (λ copy. copy ≡ self.now) }
    {
        let places = self.places.duplicate(alloc)?;
        Ok(SimpleFunction {
            base: self.base,
            places,
            edges: self.edges.duplicate(alloc)?,
        })
    }
}

impl Duplicate for SimpleFunction {
    fn duplicate(&self, alloc: Global) -> Mem<SimpleFunction> {
        SimpleFunction::duplicate(self, alloc)
    }
}

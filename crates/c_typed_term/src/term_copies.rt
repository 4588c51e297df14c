//! Copies of terms.
ghost use Rattle.std.specs.Prelude.{◌≡◌, IfOk};

use crate::term::{TTerm, TTermOperand, TTermPlace, TTermRoot, TTermStep, TermSort};
use c_types::duplicate::{Duplicate, Mem};
use sqlite_items::{Boxed, Items};
use std::alloc::Global;

impl TermSort {
    /// An equal value.
    pub fn duplicate(&self, alloc: Global) -> Mem<TermSort>
        ensures { IfOk result (λ copy. copy ≡ self.now) }
    {
        match self {
            TermSort::Numbers => Ok(TermSort::Numbers),
            TermSort::Pointer(to) => Ok(TermSort::Pointer(to.duplicate(alloc)?)),
            TermSort::ToPointer(to) => Ok(TermSort::ToPointer(to.duplicate(alloc)?)),
            TermSort::Pointers(to) => Ok(TermSort::Pointers(to.duplicate(alloc)?)),
        }
    }
}

#[cycle(copying_terms)]
fn boxed_term(alloc: Global, term: &Boxed<TTerm>) -> Mem<Boxed<TTerm>>
    ensures { IfOk result (λ copy. copy ≡ term.now) }
{
    Boxed::new(alloc, term.get().duplicate(alloc)?)
}

#[cycle(copying_terms)]
fn boxed_place(alloc: Global, place: &Boxed<TTermPlace>) -> Mem<Boxed<TTermPlace>>
    ensures { IfOk result (λ copy. copy ≡ place.now) }
{
    Boxed::new(alloc, place.get().duplicate(alloc)?)
}

#[cycle(copying_terms)]
fn copied_operands(alloc: Global, all: &[TTermOperand]) -> Mem<Items<TTermOperand>>
    ensures { IfOk result (λ copies. copies ≡ all.now) }
{
    let mut copies = Items::new(alloc);
    for each in all {
        copies.push(each.duplicate(alloc)?)?;
    }
    Ok(copies)
}

#[cycle(copying_terms)]
fn copied_steps(alloc: Global, all: &[TTermStep]) -> Mem<Items<TTermStep>>
    ensures { IfOk result (λ copies. copies ≡ all.now) }
{
    let mut copies = Items::new(alloc);
    for each in all {
        copies.push(each.duplicate(alloc)?)?;
    }
    Ok(copies)
}

impl TTerm {
    /// An equal value.
    #[cycle(copying_terms)]
    pub fn duplicate(&self, alloc: Global) -> Mem<TTerm>
        ensures { IfOk result (λ copy. copy ≡ self.now) }
    {
        match self {
            TTerm::Number(n) => Ok(TTerm::Number(*n)),
            TTerm::Bound(depth) => Ok(TTerm::Bound(*depth)),
            TTerm::Null => Ok(TTerm::Null),
            TTerm::Negate(term) => Ok(TTerm::Negate(boxed_term(alloc, term)?)),
            TTerm::Run(first, more) => Ok(TTerm::Run(
                boxed_term(alloc, first)?,
                copied_operands(alloc, more.as_slice())?,
            )),
            TTerm::Value(place, t) => Ok(TTerm::Value(
                boxed_place(alloc, place)?,
                t.duplicate(alloc)?,
            )),
            TTerm::Address(place, t) => Ok(TTerm::Address(
                boxed_place(alloc, place)?,
                t.duplicate(alloc)?,
            )),
            TTerm::Decay(place, t) => Ok(TTerm::Decay(
                boxed_place(alloc, place)?,
                t.duplicate(alloc)?,
            )),
            TTerm::Cast(kind, term) => Ok(TTerm::Cast(*kind, boxed_term(alloc, term)?)),
            TTerm::At(when, term) => Ok(TTerm::At(*when, boxed_term(alloc, term)?)),
        }
    }
}

impl TTermOperand {
    /// An equal value.
    #[cycle(copying_terms)]
    pub fn duplicate(&self, alloc: Global) -> Mem<TTermOperand>
        ensures { IfOk result (λ copy. copy ≡ self.now) }
    {
        let sort = self.sort.duplicate(alloc)?;
        Ok(TTermOperand {
            operator: self.operator,
            sort,
            operand: self.operand.duplicate(alloc)?,
        })
    }
}

impl TTermPlace {
    /// An equal value.
    #[cycle(copying_terms)]
    pub fn duplicate(&self, alloc: Global) -> Mem<TTermPlace>
        ensures { IfOk result (λ copy. copy ≡ self.now) }
    {
        let steps = copied_steps(alloc, self.steps.as_slice())?;
        Ok(TTermPlace {
            root: self.root.duplicate(alloc)?,
            steps,
        })
    }
}

impl TTermRoot {
    /// An equal value.
    #[cycle(copying_terms)]
    pub fn duplicate(&self, alloc: Global) -> Mem<TTermRoot>
        ensures { IfOk result (λ copy. copy ≡ self.now) }
    {
        match self {
            TTermRoot::Object(base) => Ok(TTermRoot::Object(*base)),
            TTermRoot::Formal(base) => Ok(TTermRoot::Formal(*base)),
            TTermRoot::Deref(term, t) => Ok(TTermRoot::Deref(
                boxed_term(alloc, term)?,
                t.duplicate(alloc)?,
            )),
            TTermRoot::Result(t) => Ok(TTermRoot::Result(t.duplicate(alloc)?)),
            TTermRoot::Slot(slot, t) => Ok(TTermRoot::Slot(*slot, t.duplicate(alloc)?)),
        }
    }
}

impl TTermStep {
    /// An equal value.
    #[cycle(copying_terms)]
    pub fn duplicate(&self, alloc: Global) -> Mem<TTermStep>
        ensures { IfOk result (λ copy. copy ≡ self.now) }
    {
        match self {
            TTermStep::Member(composite, member) => Ok(TTermStep::Member(*composite, *member)),
            TTermStep::Element(term, t, count) => Ok(TTermStep::Element(
                boxed_term(alloc, term)?,
                t.duplicate(alloc)?,
                *count,
            )),
            TTermStep::Follow(t) => Ok(TTermStep::Follow(t.duplicate(alloc)?)),
            TTermStep::Beyond(term, t) => Ok(TTermStep::Beyond(
                boxed_term(alloc, term)?,
                t.duplicate(alloc)?,
            )),
        }
    }
}

impl Duplicate for TTerm {
    fn duplicate(&self, alloc: Global) -> Mem<TTerm> {
        TTerm::duplicate(self, alloc)
    }
}

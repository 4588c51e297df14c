//! Copies of predicates and contracts.
ghost use Rattle.std.specs.Prelude.{◌≡◌, IfOk};

use crate::contract::{TAssigns, TBehaviour, TContract};
use crate::predicate::{Quantified, TPointers, TPred, TRange, TRelation};
use c_types::duplicate::{Duplicate, Mem};
use sqlite_items::{Boxed, Items};
use std::alloc::Global;

impl TRange {
    /// An equal value.
    pub fn duplicate(&self, alloc: Global) -> Mem<TRange>
        ensures { IfOk result (λ copy. copy ≡ self.now) }
    {
        let low = self.low.duplicate(alloc)?;
        Ok(TRange {
            low,
            high: self.high.duplicate(alloc)?,
        })
    }
}

impl Duplicate for TRange {
    fn duplicate(&self, alloc: Global) -> Mem<TRange> {
        TRange::duplicate(self, alloc)
    }
}

impl TPointers {
    /// An equal value.
    pub fn duplicate(&self, alloc: Global) -> Mem<TPointers>
        ensures { IfOk result (λ copy. copy ≡ self.now) }
    {
        let ctype = self.ctype.duplicate(alloc)?;
        let first = self.first.duplicate(alloc)?;
        Ok(TPointers {
            first,
            ctype,
            range: self.range.duplicate(alloc)?,
        })
    }
}

impl Duplicate for TPointers {
    fn duplicate(&self, alloc: Global) -> Mem<TPointers> {
        TPointers::duplicate(self, alloc)
    }
}

impl TRelation {
    /// An equal value.
    pub fn duplicate(&self, alloc: Global) -> Mem<TRelation>
        ensures { IfOk result (λ copy. copy ≡ self.now) }
    {
        let sort = self.sort.duplicate(alloc)?;
        Ok(TRelation {
            relation: self.relation,
            sort,
            right: self.right.duplicate(alloc)?,
        })
    }
}

impl Duplicate for TRelation {
    fn duplicate(&self, alloc: Global) -> Mem<TRelation> {
        TRelation::duplicate(self, alloc)
    }
}

#[cycle(copying_predicates)]
fn boxed_predicate(alloc: Global, predicate: &Boxed<TPred>) -> Mem<Boxed<TPred>>
    ensures { IfOk result (λ copy. copy ≡ predicate.now) }
{
    Boxed::new(alloc, predicate.get().duplicate(alloc)?)
}

#[cycle(copying_predicates)]
fn boxed_quantified(alloc: Global, quantified: &Boxed<Quantified>) -> Mem<Boxed<Quantified>>
    ensures { IfOk result (λ copy. copy ≡ quantified.now) }
{
    Boxed::new(alloc, quantified.get().duplicate(alloc)?)
}

#[cycle(copying_predicates)]
fn copied_predicates(alloc: Global, all: &[TPred]) -> Mem<Items<TPred>>
    ensures { IfOk result (λ copies. copies ≡ all.now) }
{
    let mut copies = Items::new(alloc);
    for each in all {
        copies.push(each.duplicate(alloc)?)?;
    }
    Ok(copies)
}

impl TPred {
    /// An equal value.
    #[cycle(copying_predicates)]
    pub fn duplicate(&self, alloc: Global) -> Mem<TPred>
        ensures { IfOk result (λ copy. copy ≡ self.now) }
    {
        match self {
            TPred::Constant(truth) => Ok(TPred::Constant(*truth)),
            TPred::Relations(first, more) => {
                let relations = more.duplicate(alloc)?;
                Ok(TPred::Relations(first.duplicate(alloc)?, relations))
            }
            TPred::Not(p) => Ok(TPred::Not(boxed_predicate(alloc, p)?)),
            TPred::All(p, more) => Ok(TPred::All(
                boxed_predicate(alloc, p)?,
                copied_predicates(alloc, more.as_slice())?,
            )),
            TPred::Any(p, more) => Ok(TPred::Any(
                boxed_predicate(alloc, p)?,
                copied_predicates(alloc, more.as_slice())?,
            )),
            TPred::Implies(p, q) => Ok(TPred::Implies(
                boxed_predicate(alloc, p)?,
                boxed_predicate(alloc, q)?,
            )),
            TPred::Equivalent(p, more) => Ok(TPred::Equivalent(
                boxed_predicate(alloc, p)?,
                copied_predicates(alloc, more.as_slice())?,
            )),
            TPred::Choice(t, p, q) => {
                let then = boxed_predicate(alloc, p)?;
                let otherwise = boxed_predicate(alloc, q)?;
                Ok(TPred::Choice(t.duplicate(alloc)?, then, otherwise))
            }
            TPred::Access(sort, pointers) => Ok(TPred::Access(*sort, pointers.duplicate(alloc)?)),
            TPred::Separated(all) => Ok(TPred::Separated(all.duplicate(alloc)?)),
            TPred::Quantified(quantified) => Ok(TPred::Quantified(boxed_quantified(
                alloc, quantified,
            )?)),
        }
    }
}

impl Quantified {
    /// An equal value.
    #[cycle(copying_predicates)]
    pub fn duplicate(&self, alloc: Global) -> Mem<Quantified>
        ensures { IfOk result (λ copy. copy ≡ self.now) }
    {
        let low = self.low.duplicate(alloc)?;
        let high = self.high.duplicate(alloc)?;
        Ok(Quantified {
            for_all: self.for_all,
            kind: self.kind,
            low,
            above: self.above,
            high,
            below: self.below,
            body: boxed_predicate(alloc, &self.body)?,
        })
    }
}

impl Duplicate for TPred {
    fn duplicate(&self, alloc: Global) -> Mem<TPred> {
        TPred::duplicate(self, alloc)
    }
}

impl TAssigns {
    /// An equal value.
    pub fn duplicate(&self, alloc: Global) -> Mem<TAssigns>
        ensures { IfOk result (λ copy. copy ≡ self.now) }
    {
        let locations = self.locations.duplicate(alloc)?;
        Ok(TAssigns {
            result: self.result,
            locations,
            sources: self.sources.duplicate(alloc)?,
        })
    }
}

impl Duplicate for TAssigns {
    fn duplicate(&self, alloc: Global) -> Mem<TAssigns> {
        TAssigns::duplicate(self, alloc)
    }
}

impl TBehaviour {
    /// An equal value.
    pub fn duplicate(&self, alloc: Global) -> Mem<TBehaviour>
        ensures { IfOk result (λ copy. copy ≡ self.now) }
    {
        let assumptions = self.assumptions.duplicate(alloc)?;
        let preconditions = self.preconditions.duplicate(alloc)?;
        Ok(TBehaviour {
            assumptions,
            preconditions,
            postconditions: self.postconditions.duplicate(alloc)?,
        })
    }
}

impl Duplicate for TBehaviour {
    fn duplicate(&self, alloc: Global) -> Mem<TBehaviour> {
        TBehaviour::duplicate(self, alloc)
    }
}

impl TContract {
    /// An equal value.
    pub fn duplicate(&self, alloc: Global) -> Mem<TContract>
        ensures { IfOk result (λ copy. copy ≡ self.now) }
    {
        let preconditions = self.preconditions.duplicate(alloc)?;
        let assigns = self.assigns.duplicate(alloc)?;
        let postconditions = self.postconditions.duplicate(alloc)?;
        Ok(TContract {
            preconditions,
            assigns,
            postconditions,
            behaviours: self.behaviours.duplicate(alloc)?,
        })
    }
}

impl Duplicate for TContract {
    fn duplicate(&self, alloc: Global) -> Mem<TContract> {
        TContract::duplicate(self, alloc)
    }
}

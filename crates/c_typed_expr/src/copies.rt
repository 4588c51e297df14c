//! Copies of typed expressions.
ghost use Rattle.std.specs.Prelude.{◌≡◌, IfOk};

use crate::expr::{TCompound, TExpr, TLval, TOperand, TRoot, TStep};
use c_types::duplicate::{Duplicate, Mem};
use sqlite_items::{Boxed, Items};
use std::alloc::Global;

#[cycle(copying)]
fn boxed_expr(alloc: Global, tree: &Boxed<TExpr>) -> Mem<Boxed<TExpr>>
    ensures { IfOk result (λ copy. copy ≡ tree.now) }
{
    Boxed::new(alloc, tree.get().duplicate(alloc)?)
}

#[cycle(copying)]
fn boxed_lvalue(alloc: Global, tree: &Boxed<TLval>) -> Mem<Boxed<TLval>>
    ensures { IfOk result (λ copy. copy ≡ tree.now) }
{
    Boxed::new(alloc, tree.get().duplicate(alloc)?)
}

#[cycle(copying)]
fn boxed_compound(alloc: Global, tree: &Boxed<TCompound>) -> Mem<Boxed<TCompound>>
    ensures { IfOk result (λ copy. copy ≡ tree.now) }
{
    Boxed::new(alloc, tree.get().duplicate(alloc)?)
}

#[cycle(copying)]
fn copied_exprs(alloc: Global, all: &[TExpr]) -> Mem<Items<TExpr>>
    ensures { IfOk result (λ copies. copies ≡ all.now) }
{
    let mut copies = Items::new(alloc);
    for each in all {
        copies.push(each.duplicate(alloc)?)?;
    }
    Ok(copies)
}

#[cycle(copying)]
fn copied_operands(alloc: Global, all: &[TOperand]) -> Mem<Items<TOperand>>
    ensures { IfOk result (λ copies. copies ≡ all.now) }
{
    let mut copies = Items::new(alloc);
    for each in all {
        copies.push(each.duplicate(alloc)?)?;
    }
    Ok(copies)
}

#[cycle(copying)]
fn copied_steps(alloc: Global, all: &[TStep]) -> Mem<Items<TStep>>
    ensures { IfOk result (λ copies. copies ≡ all.now) }
{
    let mut copies = Items::new(alloc);
    for each in all {
        copies.push(each.duplicate(alloc)?)?;
    }
    Ok(copies)
}

impl TExpr {
    /// An equal value.
    #[cycle(copying)]
    pub fn duplicate(&self, alloc: Global) -> Mem<TExpr>
        ensures { IfOk result (λ copy. copy ≡ self.now) }
    {
        match self {
            TExpr::Const(n, kind) => Ok(TExpr::Const(*n, *kind)),
            TExpr::SizeOf(size, nodes) => Ok(TExpr::SizeOf(*size, *nodes)),
            TExpr::Value(place, t) => Ok(TExpr::Value(
                boxed_lvalue(alloc, place)?,
                t.duplicate(alloc)?,
            )),
            TExpr::Address(place, t) => Ok(TExpr::Address(
                boxed_lvalue(alloc, place)?,
                t.duplicate(alloc)?,
            )),
            TExpr::Decay(place, t) => Ok(TExpr::Decay(
                boxed_lvalue(alloc, place)?,
                t.duplicate(alloc)?,
            )),
            TExpr::Unary(op, kind, e) => Ok(TExpr::Unary(*op, *kind, boxed_expr(alloc, e)?)),
            TExpr::Run(first, more) => Ok(TExpr::Run(
                boxed_expr(alloc, first)?,
                copied_operands(alloc, more.as_slice())?,
            )),
            TExpr::Logic(is_and, first, more) => Ok(TExpr::Logic(
                *is_and,
                boxed_expr(alloc, first)?,
                copied_exprs(alloc, more.as_slice())?,
            )),
            TExpr::Conditional(a, b, c, t) => {
                let condition = boxed_expr(alloc, a)?;
                let then = boxed_expr(alloc, b)?;
                let otherwise = boxed_expr(alloc, c)?;
                Ok(TExpr::Conditional(condition, then, otherwise, t.duplicate(alloc)?))
            }
            TExpr::Assign(place, t, e) => {
                let copy = boxed_lvalue(alloc, place)?;
                let value = boxed_expr(alloc, e)?;
                Ok(TExpr::Assign(copy, t.duplicate(alloc)?, value))
            }
            TExpr::Compound(compound) => Ok(TExpr::Compound(boxed_compound(alloc, compound)?)),
            TExpr::StepBefore(place, t, up) => Ok(TExpr::StepBefore(
                boxed_lvalue(alloc, place)?,
                t.duplicate(alloc)?,
                *up,
            )),
            TExpr::Convert(t, e) => Ok(TExpr::Convert(t.duplicate(alloc)?, boxed_expr(alloc, e)?)),
            TExpr::Cast(t, e) => Ok(TExpr::Cast(t.duplicate(alloc)?, boxed_expr(alloc, e)?)),
            TExpr::IsSet(t, e) => Ok(TExpr::IsSet(t.duplicate(alloc)?, boxed_expr(alloc, e)?)),
            TExpr::Comma(before, last) => Ok(TExpr::Comma(
                copied_exprs(alloc, before.as_slice())?,
                boxed_expr(alloc, last)?,
            )),
        }
    }
}

impl TRoot {
    /// An equal value.
    #[cycle(copying)]
    pub fn duplicate(&self, alloc: Global) -> Mem<TRoot>
        ensures { IfOk result (λ copy. copy ≡ self.now) }
    {
        match self {
            TRoot::Object(base) => Ok(TRoot::Object(*base)),
            TRoot::Deref(e, t, volatile) => Ok(TRoot::Deref(
                boxed_expr(alloc, e)?,
                t.duplicate(alloc)?,
                *volatile,
            )),
            TRoot::Temporary(e, t) => Ok(TRoot::Temporary(
                boxed_expr(alloc, e)?,
                t.duplicate(alloc)?,
            )),
            TRoot::ElementOf(e, place, t, n, end) => {
                let index = boxed_expr(alloc, e)?;
                Ok(TRoot::ElementOf(
                    index,
                    boxed_lvalue(alloc, place)?,
                    t.duplicate(alloc)?,
                    *n,
                    *end,
                ))
            }
            TRoot::BeyondOf(e, pointer, t, volatile) => {
                let number = boxed_expr(alloc, e)?;
                Ok(TRoot::BeyondOf(
                    number,
                    boxed_expr(alloc, pointer)?,
                    t.duplicate(alloc)?,
                    *volatile,
                ))
            }
        }
    }
}

impl TStep {
    /// An equal value.
    #[cycle(copying)]
    pub fn duplicate(&self, alloc: Global) -> Mem<TStep>
        ensures { IfOk result (λ copy. copy ≡ self.now) }
    {
        match self {
            TStep::Member(composite, member) => Ok(TStep::Member(*composite, *member)),
            TStep::Element(e, t, n, end) => Ok(TStep::Element(
                boxed_expr(alloc, e)?,
                t.duplicate(alloc)?,
                *n,
                *end,
            )),
            TStep::Follow(t, volatile) => Ok(TStep::Follow(t.duplicate(alloc)?, *volatile)),
            TStep::Beyond(e, t, volatile) => Ok(TStep::Beyond(
                boxed_expr(alloc, e)?,
                t.duplicate(alloc)?,
                *volatile,
            )),
            TStep::Call(site, arguments, t, pointed) => {
                let result = t.duplicate(alloc)?;
                let function = pointed.duplicate(alloc)?;
                Ok(TStep::Call(
                    *site,
                    copied_exprs(alloc, arguments.as_slice())?,
                    result,
                    function,
                ))
            }
            TStep::StepAfter(t, up) => Ok(TStep::StepAfter(t.duplicate(alloc)?, *up)),
        }
    }
}

impl TOperand {
    /// An equal value.
    #[cycle(copying)]
    pub fn duplicate(&self, alloc: Global) -> Mem<TOperand>
        ensures { IfOk result (λ copy. copy ≡ self.now) }
    {
        let left = self.left.duplicate(alloc)?;
        let right = self.right.duplicate(alloc)?;
        let ctype = self.ctype.duplicate(alloc)?;
        Ok(TOperand {
            operator: self.operator,
            converts: self.converts,
            left,
            right,
            ctype,
            operand: self.operand.duplicate(alloc)?,
        })
    }
}

impl TCompound {
    /// An equal value.
    #[cycle(copying)]
    pub fn duplicate(&self, alloc: Global) -> Mem<TCompound>
        ensures { IfOk result (λ copy. copy ≡ self.now) }
    {
        let ctype = self.ctype.duplicate(alloc)?;
        let left = self.left.duplicate(alloc)?;
        let right = self.right.duplicate(alloc)?;
        let place = boxed_lvalue(alloc, &self.place)?;
        Ok(TCompound {
            place,
            ctype,
            operator: self.operator,
            left,
            right,
            operand: boxed_expr(alloc, &self.operand)?,
        })
    }
}

impl TLval {
    /// An equal value.
    #[cycle(copying)]
    pub fn duplicate(&self, alloc: Global) -> Mem<TLval>
        ensures { IfOk result (λ copy. copy ≡ self.now) }
    {
        let steps = copied_steps(alloc, self.steps.as_slice())?;
        Ok(TLval {
            root: self.root.duplicate(alloc)?,
            steps,
        })
    }
}

impl Duplicate for TExpr {
    fn duplicate(&self, alloc: Global) -> Mem<TExpr> {
        TExpr::duplicate(self, alloc)
    }
}

impl Duplicate for TLval {
    fn duplicate(&self, alloc: Global) -> Mem<TLval> {
        TLval::duplicate(self, alloc)
    }
}

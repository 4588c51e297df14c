//! Lvalues.

use crate::builder::{Builder, Located, Operand, Typed, both, number, turned};
use crate::objects::{base_named, of_letter};
use crate::types::{INT, Of, count_of, is_function, is_pointer, pointer_to, target, type_of};
use c_base::integer::IntKind;
use c_base::number::SiteId;
use c_typed_expr::expr::{TExpr, TLval, TRoot, TStep};
use c_types::duplicate::Mem;
use sqlite_items::{Boxed, Items};
use std::alloc::Global;

fn rooted(root: TRoot, alloc: Global) -> TLval {
    TLval {
        root,
        steps: Items::new(alloc),
    }
}

fn member_of(of: Of, member: u32) -> (u32, Of) {
    match (of, member) {
        (Of::Union, 0) => (1, INT),
        (Of::Union, _) => (1, Of::FourChars),
        (_, 0) => (0, Of::Int(IntKind::Char)),
        _ => (0, INT),
    }
}

impl Builder {
    /// An object or a function.
    pub fn object(&mut self, letter: u8) -> Mem<()> {
        let root = TRoot::Object(base_named(letter));
        self.push_place(rooted(root, self.alloc), of_letter(letter))
    }

    /// The place on the stack; a value gets one.
    pub fn pop_place(&mut self) -> Mem<Located> {
        match self.operands.pop() {
            Some(Operand::Place(located)) => Ok(located),
            Some(Operand::Value(value)) => self.temporary(value),
            None => self.temporary(number(0)),
        }
    }

    fn temporary(&self, value: Typed) -> Mem<Located> {
        let held = Boxed::new(self.alloc, value.expr)?;
        let root = TRoot::Temporary(held, type_of(self.alloc, value.of)?);
        Ok(Located {
            place: rooted(root, self.alloc),
            of: value.of,
        })
    }

    /// The place boxed, with its type.
    pub fn pop_located(&mut self) -> Mem<(Boxed<TLval>, Of)> {
        let located = self.pop_place()?;
        Ok((Boxed::new(self.alloc, located.place)?, located.of))
    }

    /// What the place holds; an array or a function as a pointer (C11 6.3.2.1).
    pub fn loaded(&self, located: Located) -> Mem<Typed> {
        let of = located.of;
        if is_function(of) {
            return self.decayed(located.place, of);
        }
        match count_of(of) {
            Some(_) => self.decayed(located.place, target(of)),
            None => self.held(located.place, of),
        }
    }

    fn held(&self, place: TLval, of: Of) -> Mem<Typed> {
        let place = Boxed::new(self.alloc, place)?;
        Ok(Typed {
            expr: TExpr::Value(place, type_of(self.alloc, of)?),
            of,
        })
    }

    fn decayed(&self, place: TLval, to: Of) -> Mem<Typed> {
        let place = Boxed::new(self.alloc, place)?;
        Ok(Typed {
            expr: TExpr::Decay(place, type_of(self.alloc, to)?),
            of: pointer_to(to),
        })
    }

    /// One step from the place, to what has the type.
    fn step(&mut self, mut place: TLval, step: TStep, of: Of) -> Mem<()> {
        place.steps.push(step)?;
        self.push_place(place, of)
    }

    /// A member by its number (C11 6.5.2.3).
    pub fn member(&mut self, member: u32) -> Mem<()> {
        let located = self.pop_place()?;
        let (comp, of) = member_of(located.of, member);
        self.step(located.place, TStep::Member(comp, member), of)
    }

    /// An element of an array, or behind a pointer; `end`: directly under `&`.
    fn indexed(&self, index: Boxed<TExpr>, of: Of, end: bool) -> Mem<TStep> {
        let to = type_of(self.alloc, target(of))?;
        Ok(match count_of(of) {
            Some(count) => TStep::Element(index, to, count, end),
            None => TStep::Beyond(index, to, false),
        })
    }

    /// An element of the array, or behind the pointer, at the place (C11 6.5.2.1).
    pub fn element(&mut self, end: bool) -> Mem<()> {
        let (index, _) = self.pop_boxed()?;
        let located = self.pop_place()?;
        let step = self.indexed(index, located.of, end)?;
        self.step(located.place, step, target(located.of))
    }

    fn of_array(&self, index: Boxed<TExpr>, located: Located, count: u64) -> Mem<TRoot> {
        let array = Boxed::new(self.alloc, located.place)?;
        let to = type_of(self.alloc, target(located.of))?;
        Ok(TRoot::ElementOf(index, array, to, count, false))
    }

    fn of_pointer(&self, index: Boxed<TExpr>, located: Located) -> Mem<TRoot> {
        let to = target(located.of);
        let pointer = self.loaded(located)?;
        let pointer = Boxed::new(self.alloc, pointer.expr)?;
        Ok(TRoot::BeyondOf(index, pointer, type_of(self.alloc, to)?, false))
    }

    /// The same with the index written first.
    pub fn element_before(&mut self) -> Mem<()> {
        let located = self.pop_place()?;
        let (index, _) = self.pop_boxed()?;
        let of = located.of;
        let root = match count_of(of) {
            Some(count) => self.of_array(index, located, count)?,
            None => self.of_pointer(index, located)?,
        };
        self.push_place(rooted(root, self.alloc), target(of))
    }

    /// What the pointer at the place points to, as a step from there.
    pub fn follow(&mut self, volatile: bool) -> Mem<()> {
        let located = self.pop_place()?;
        let to = target(located.of);
        let step = TStep::Follow(type_of(self.alloc, to)?, volatile);
        self.step(located.place, step, to)
    }

    /// What the value on the stack points to (C11 6.5.3.2p4).
    pub fn deref(&mut self) -> Mem<()> {
        let (pointer, of) = self.pop_boxed()?;
        let to = target(of);
        let root = TRoot::Deref(pointer, type_of(self.alloc, to)?, false);
        self.push_place(rooted(root, self.alloc), to)
    }

    /// `++` or `--` behind the place (C11 6.5.2.4).
    pub fn step_after(&mut self, up: bool) -> Mem<()> {
        let located = self.pop_place()?;
        let step = TStep::StepAfter(type_of(self.alloc, located.of)?, up);
        self.step(located.place, step, located.of)
    }

    fn arguments(&mut self, count: usize) -> Mem<Items<TExpr>> {
        let mut last_first = Items::new(self.alloc);
        for _ in 0..count {
            let value = self.pop_value()?;
            last_first.push(value.expr)?;
        }
        turned(self.alloc, &mut last_first, count)
    }

    /// A call of the function, or of what the pointer at the place points to (C11 6.5.2.2).
    pub fn call(&mut self, count: usize) -> Mem<()> {
        let arguments = self.arguments(count)?;
        let located = self.pop_place()?;
        if is_pointer(located.of) {
            return self.call_by_pointer(located, arguments);
        }
        let function = located.of;
        let call = self.direct_call(target(function), arguments)?;
        self.step(located.place, call, target(function))
    }

    fn direct_call(&mut self, given: Of, arguments: Items<TExpr>) -> Mem<TStep> {
        self.site = self.site.wrapping_add(1);
        let ctype = type_of(self.alloc, given)?;
        Ok(TStep::Call(SiteId(self.site), arguments, ctype, None))
    }

    fn followed(&self, mut place: TLval, to: Of) -> Mem<TLval> {
        let step = TStep::Follow(type_of(self.alloc, to)?, false);
        place.steps.push(step)?;
        Ok(place)
    }

    fn call_by_pointer(&mut self, located: Located, arguments: Items<TExpr>) -> Mem<()> {
        let function = target(located.of);
        let call = self.pointed_call(function, arguments);
        let place = self.followed(located.place, function);
        let (place, call) = both(place, call)?;
        self.step(place, call, target(function))
    }

    fn pointed_call(&mut self, function: Of, arguments: Items<TExpr>) -> Mem<TStep> {
        self.site = self.site.wrapping_add(1);
        let pointed = type_of(self.alloc, function)?;
        let ctype = type_of(self.alloc, target(function))?;
        Ok(TStep::Call(SiteId(self.site), arguments, ctype, Some(pointed)))
    }
}

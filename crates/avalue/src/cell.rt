//! Cells.
ghost use Rattle.std.specs.Prelude.{◌≡◌, ◌≢◌, ℕ, true, IsTrue, IsFalse, IfOk, List, [], ◌∷◌, map};
ghost use Rattle.c_memory.specs.Layouts.{Layout};
ghost use Rattle.c_memory.specs.Values.{Cell, wither};
ghost use Rattle.avalue_base.specs.Meaning.{Allows};
ghost use Rattle.avalue_base.specs.Ops.{Fine};
ghost use Rattle.avalue_base.specs.Order.{leq, join, implies as flag_in};
ghost use Rattle.avalue_base.specs.Hues.{blank};
ghost use Rattle.avalue_base.specs.Meets.{meet};
ghost use Rattle.avalue_base.specs.Pieces.{no_value};
ghost use Rattle.avalue_base.specs.Deaths.{forgotten};
ghost use Rattle.avalue.specs.Views.{held_value};

use avalue_values::{AVal, Mem};
use c_base::number::BaseId;
use ival_core::Ival;
use std::alloc::Global;
use std::marker::Model;

/// What the bits of an element may be: those of a value, and each of them not written or dead, where the flags say so.
#[derive(Drop)]
pub struct Cellv {
    pub value: Option<AVal>,
    pub uninit: bool,
    pub dead: bool,
}

impl Model for Cellv {
    ghost use Rattle.avalue_base.specs.Values.{Cellv as PlainCell};
    ghost use Rattle.avalue.specs.Codes.{cell_code};
    ghost use Rattle.avalue.specs.Views.{held_value};

    ghost Value = { PlainCell };

    ghost coded = { cell_code };

    ghost view = { λ c. record { value = held_value c.value; uninit = c.uninit; dead = c.dead } };
}

/// No value.
pub(crate) fn nothing() -> AVal
    ensures { result ≡ no_value }
{
    AVal::number(Ival::empty())
}

/// The value, or none.
pub(crate) fn held<'a>(value: &'a Option<AVal>, none: &'a AVal) -> &'a AVal
    requires { none.now ≡ no_value }
    ensures { result.now ≡ held_value value.now }
{
    match value {
        None => none,
        Some(value) => value,
    }
}

pub(crate) fn implies(a: bool, b: bool) -> bool
    ensures { result ≡ flag_in a b }
{
    if a { b } else { true }
}

impl Cellv {
    /// The same cell.
    pub fn duplicate(&self, alloc: Global) -> Mem<Cellv>
        ensures { IfOk result (λ c. c ≡ self.now) }
    {
        let none = nothing();
        let value = held(&self.value, &none).duplicate(alloc)?;
        Ok(Cellv {
            value: Some(value),
            uninit: self.uninit,
            dead: self.dead,
        })
    }

    /// The least cell that allows what either does.
    pub fn join(&self, alloc: Global, o: &Cellv) -> Mem<Cellv>
        ensures value { IfOk result (λ c. c ≡ join self.now o.now) }
        ensures first { IfOk result (λ c. leq self.now c ≡ true) }
        ensures second { IfOk result (λ c. leq o.now c ≡ true) }
    {
        self.join_parts(alloc, o)
    }

    pub(crate) fn join_parts(&self, alloc: Global, o: &Cellv) -> Mem<Cellv>
        ensures { IfOk result (λ c. c ≡ join self.now o.now) }
    {
        let none = nothing();
        let value = held(&self.value, &none).join(alloc, held(&o.value, &none))?;
        Ok(Cellv {
            value: Some(value),
            uninit: self.uninit || o.uninit,
            dead: self.dead || o.dead,
        })
    }

    /// The values of both, and the flags of both.
    pub fn meet(&self, alloc: Global, o: &Cellv) -> Mem<Cellv>
        ensures value { IfOk result (λ c. c ≡ meet self.now o.now) }
    {
        let none = nothing();
        let value = held(&self.value, &none).meet_parts(alloc, held(&o.value, &none))?;
        Ok(Cellv {
            value: Some(value),
            uninit: self.uninit && o.uninit,
            dead: self.dead && o.dead,
        })
    }

    /// Whether `o` allows all that this cell does.
    pub fn included(&self, o: &Cellv) -> bool
        ensures value { result ≡ leq self.now o.now }
        ensures meaning { IsTrue result → (l : Layout) (k : ℕ) (cells : List Cell) → Fine l.machine k o.now →
            Allows l k self.now cells → Allows l k o.now cells }
    {
        self.parts_included(o)
    }

    pub(crate) fn parts_included(&self, o: &Cellv) -> bool
        ensures { result ≡ leq self.now o.now }
    {
        let none = nothing();
        if !held(&self.value, &none).included(held(&o.value, &none)) {
            return false;
        }
        if !implies(self.uninit, o.uninit) {
            return false;
        }
        implies(self.dead, o.dead)
    }

    /// Whether both are the same cell.
    pub(crate) fn same_parts(&self, o: &Cellv) -> bool
        ensures same { IsTrue result → self.now ≡ o.now }
        ensures other { IsFalse result → self.now ≢ o.now }
    {
        let none = nothing();
        if self.uninit != o.uninit {
            return false;
        }
        if self.dead != o.dead {
            return false;
        }
        held(&self.value, &none).is_same(held(&o.value, &none))
    }

    /// Whether it has no value, at most flags.
    pub fn is_blank(&self) -> bool
        ensures { result ≡ blank self.now }
    {
        let none = nothing();
        held(&self.value, &none).is_nothing()
    }

    /// What is left when a base has died: bits that may have been made from its address may be dead.
    pub fn forget_base(&self, alloc: Global, base: BaseId) -> Mem<Cellv>
        ensures value { IfOk result (λ c. c ≡ forgotten base.0 self.now) }
        ensures meaning { IfOk result (λ c. (l : Layout) (k : ℕ) (cells : List Cell) → Fine l.machine k self.now →
            Allows l k self.now cells → Allows l k c (map (wither (base.0 ∷ [])) cells)) }
    {
        self.forget_part(alloc, base)
    }

    fn forget_part(&self, alloc: Global, base: BaseId) -> Mem<Cellv>
        ensures { IfOk result (λ c. c ≡ forgotten base.0 self.now) }
    {
        let none = nothing();
        let old = held(&self.value, &none);
        let value = old.left_of(alloc, base)?;
        Ok(Cellv {
            value: Some(value),
            uninit: self.uninit,
            dead: self.dead || old.has_base(base),
        })
    }
}

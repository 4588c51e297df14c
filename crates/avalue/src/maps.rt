//! Cells as the elements of maps have them.
ghost use Rattle.std.specs.Prelude.{◌≡◌, ◌&&◌, ◌||◌, not};
ghost use Rattle.avalue_base.specs.Values.{has_no_value};
ghost use Rattle.avalue_base.specs.Pieces.{flagged};

use crate::bits::{admits, bases_in, has_bits, known_bit};
use crate::cell::{Cellv, held, implies, nothing};
use crate::pieces::{any_bit, fit, glue_read, piece, with_number};
use avalue_parts::number_of;
use avalue_values::{AVal, Mem};
use cell_runs::cells::Cells;
use std::alloc::Global;
use std::marker::Model;

/// What one bit of a cell tells without its numbers: from which bases it may come, and its flags. Only contracts speak of it.
pub struct Hue {
    cell: Cellv,
}

impl Model for Hue {
    ghost use Rattle.avalue_base.specs.Hues.{Hue as PlainHue, hue};
    ghost use Rattle.avalue.specs.Codes.{hue_code};

    ghost Value = { PlainHue };

    ghost coded = { hue_code };

    ghost view = { λ h. hue h.cell };
}

/// A bit is not written, or nothing else is allowed.
fn is_unwritten(value: &AVal, uninit: bool, dead: bool) -> bool
    ensures { result ≡ (uninit || (has_no_value value.now && not dead)) }
{
    if uninit {
        return true;
    }
    if dead {
        return false;
    }
    value.is_nothing()
}

/// With a flag, if nothing is allowed.
fn flagged(value: AVal, uninit: bool, dead: bool) -> Cellv
    ensures { result ≡ flagged (record { value = value; uninit = uninit; dead = dead }) }
{
    let uninit = is_unwritten(&value, uninit, dead);
    Cellv {
        value: Some(value),
        uninit,
        dead,
    }
}

impl Cells for Cellv {
    ghost use Rattle.c_base.specs.declared.integer.Machine.TheVariants.{Lp64};
    ghost use Rattle.avalue_base.specs.Ops.{ops, Fine};
    ghost use Rattle.avalue_base.proofs.Ordering.{fine_laws, order_laws};
    ghost use Rattle.avalue_base.proofs.Joins.{join_laws};
    ghost use Rattle.avalue_base.proofs.Accesses.{part_laws};

    type Hue = Hue;

    ghost ops = { ops Lp64 };

    ghost fine = { Fine Lp64 };

    fn copy(&self, alloc: Global) -> Mem<Cellv> {
        self.duplicate(alloc)
    }

    fn is_same(&self, other: &Cellv) -> bool {
        self.same_parts(other)
    }

    fn uninit(alloc: Global) -> Mem<Cellv> {
        Ok(Cellv {
            value: None,
            uninit: true,
            dead: false,
        })
    }

    fn void(alloc: Global) -> Mem<Cellv> {
        Ok(Cellv {
            value: None,
            uninit: false,
            dead: false,
        })
    }

    fn is_included(&self, other: &Cellv) -> bool {
        self.parts_included(other)
    }

    fn is_blank(&self) -> bool {
        let none = nothing();
        held(&self.value, &none).is_nothing()
    }

    fn is_within(&self, other: &Cellv) -> bool {
        let none = nothing();
        if !bases_in(held(&self.value, &none), held(&other.value, &none)) {
            return false;
        }
        if !implies(self.uninit, other.uninit) {
            return false;
        }
        implies(self.dead, other.dead)
    }

    fn admits(&self, bits: u64, other: &Cellv) -> bool {
        let none = nothing();
        if !admits(held(&self.value, &none), bits, held(&other.value, &none)) {
            return false;
        }
        if !implies(other.uninit, self.uninit) {
            return false;
        }
        implies(other.dead, self.dead)
    }

    fn known_bit(&self, bits: u64, index: u64) -> Option<bool> {
        if self.uninit {
            return None;
        }
        if self.dead {
            return None;
        }
        let none = nothing();
        known_bit(held(&self.value, &none), bits, index)
    }

    fn has(&self, bits: &[bool]) -> bool {
        let none = nothing();
        has_bits(held(&self.value, &none), bits)
    }

    fn join(&self, alloc: Global, other: &Cellv) -> Mem<Cellv> {
        self.join_parts(alloc, other)
    }

    fn shade(&self, alloc: Global, other: &Cellv) -> Mem<Cellv> {
        let none = nothing();
        let value = held(&self.value, &none).duplicate(alloc)?;
        Ok(Cellv {
            value: Some(value),
            uninit: self.uninit || other.uninit,
            dead: self.dead || other.dead,
        })
    }

    fn with_bits(&self, alloc: Global, bits: &[bool]) -> Mem<Cellv> {
        let none = nothing();
        let value = with_number(alloc, held(&self.value, &none), number_of(bits))?;
        Ok(Cellv {
            value: Some(value),
            uninit: self.uninit,
            dead: self.dead,
        })
    }

    fn any_of(&self, alloc: Global, other: &Cellv) -> Mem<Cellv> {
        let none = nothing();
        let value = any_bit(alloc, held(&self.value, &none), held(&other.value, &none))?;
        Ok(Cellv {
            value: Some(value),
            uninit: self.uninit || other.uninit,
            dead: self.dead || other.dead,
        })
    }

    fn fit(&self, alloc: Global, bits: u64) -> Mem<Cellv> {
        let none = nothing();
        let value = fit(alloc, held(&self.value, &none), bits)?;
        Ok(flagged(value, self.uninit, self.dead))
    }

    fn piece(&self, alloc: Global, bits: u64, low: u64, count: u64) -> Mem<Cellv> {
        let none = nothing();
        let value = piece(alloc, held(&self.value, &none), low as u32, count as u32)?;
        Ok(Cellv {
            value: Some(value),
            uninit: self.uninit,
            dead: self.dead,
        })
    }

    fn glue(&self, alloc: Global, bits: u64, other: &Cellv, other_bits: u64) -> Mem<Cellv> {
        let none = nothing();
        let value = glue_read(
            alloc,
            held(&self.value, &none),
            bits as u32,
            held(&other.value, &none),
            other_bits as u32,
        )?;
        Ok(Cellv {
            value: Some(value),
            uninit: self.uninit || other.uninit,
            dead: self.dead || other.dead,
        })
    }

    ghost fine_laws = { fine_laws Lp64 };

    ghost order_laws = { order_laws Lp64 };

    ghost join_laws = { join_laws Lp64 };

    ghost part_laws = { part_laws Lp64 };
}

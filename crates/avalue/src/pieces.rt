//! Pieces of values, and values that are made of pieces.
ghost use Rattle.std.specs.Prelude.{◌≡◌, ◌≤◌, ◌+◌, ◌||◌, IfOk, cond};
ghost use Rattle.c_base.specs.declared.integer.Machine.TheVariants.{Lp64};
ghost use Rattle.avalue_base.specs.Lists.{union_of};
ghost use Rattle.avalue_base.specs.Numbers.{word};
ghost use Rattle.avalue_base.specs.Values.{bases_of, has_no_value};
ghost use Rattle.avalue_base.specs.Hues.{any_value, with_number};
ghost use Rattle.avalue_base.specs.Pieces.{fit_value, glue_values, no_value, value_piece};

use crate::cell::nothing;
use avalue_parts::{bit_numbers, glued, joined, part, word};
use avalue_values::{AVal, Mem, mixed};
use sorted_lists::copied;
use std::alloc::Global;

/// The bits of a pointer.
const POINTER_BITS: u64 = 64;

/// `count` bits of the values, from bit `low` on; of addresses only their bases are told.
pub(crate) fn piece(alloc: Global, a: &AVal, low: u32, count: u32) -> Mem<AVal>
    requires { low + count ≤ 64 }
    ensures { IfOk result (λ v. v ≡ value_piece low count a.now) }
{
    match a.numbers() {
        None => a.duplicate(alloc),
        Some(numbers) => {
            if a.addresses().is_empty() {
                return Ok(AVal::number(part(numbers, low, count)));
            }
            Ok(mixed(a.bases(alloc)?))
        }
    }
}

/// The values and the number.
pub(crate) fn with_number(alloc: Global, a: &AVal, n: u64) -> Mem<AVal>
    ensures { IfOk result (λ v. v ≡ with_number a.now (word n)) }
{
    match a.numbers() {
        None => a.duplicate(alloc),
        Some(numbers) => Ok(AVal::separate(
            joined(numbers, &word(n)),
            copied(alloc, a.addresses())?,
        )),
    }
}

/// One bit that may be anything made from the bases of both.
pub(crate) fn any_bit(alloc: Global, a: &AVal, b: &AVal) -> Mem<AVal>
    ensures { IfOk result (λ v. v ≡ any_value (union_of (bases_of a.now) (bases_of b.now))) }
{
    let bases = a.bases_of_both(alloc, b)?;
    if bases.is_empty() {
        return Ok(AVal::number(bit_numbers()));
    }
    Ok(mixed(bases))
}

/// What stands in so many bits where it is stored: an address in fewer bits than a pointer's leaves its base alone.
pub(crate) fn fit(alloc: Global, a: &AVal, bits: u64) -> Mem<AVal>
    ensures { IfOk result (λ v. v ≡ fit_value Lp64 bits a.now) }
{
    let addresses = a.addresses();
    if addresses.is_empty() {
        return a.duplicate(alloc);
    }
    if bits == POINTER_BITS {
        return a.duplicate(alloc);
    }
    Ok(mixed(a.bases(alloc)?))
}

/// Its `bits` bits, and behind them `more` bits of the other.
fn glue(alloc: Global, a: &AVal, bits: u32, b: &AVal, more: u32) -> Mem<AVal>
    requires { bits + more ≤ 64 }
    ensures { IfOk result (λ v. v ≡ glue_values bits a.now more b.now) }
{
    match a.numbers_alone() {
        None => a.blend(alloc, b),
        Some(low) => match b.numbers_alone() {
            None => a.blend(alloc, b),
            Some(high) => Ok(AVal::number(glued(low, bits, high, more))),
        },
    }
}

/// The same, as a load reads it: there is no value where one of the two has none.
pub(crate) fn glue_read(alloc: Global, a: &AVal, bits: u32, b: &AVal, more: u32) -> Mem<AVal>
    requires { bits + more ≤ 64 }
    ensures { IfOk result (λ v. v ≡ cond (has_no_value a.now || has_no_value b.now)
        no_value (glue_values bits a.now more b.now)) }
{
    if a.is_nothing() {
        return Ok(nothing());
    }
    if b.is_nothing() {
        return Ok(nothing());
    }
    glue(alloc, a, bits, b, more)
}

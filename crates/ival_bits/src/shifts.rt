//! Shifts of sets of integers (C11 6.5.7).

ghost use Rattle.std.specs.Prelude.{◌≡◌, ◌<◌, ◌≤◌, ◌-◌, ◌^◌, ◌||◌, ◌↔◌, ℤ, pos, int_lt, int_le, IsTrue, Ok, Err};
ghost use Rattle.c_base.specs.Integers.{is_signed, width_of};
ghost use Rattle.c_base.specs.KindSets.{allowed};
ghost use Rattle.ival_core.specs.Sets.{HoldsNine};
ghost use Rattle.ival_core.specs.Ivals.{Holds};
ghost use Rattle.ival_core.specs.Views.{bounds_of};
ghost use Rattle.ival_arith.specs.Promises.{InType};
ghost use Rattle.ival_bits.specs.Promises.{IsShift, GivesShifted};
ghost use Rattle.ival_bits.specs.Shifts.{kept_left, shifted_by, shifts, miscounts, left_fails, shift_fails, shift_kind, shift_value, shift_kinds};

use crate::wraps::{last, whole};
use c_base::format::{Format, format_of, power};
use c_base::integer::{IntKind, Machine};
use c_base::kind::{Kind, KindSet};
use c_base::operators::BinOp;
use ival_arith::{Answer, Change, changed, clipped, floored, holds_number, join, residues, typed};
use ival_core::Ival;

/// What a left shift keeps of the numbers of a set: those that have a result, or of each the bits that stay in the type.
#[tactic(auto, unfolding(crate::specs::Shifts::kept_left))]
fn kept_left(format: Format, count: u32, set: &Ival) -> Ival
    requires { count < format.width }
    ensures { result.shape ≡ kept_left format.signed format.width count set.now.shape }
{
    if format.signed {
        clipped(set, 0, last(format.width - 1 - count))
    } else {
        residues(set, power(format.width - count))
    }
}

/// The results of a shift by one count.
#[tactic(auto, unfolding(crate::specs::Shifts::shifted_by))]
fn shifted_by(op: BinOp, format: Format, count: u32, set: &Ival) -> Ival
    requires { count < format.width }
    ensures { result.shape ≡ shifted_by op format.signed format.width count set.now.shape }
{
    match op {
        BinOp::Shl => {
            let kept = kept_left(format, count, set);
            changed(&kept, Change::Times(power(count) as u64))
        }
        _ => floored(set, power(count)),
    }
}

/// The results of shifts by the counts that a set holds.
#[tactic(auto, unfolding(crate::specs::Shifts::shifts))]
fn shifts(op: BinOp, format: Format, set: &Ival, counts: &Ival) -> Ival
    ensures { result.shape
        ≡ shifts op format.signed format.width set.now.shape counts.now.shape format.width }
{
    let mut all = Ival::empty();
    for count in 0..format.width {
        if holds_number(counts, count as i128) {
            all = join(&all, &shifted_by(op, format, count, set));
        }
    }
    all
}

/// Some number between these bounds is no count.
fn miscounts(width: u32, low: i128, high: i128) -> bool
    ensures { result ≡ miscounts width low high }
{
    if low < 0 { true } else { width as i128 <= high }
}

/// Some left shift of a number between these bounds is undefined, where `count` is the greatest count.
fn left_fails(format: Format, low: i128, high: i128, count: u32) -> bool
    requires { count < format.width }
    ensures { result ≡ left_fails format.signed format.width low high (pos count) }
{
    if low < 0 {
        return true;
    }
    if format.signed {
        whole(format.width - 1 - count) <= high
    } else {
        false
    }
}

/// Some shift of numbers of two sets is undefined.
fn shift_fails(op: BinOp, format: Format, a: &Ival, b: &Ival) -> bool
    ensures { result ≡ shift_fails op format.signed format.width (bounds_of a.now.shape)
        (bounds_of b.now.shape) }
{
    let Some((low, high)) = a.bounds() else {
        return false;
    };
    let Some((least, greatest)) = b.bounds() else {
        return false;
    };
    if miscounts(format.width, least, greatest) {
        return true;
    }
    match op {
        BinOp::Shl => left_fails(format, low, high, greatest as u32),
        _ => false,
    }
}

fn shift_kind(fails: bool) -> KindSet
    ensures { result ≡ shift_kind fails }
{
    if fails {
        KindSet::none().with(Kind::Shift)
    } else {
        KindSet::none()
    }
}

/// `<<` and `>>` on numbers of the type `k` by counts of any type (C11 6.5.7). Other left numbers have no results.
pub fn shift(op: BinOp, k: IntKind, m: Machine, a: &Ival, b: &Ival) -> Answer
    requires { IsShift op }
    ensures value { result.value.shape ≡ shift_value op k m a.now.shape b.now.shape }
    ensures kind_set { result.kinds ≡ shift_kinds op k m a.now.shape b.now.shape }
    ensures holds { (n : ℤ) → GivesShifted op k m a.now b.now (Ok n) → Holds result.value n }
    ensures kinds { (kind : Kind) → IsTrue (allowed result.kinds kind)
        ↔ GivesShifted op k m a.now b.now (Err kind) }
    ensures exact { (HoldsNine (λ n. GivesShifted op k m a.now b.now (Ok n)) → ⊥) → (n : ℤ)
        → Holds result.value n → GivesShifted op k m a.now b.now (Ok n) }
{
    let format = format_of(k, m);
    let left = typed(format, a);
    Answer {
        value: shifts(op, format, &left, b),
        kinds: shift_kind(shift_fails(op, format, &left, b)),
    }
}

//! Pointers moved by integers.
ghost use Rattle.std.specs.Prelude.{◌≡◌, ◌≢◌, ◌↔◌, ℤ, pos, ◌*ℤ◌, true, false, IsTrue, IfOk, IfSome, IfNone, Some, map};
ghost use Rattle.std.specs.List.{list_all};
ghost use Rattle.c_memory.specs.Layouts.{Layout};
ghost use Rattle.c_memory.specs.Values.{Value};
ghost use Rattle.ival_core.specs.Ivals.{Holds, IsOnly};
ghost use Rattle.ival_core.specs.Sets.{IsNumber};
ghost use Rattle.avalue_base.specs.Meaning.{Means};
ghost use Rattle.avalue_base.specs.Meets.{lies_near};
ghost use Rattle.avalue_base.specs.Numbers.{is_empty, is_empty_list, words};
ghost use Rattle.avalue_base.specs.Values.{bases_of};
ghost use Rattle.avalue_base.specs.Singles.{is_single_value};
ghost use Rattle.aops.specs.Soles.{IsAlone, is_single_number};
ghost use Rattle.c_pointers.specs.Conversions.{address_number};
ghost use Rattle.aops_pointers.specs.Moved.{KeepsNear, moved_value};
ghost use Rattle.aops_pointers.specs.Moves.{IsKept, at_number, in_bytes, is_near_sum, moved_address, moved_by, moved_numbers, moved_sets, of_bases, or_words, shifted, shifted_by, stays_near, sum_of, summed};

use crate::singles::one_moved;
use aops::{pointer_bits, wrapped};
use avalue_parts::{Address, is_near, is_none};
use avalue_values::{AVal, Mem};
use c_base::integer::Machine;
use ival_arith::{exact_add, exact_mul, exact_sub};
use ival_core::{Ival, run_from};
use smallvec::SmallVec;
use std::alloc::Global;

/// So many elements, in bytes.
fn in_bytes(size: u64, counts: &Ival) -> Option<Ival>
    ensures value { result ≡ in_bytes size counts.now }
    ensures holds { IfSome result (λ v. (n : ℤ) → Holds counts.now n → Holds v (n *ℤ pos size)) }
    ensures single { (n : ℤ) → IsOnly counts.now n → IfSome result (λ v. IsOnly v (n *ℤ pos size)) }
    ensures leaves { IfNone result ((n : ℤ) → IsOnly counts.now n → IsNumber (n *ℤ pos size) → ⊥) }
{
    exact_mul(counts, &Ival::single(size as i128))
}

/// The sums, or the differences.
fn sum_of(back: bool, a: &Ival, b: &Ival) -> Option<Ival>
    ensures value { result ≡ sum_of back a.now b.now }
    ensures holds { IfSome result (λ v. (x y : ℤ) → Holds a.now x → Holds b.now y → Holds v (summed back x y)) }
{
    if back {
        exact_sub(a, b)
    } else {
        exact_add(a, b)
    }
}

/// The numbers of 64 bits.
fn words() -> Ival
    ensures { result ≡ words }
{
    run_from(0, (1 << 64) - 1, 1)
}

fn stays_near(back: bool, address: &Address, steps: &Ival) -> bool
    ensures { result ≡ stays_near back steps.now address.now }
{
    match sum_of(back, address.offsets(), steps) {
        None => false,
        Some(sum) => is_near(&sum),
    }
}

/// Whether no address leaves the offsets that are kept.
fn stay_near(back: bool, addresses: &[Address], steps: &Ival) -> bool
    ensures { result ≡ list_all (stays_near back steps.now) addresses.now }
{
    for address in addresses {
        if !stays_near(back, address, steps) {
            return false;
        }
    }
    true
}

fn moved_address(back: bool, address: &Address, steps: &Ival) -> Address
    ensures { result ≡ moved_address back steps.now address.now }
{
    match sum_of(back, address.offsets(), steps) {
        None => Address::new(address.base(), words()),
        Some(sum) => Address::new(address.base(), sum),
    }
}

fn moved_addresses(
    alloc: Global,
    back: bool,
    addresses: &[Address],
    steps: &Ival,
) -> Mem<SmallVec<Address, 1>>
    ensures { IfOk result (λ list. list.items ≡ map (moved_address back steps.now) addresses.now) }
{
    let mut list = SmallVec::new(alloc);
    for address in addresses {
        list.push(moved_address(back, address, steps))?;
    }
    Ok(list)
}

/// The sums, in the pointer's range.
fn moved_numbers(back: bool, m: Machine, numbers: &Ival, steps: &Ival) -> Ival
    ensures holds { (n k : ℤ) → Holds numbers.now n → Holds steps.now k → Holds result (address_number m (summed back n k)) }
    ensures value { result ≡ moved_numbers m (sum_of back numbers.now steps.now) }
    ensures single { (n k : ℤ) → IsOnly numbers.now n → IsOnly steps.now k → IsNumber (summed back n k) → IsOnly result (address_number m (summed back n k)) }
    ensures none { is_empty numbers.now.shape ≡ true → is_empty result.shape ≡ true }
{
    match sum_of(back, numbers, steps) {
        None => words(),
        Some(sum) => wrapped(false, pointer_bits(m), &sum),
    }
}

/// Only the bases of the value.
fn of_bases(alloc: Global, a: &AVal) -> Mem<AVal>
    ensures value { IfOk result (λ v. v ≡ of_bases (bases_of a.now)) }
    ensures holds { IfOk result (λ v. (l : Layout) (x : Value) (n : ℤ) → Means l a.now x → Means l v (at_number l.machine n x)) }
{
    if a.is_plain() {
        return Ok(AVal::number(words()));
    }
    a.as_mix(alloc)
}

/// Moved by these bytes.
fn shifted(alloc: Global, back: bool, m: Machine, a: &AVal, steps: &Ival) -> Mem<AVal>
    requires some { is_empty steps.now.shape ≡ false }
    ensures value { IfOk result (λ v. v ≡ shifted back m steps.now a.now) }
    ensures holds { IfOk result (λ v. (l : Layout) (x : Value) (k : ℤ) → l.machine ≡ m → Means l a.now x → Holds steps.now k
        → Means l v (at_number l.machine (summed back x.number k) x)) }
    ensures alone { IfOk result (λ v. (l : Layout) (k : ℤ) → is_single_value a.now ≡ true → IsOnly steps.now k → IsKept back k a.now → IsAlone l v) }
{
    match a.numbers() {
        None => a.duplicate(alloc),
        Some(numbers) => {
            if !stay_near(back, a.addresses(), steps) {
                return of_bases(alloc, a);
            }
            let addresses = moved_addresses(alloc, back, a.addresses(), steps)?;
            Ok(AVal::separate(moved_numbers(back, m, numbers, steps), addresses))
        }
    }
}

/// Moved by these bytes, if they are known.
fn shifted_by(alloc: Global, back: bool, m: Machine, a: &AVal, steps: &Option<Ival>) -> Mem<AVal>
    ensures value { IfOk result (λ v. v ≡ shifted_by back m a.now steps.now) }
    ensures holds { IfOk result (λ v. (l : Layout) (x : Value) (k : ℤ) → l.machine ≡ m → Means l a.now x → IfSome steps.now (λ s. Holds s k)
        → Means l v (at_number l.machine (summed back x.number k) x)) }
    ensures alone { IfOk result (λ v. (l : Layout) (s : Ival) (k : ℤ) → steps.now ≡ Some s → is_single_value a.now ≡ true → IsOnly s k →
        IsKept back k a.now → IsAlone l v) }
{
    match steps {
        None => of_bases(alloc, a),
        Some(steps) => {
            if is_none(steps) {
                return Ok(AVal::number(Ival::empty()));
            }
            shifted(alloc, back, m, a, steps)
        }
    }
}

/// Sets of pointers moved by sets of counts. Where an address may leave its base by more than 2^62 bytes, only the bases are told.
fn moved_sets(
    alloc: Global,
    back: bool,
    m: Machine,
    size: u64,
    a: &AVal,
    counts: &AVal,
) -> Mem<AVal>
    ensures value { IfOk result (λ v. v ≡ moved_sets back m size a.now counts.now) }
    ensures holds { IfOk result (λ v. (l : Layout) (x y : Value) → l.machine ≡ m → Means l a.now x → Means l counts.now y
        → Means l v (moved_by back m size x y)) }
    ensures sole { IfOk result (λ v. (l : Layout) (x y z : Value) → l.machine ≡ m → is_single_value a.now ≡ true → is_single_number counts.now ≡ true →
        Means l a.now x → Means l counts.now y → IsNumber (y.number *ℤ pos size) → IsKept back (y.number *ℤ pos size) a.now
        → Means l v z ↔ (z ≡ moved_by back m size x y)) }
{
    match counts.numbers_alone() {
        None => a.blend(alloc, counts),
        Some(numbers) => shifted_by(alloc, back, m, a, &in_bytes(size, numbers)),
    }
}

/// The pointers moved forwards, or back, by counts of elements of so many bytes (C11 6.5.6p8). Where an address may leave its base by more than 2^62
/// bytes, only the bases are told. Of a single pointer and a single count there is the one pointer alone.
pub fn moved(alloc: Global, back: bool, m: Machine, size: u64, a: &AVal, counts: &AVal) -> Mem<AVal>
    ensures value { IfOk result (λ v. v ≡ moved_value back m size a.now counts.now) }
    ensures holds { IfOk result (λ v. (l : Layout) (x y : Value) → l.machine ≡ m → Means l a.now x → Means l counts.now y
        → Means l v (moved_by back m size x y)) }
    ensures sole { IfOk result (λ v. (l : Layout) (x y z : Value) → l.machine ≡ m → is_single_value a.now ≡ true → is_single_number counts.now ≡ true →
        Means l a.now x → Means l counts.now y → KeepsNear back (y.number *ℤ pos size) a.now
        → Means l v z ↔ (z ≡ moved_by back m size x y)) }
{
    match one_moved(back, m, size, a, counts) {
        Some(number) => Ok(AVal::number(number)),
        None => moved_sets(alloc, back, m, size, a, counts),
    }
}

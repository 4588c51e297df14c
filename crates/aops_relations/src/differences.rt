//! Differences of pointers.
ghost use Rattle.std.specs.Prelude.{◌≡◌, ◌<◌, ◌-ℤ◌, true, false, IsTrue, Ok, Err, [], Some};
ghost use Rattle.c_base.specs.declared.kind.Kind.{Kind};
ghost use Rattle.c_memory.specs.Layouts.{Layout};
ghost use Rattle.c_memory.specs.Values.{Value};
ghost use Rattle.c_pointers.specs.Pointers.{difference};
ghost use Rattle.avalue_base.specs.Meaning.{Means};
ghost use Rattle.avalue_base.specs.Values.{Separate};
ghost use Rattle.avalue_values.specs.Views.{numbers_alone};
ghost use Rattle.aops_pointers.specs.Images.{image};
ghost use Rattle.aops_relations.specs.Differences.{differed, far_numbers, of_addresses, of_numbers, quotient_of, quotients, undefined, within_one};
ghost use Rattle.avalue_base.specs.Singles.{is_single_value};
ghost use Rattle.aops_relations.specs.Placed.{ArePointers, one_address};
ghost use Rattle.aops_relations.specs.Soles.{IsSoleVerdict};
ghost use Rattle.avalue_base.specs.Meets.{has_near_offsets};

use crate::comparisons::{Verdict, has_no_word, set_if};
use crate::places::{all_inside, one_address, some_inside};
use aops::truth_set;
use avalue_parts::{Address, Sizes};
use avalue_values::AVal;
use ival_arith::{exact_div, exact_sub};
use ival_core::{Ival, run_from};

/// How far two pointers into one object may be apart.
const FAR: i128 = 1 << 47;

fn far_numbers() -> Ival
    ensures { result ≡ far_numbers }
{
    run_from(-FAR, FAR, 1)
}

fn distances(a: &Ival, b: &Ival) -> Option<Ival>
    ensures { result ≡ image (λ m n. m -ℤ n) a.now b.now }
{
    exact_sub(a, b)
}

fn divided(size: u64, distances: &Ival) -> Option<Ival>
    ensures { result ≡ quotient_of size (Some distances.now) }
{
    exact_div(distances, &Ival::single(size as i128))
}

/// How many elements of so many bytes lie between the offsets.
#[tactic(auto, unfolding(crate::specs::Differences::quotients))]
fn quotients(size: u64, a: &Ival, b: &Ival) -> Ival
    ensures { result ≡ quotients size a.now b.now }
{
    match distances(a, b) {
        None => far_numbers(),
        Some(bytes) => match divided(size, &bytes) {
            None => far_numbers(),
            Some(elements) => elements,
        },
    }
}

fn within_one(size: u64, bytes: u64, x: &Address, y: &Address) -> Verdict
    ensures { result ≡ within_one size bytes x.now y.now }
{
    let some = some_inside(false, bytes, x) && some_inside(false, bytes, y);
    Verdict {
        set: set_if(some, quotients(size, x.offsets(), y.offsets())),
        sure: all_inside(false, bytes, x) && all_inside(false, bytes, y),
    }
}

fn undefined() -> Verdict
    ensures { result ≡ undefined }
{
    Verdict {
        set: truth_set(false, false),
        sure: false,
    }
}

fn unknown() -> Verdict
    ensures { result ≡ record { set = far_numbers; sure = false } }
{
    Verdict {
        set: far_numbers(),
        sure: false,
    }
}

fn of_numbers(a: &Ival, b: &Ival) -> Verdict
    ensures { result ≡ of_numbers a.now b.now }
{
    Verdict {
        set: truth_set(false, false),
        sure: has_no_word(a) || has_no_word(b),
    }
}

fn of_addresses<S: Sizes>(size: u64, sizes: &S, a: &AVal, b: &AVal) -> Verdict
    ensures { result ≡ of_addresses size (S.size_of sizes.now) (one_address a.now) (one_address b.now) }
{
    match one_address(a) {
        None => unknown(),
        Some(x) => match one_address(b) {
            None => unknown(),
            Some(y) => {
                let base = x.base();
                if base.0 == y.base().0 {
                    within_one(size, sizes.size(base), x, y)
                } else {
                    undefined()
                }
            }
        },
    }
}

fn of_parts<S: Sizes>(size: u64, sizes: &S, a: &AVal, b: &AVal) -> Verdict
    ensures { result ≡ differed size (S.size_of sizes.now) a.now b.now }
{
    match a.numbers_alone() {
        None => match b.numbers_alone() {
            None => of_addresses(size, sizes, a, b),
            Some(_) => undefined(),
        },
        Some(left) => match b.numbers_alone() {
            None => undefined(),
            Some(right) => of_numbers(left, right),
        },
    }
}

/// How many elements of so many bytes may lie between two pointers; where the verdict isn't sure, this may be undefined (C11 6.5.6p9).
pub fn differed<S: Sizes>(size: u64, sizes: &S, a: &AVal, b: &AVal) -> Verdict
    ensures value { result ≡ differed size (S.size_of sizes.now) a.now b.now }
    ensures holds { (l : Layout) (x y z : Value) → ArePointers (S.size_of sizes.now) l a.now b.now x y →
        difference l size x y ≡ Ok z → Means l (Separate result.set []) z }
    ensures sure { IsTrue result.sure → (l : Layout) (x y : Value) (kind : Kind) → ArePointers (S.size_of sizes.now) l a.now b.now x y →
        difference l size x y ≡ Err kind → ⊥ }
    ensures sole { (l : Layout) (x y : Value) → 0 < size → is_single_value a.now ≡ true → is_single_value b.now ≡ true → has_near_offsets a.now ≡ true →
        has_near_offsets b.now ≡ true → ArePointers (S.size_of sizes.now) l a.now b.now x y → IsSoleVerdict l (difference l size x y) result }
{
    of_parts(size, sizes, a, b)
}

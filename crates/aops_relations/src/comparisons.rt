//! Comparisons of pointers.
ghost use Rattle.std.specs.Prelude.{◌≡◌, true, cond, IsTrue, Ok, Err, []};
ghost use Rattle.c_base.specs.declared.kind.Kind.{Kind};
ghost use Rattle.c_memory.specs.Layouts.{Layout};
ghost use Rattle.c_memory.specs.Values.{Value};
ghost use Rattle.c_pointers.specs.Pointers.{comparison};
ghost use Rattle.avalue_base.specs.Meaning.{Means};
ghost use Rattle.avalue_base.specs.Meets.{has_near_offsets, meet_of};
ghost use Rattle.avalue_base.specs.Numbers.{is_empty, words};
ghost use Rattle.avalue_base.specs.Values.{Separate};
ghost use Rattle.avalue_values.specs.Views.{numbers_alone};
ghost use Rattle.avalue_base.specs.Singles.{is_single_value};
ghost use Rattle.aops_relations.specs.Placed.{ArePointers};
ghost use Rattle.aops_relations.specs.Soles.{IsSoleVerdict};
ghost use Rattle.aops_relations.specs.Comparisons.{by_numbers, is_equality, judged, nothing, one_base, op_of, tested, two_addresses, two_bases, two_numbers, unknown, untied, with_null, with_numbers, zero_alone};

use crate::places::{all_good, all_inside, all_within, one_address, some_inside};
use aops::{related, truth_set};
use avalue_parts::{Address, Sizes, is_none, meet_of};
use avalue_values::AVal;
use c_base::operators::Rel;
use ival_arith::holds_number;
use ival_core::{Ival, run_from};

/// What a comparison gives.
#[derive(Drop)]
pub struct Verdict {
    /// Holds each truth.
    pub set: Ival,
    /// It is defined for all values.
    pub sure: bool,
}

fn is_equality(rel: Rel) -> bool
    ensures { result ≡ is_equality rel }
{
    match rel {
        Rel::Eq => true,
        Rel::Ne => true,
        Rel::Lt => false,
        Rel::Le => false,
        Rel::Gt => false,
        Rel::Ge => false,
    }
}

/// What the relation is of pointers that are not equal.
fn untied(rel: Rel) -> Ival
    ensures { result ≡ untied rel }
{
    match rel {
        Rel::Eq => truth_set(false, true),
        Rel::Ne => truth_set(true, false),
        Rel::Lt => truth_set(false, false),
        Rel::Le => truth_set(false, false),
        Rel::Gt => truth_set(false, false),
        Rel::Ge => truth_set(false, false),
    }
}

/// The set where the test holds, or nothing.
pub(crate) fn set_if(test: bool, set: Ival) -> Ival
    ensures { result ≡ cond test set nothing }
{
    if test { set } else { truth_set(false, false) }
}

fn unknown() -> Verdict
    ensures { result ≡ unknown }
{
    Verdict {
        set: truth_set(true, true),
        sure: false,
    }
}

fn one_base(rel: Rel, size: u64, x: &Address, y: &Address) -> Verdict
    ensures { result ≡ one_base rel size x.now y.now }
{
    let some = some_inside(false, size, x) && some_inside(false, size, y);
    Verdict {
        set: set_if(some, related(rel, x.offsets(), y.offsets())),
        sure: all_inside(false, size, x) && all_inside(false, size, y),
    }
}

fn two_bases(rel: Rel, left: u64, right: u64, x: &Address, y: &Address) -> Verdict
    ensures { result ≡ two_bases rel left right x.now y.now }
{
    let some = some_inside(true, left, x) && some_inside(true, right, y);
    let all = all_inside(true, left, x) && all_inside(true, right, y);
    Verdict {
        set: set_if(some, untied(rel)),
        sure: is_equality(rel) && all,
    }
}

fn two_addresses<S: Sizes>(rel: Rel, sizes: &S, x: &Address, y: &Address) -> Verdict
    ensures { result ≡ two_addresses rel (S.size_of sizes.now) x.now y.now }
{
    let left = x.base();
    let right = y.base();
    if left.0 == right.0 {
        return one_base(rel, sizes.size(left), x, y);
    }
    two_bases(rel, sizes.size(left), sizes.size(right), x, y)
}

fn zero_alone(numbers: &Ival) -> bool
    ensures { result ≡ zero_alone numbers.now }
{
    all_within(false, 0, numbers)
}

fn with_null(rel: Rel, size: u64, x: &Address, numbers: &Ival) -> Verdict
    ensures { result ≡ with_null rel size x.now numbers.now }
{
    let some = holds_number(numbers, 0) && some_inside(false, size, x);
    let all = zero_alone(numbers) && all_inside(false, size, x);
    Verdict {
        set: set_if(some, untied(rel)),
        sure: is_equality(rel) && all,
    }
}

fn with_numbers<S: Sizes>(rel: Rel, sizes: &S, x: &Address, a: &AVal) -> Verdict
    ensures { result ≡ with_numbers rel (S.size_of sizes.now) x.now (numbers_alone a.now) }
{
    match a.numbers_alone() {
        None => unknown(),
        Some(numbers) => with_null(rel, sizes.size(x.base()), x, numbers),
    }
}

/// The numbers of 64 bits.
fn words() -> Ival
    ensures { result ≡ words }
{
    run_from(0, (1 << 64) - 1, 1)
}

/// Whether no number is a pointer's.
pub(crate) fn has_no_word(numbers: &Ival) -> bool
    ensures { result ≡ is_empty (meet_of numbers.now words).shape }
{
    is_none(&meet_of(numbers, &words()))
}

fn two_numbers(rel: Rel, a: &Ival, b: &Ival) -> Verdict
    ensures { result ≡ two_numbers rel a.now b.now }
{
    let equality = is_equality(rel);
    let none = has_no_word(a) || has_no_word(b);
    Verdict {
        set: set_if(equality, related(rel, a, b)),
        sure: equality || none,
    }
}

fn tested<S: Sizes>(rel: Rel, sizes: &S, a: &AVal, numbers: &Ival) -> Verdict
    ensures { result ≡ tested rel (S.size_of sizes.now) a.now numbers.now }
{
    let all = zero_alone(numbers) && all_good(sizes, a);
    Verdict {
        set: truth_set(true, true),
        sure: is_equality(rel) && all,
    }
}

fn by_numbers<S: Sizes>(rel: Rel, sizes: &S, a: &AVal, b: &AVal) -> Verdict
    ensures { result ≡ by_numbers rel (S.size_of sizes.now) a.now b.now (numbers_alone a.now) (numbers_alone b.now) }
{
    match a.numbers_alone() {
        None => match b.numbers_alone() {
            None => unknown(),
            Some(right) => tested(rel, sizes, a, right),
        },
        Some(left) => match b.numbers_alone() {
            None => tested(rel, sizes, b, left),
            Some(right) => two_numbers(rel, left, right),
        },
    }
}

fn judged<S: Sizes>(rel: Rel, sizes: &S, a: &AVal, b: &AVal) -> Verdict
    ensures { result ≡ judged rel (S.size_of sizes.now) a.now b.now }
{
    match one_address(a) {
        None => match one_address(b) {
            None => by_numbers(rel, sizes, a, b),
            Some(y) => with_numbers(rel, sizes, y, a),
        },
        Some(x) => match one_address(b) {
            None => with_numbers(rel, sizes, x, b),
            Some(y) => two_addresses(rel, sizes, x, y),
        },
    }
}

/// The truths that a relation of two pointers may have; where the verdict isn't sure, it may be undefined (C11 6.5.8p5, 6.5.9p6).
pub fn compared<S: Sizes>(rel: Rel, sizes: &S, a: &AVal, b: &AVal) -> Verdict
    ensures value { result ≡ judged rel (S.size_of sizes.now) a.now b.now }
    ensures holds { (l : Layout) (x y z : Value) → ArePointers (S.size_of sizes.now) l a.now b.now x y →
        comparison (op_of rel) l x y ≡ Ok z → Means l (Separate result.set []) z }
    ensures sure { IsTrue result.sure → (l : Layout) (x y : Value) (kind : Kind) → ArePointers (S.size_of sizes.now) l a.now b.now x y →
        comparison (op_of rel) l x y ≡ Err kind → ⊥ }
    ensures sole { (l : Layout) (x y : Value) → is_single_value a.now ≡ true → is_single_value b.now ≡ true → has_near_offsets a.now ≡ true →
        has_near_offsets b.now ≡ true → ArePointers (S.size_of sizes.now) l a.now b.now x y → IsSoleVerdict l (comparison (op_of rel) l x y) result }
{
    judged(rel, sizes, a, b)
}

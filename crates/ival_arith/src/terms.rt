//! Products, quotients and remainders that neither wrap nor leave the numbers that an `Ival` may hold.

ghost use Rattle.std.specs.Prelude.{◌≡◌, ◌<◌, ◌≤◌, ◌^◌, ◌*◌, ◌-◌, ◌&&◌, ◌||◌, ℤ, pos, ◌*ℤ◌, neg_ℤ, int_div, int_rem, unsigned_abs, cond, min, true, false, IfSome, IfNone};
ghost use Rattle.ival_core.specs.Sets.{IsNumber, Among};
ghost use Rattle.ival_core.specs.Ivals.{Holds, IsOnly};
ghost use Rattle.ival_core.specs.Joined.{with_numbers};
ghost use Rattle.ival_core.specs.Views.{bounds_of};
ghost use Rattle.ival_arith.specs.Pieces.{none, gathered, all_changed};
ghost use Rattle.ival_arith.specs.Promises.{Outcome, Leaves, Stays};
ghost use Rattle.ival_arith.specs.Values.{extent, is_natural};
ghost use Rattle.ival_arith.specs.Kinds.{is_out, holds_some, products_leave};
ghost use Rattle.ival_arith.specs.Exact.{shape_option};
ghost use Rattle.ival_arith.specs.Terms.{term, IsDefined, terms, crossed, around, scaled, scaled_onto, long_term, term_value, lacks, exact_term, AllDefined, Lacks};

use crate::arithmetic::both;
use crate::kinds::{either, holds_number, holds_some};
use crate::pieces::{Change, changed, join, with};
use crate::products::{extent, is_natural, low_of};
use ival_core::{Ival, LIMIT, Progression, Shape, run_from};

/// Which term of two numbers.
#[derive(Clone, Copy)]
pub enum Term {
    Product,
    Quotient,
    Remainder,
}

fn term_of(op: Term, x: i128, y: i128) -> i128
    requires left { IsNumber x }
    requires right { IsNumber y }
    requires defined { IsDefined op x y }
    ensures value { result ≡ term op x y }
    ensures number { IsNumber result }
{
    match op {
        Term::Product => x * y,
        Term::Quotient => x / y,
        Term::Remainder => x % y,
    }
}

/// With the terms of `x` with each of `others`.
fn with_terms(set: &Ival, op: Term, x: i128, others: &[i128]) -> Ival
    requires left { IsNumber x }
    requires right { (y : ℤ) → Among others.now y → IsNumber y }
    requires defined { (y : ℤ) → Among others.now y → IsDefined op x y }
    ensures { result.shape ≡ with_numbers set.now.shape (terms op x others.now) }
{
    let mut all = set.copy();
    for y in others {
        all = with(&all, term_of(op, x, *y));
    }
    all
}

/// The terms of each of `numbers` with each of `others`.
fn few_terms(op: Term, numbers: &[i128], others: &[i128]) -> Ival
    requires left { (x : ℤ) → Among numbers.now x → IsNumber x }
    requires right { (y : ℤ) → Among others.now y → IsNumber y }
    requires defined { (x y : ℤ) → Among numbers.now x → Among others.now y → IsDefined op x y }
    ensures { result.shape ≡ gathered (crossed op numbers.now others.now) }
{
    let mut all = Ival::empty();
    for x in numbers {
        all = with_terms(&all, op, *x, others);
    }
    all
}

/// The numbers that are at most `m` away from 0, without the negative ones where there are none.
fn around(natural: bool, m: u128) -> Ival
    requires { m ≤ 2 ^ 120 }
    ensures { result.shape ≡ around natural m }
{
    run_from(low_of(natural, m), m as i128, 1)
}

/// How far a product is from 0.
fn far(a: u128, b: u128) -> u128
    ensures value { result ≡ min (a * b) (2 ^ 120) }
    ensures small { result ≤ 2 ^ 120 }
{
    match a.checked_mul(b) {
        Some(n) => n.min(LIMIT as u128),
        None => LIMIT as u128,
    }
}

/// The numbers of a set, negated where `negative` says so.
fn turned(set: &Ival, negative: bool) -> Ival
    ensures { result.shape
        ≡ cond negative (all_changed Change.Negative set.now.shape) set.now.shape }
{
    if negative {
        changed(set, Change::Negative)
    } else {
        set.copy()
    }
}

/// The numbers of a set, each `y` times.
fn scaled(set: &Ival, y: i128) -> Ival
    requires { (x : ℤ) → Holds set.now x → IsNumber (x *ℤ y) }
    ensures { result.shape ≡ scaled y set.now.shape }
{
    if y == 0 {
        return Ival::single(0);
    }
    let size = y.unsigned_abs();
    if size < 1 << 64 {
        changed(&turned(set, y < 0), Change::Times(size as u64))
    } else {
        around(false, far(extent(set), size))
    }
}

/// The products of the numbers of a set and each of `others`.
fn scaled_by(set: &Ival, others: &[i128]) -> Ival
    requires { (x y : ℤ) → Holds set.now x → Among others.now y → IsNumber (x *ℤ y) }
    ensures { result.shape ≡ scaled_onto none set.now.shape others.now }
{
    let mut all = Ival::empty();
    for other in others {
        all = join(&all, &scaled(set, *other));
    }
    all
}

/// Products of two long sets.
fn product_hull(a: &Ival, b: &Ival) -> Ival
    ensures { result.shape
        ≡ around (is_natural (bounds_of a.now.shape) && is_natural (bounds_of b.now.shape))
        (min (extent (bounds_of a.now.shape) * extent (bounds_of b.now.shape)) (2 ^ 120)) }
{
    around(
        both(is_natural(a), is_natural(b)),
        far(extent(a), extent(b)),
    )
}

/// The products of a long set and another.
fn run_products(a: &Ival, run: Progression, b: &Ival) -> Ival
    requires run { a.now.shape ≡ Shape.Many run }
    requires defined { (x y : ℤ) → Holds a.now x → Holds b.now y → IsNumber (x *ℤ y) }
    ensures { result.shape ≡ long_term Term.Product a.now.shape b.now.shape }
{
    match b.shape() {
        Shape::Few(few) => scaled_by(a, few.as_slice()),
        Shape::Many(_) => product_hull(a, b),
    }
}

fn products(a: &Ival, b: &Ival) -> Ival
    requires { (x y : ℤ) → Holds a.now x → Holds b.now y → IsNumber (x *ℤ y) }
    ensures { result.shape ≡ long_term Term.Product a.now.shape b.now.shape }
{
    match a.shape() {
        Shape::Few(few) => scaled_by(b, few.as_slice()),
        Shape::Many(run) => run_products(a, *run, b),
    }
}

fn quotients(a: &Ival, b: &Ival) -> Ival
    ensures { result.shape ≡ long_term Term.Quotient a.now.shape b.now.shape }
{
    around(both(is_natural(a), is_natural(b)), extent(a))
}

fn remainders(a: &Ival, b: &Ival) -> Ival
    ensures { result.shape ≡ long_term Term.Remainder a.now.shape b.now.shape }
{
    let below = extent(b).saturating_sub(1);
    around(is_natural(a), extent(a).min(below))
}

/// The terms of two sets, one of them long.
fn long_term(op: Term, a: &Ival, b: &Ival) -> Ival
    requires { AllDefined op a.now b.now }
    ensures { result.shape ≡ long_term op a.now.shape b.now.shape }
{
    match op {
        Term::Product => products(a, b),
        Term::Quotient => quotients(a, b),
        Term::Remainder => remainders(a, b),
    }
}

/// `a` has these few numbers.
fn few_value(op: Term, a: &Ival, numbers: &[i128], b: &Ival) -> Ival
    requires few { a.now.shape ≡ Shape.Few (record { items = numbers.now }) }
    requires defined { AllDefined op a.now b.now }
    ensures { result.shape ≡ term_value op a.now.shape b.now.shape }
{
    match b.shape() {
        Shape::Few(few) => few_terms(op, numbers, few.as_slice()),
        Shape::Many(_) => long_term(op, a, b),
    }
}

fn term_value(op: Term, a: &Ival, b: &Ival) -> Ival
    requires { AllDefined op a.now b.now }
    ensures { result.shape ≡ term_value op a.now.shape b.now.shape }
{
    match a.shape() {
        Shape::Few(few) => few_value(op, a, few.as_slice(), b),
        Shape::Many(_) => long_term(op, a, b),
    }
}

/// The product is below -2^120 or above 2^120.
fn is_out(x: i128, y: i128) -> bool
    ensures { result ≡ is_out (neg_ℤ (pos (2 ^ 120))) (pos (2 ^ 120)) (x *ℤ y) }
{
    match x.checked_mul(y) {
        None => true,
        Some(n) => either(n < -LIMIT, LIMIT < n),
    }
}

/// Some product is below -2^120 or above 2^120.
fn products_leave(a: &Ival, b: &Ival) -> bool
    ensures { result ≡ products_leave (neg_ℤ (pos (2 ^ 120))) (pos (2 ^ 120))
        (bounds_of a.now.shape) (bounds_of b.now.shape) }
{
    let Some((low_a, high_a)) = a.bounds() else {
        return false;
    };
    let Some((low_b, high_b)) = b.bounds() else {
        return false;
    };
    let first = either(is_out(low_a, low_b), is_out(low_a, high_b));
    let last = either(is_out(high_a, low_b), is_out(high_a, high_b));
    either(first, last)
}

/// Some term of numbers of the sets is not defined.
fn lacks(op: Term, a: &Ival, b: &Ival) -> bool
    ensures { result ≡ lacks op a.now.shape b.now.shape }
{
    match op {
        Term::Product => products_leave(a, b),
        Term::Quotient | Term::Remainder => both(holds_some(a), holds_number(b, 0)),
    }
}

fn exact_term(op: Term, a: &Ival, b: &Ival) -> Option<Ival>
    ensures value { shape_option result ≡ exact_term op a.now.shape b.now.shape }
    ensures defined { IfSome result (λ v. AllDefined op a.now b.now) }
    ensures lacks { IfNone result (Lacks op a.now b.now) }
{
    if lacks(op, a, b) {
        None
    } else {
        Some(term_value(op, a, b))
    }
}

/// The products of the numbers of two sets; `None` where one is below -2^120 or above 2^120.
pub fn exact_mul(a: &Ival, b: &Ival) -> Option<Ival>
    ensures value { shape_option result ≡ exact_term Term.Product a.now.shape b.now.shape }
    ensures stays { IfSome result (λ v. Stays (λ x y. x *ℤ y) a.now b.now) }
    ensures holds { IfSome result (λ v. (n : ℤ) → Outcome (λ x y. x *ℤ y) a.now b.now n
        → Holds v n) }
    ensures single { (x y : ℤ) → IsOnly a.now x → IsOnly b.now y
        → IfSome result (λ v. IsOnly v (x *ℤ y)) }
    ensures leaves { IfNone result (Leaves (λ x y. x *ℤ y) a.now b.now) }
{
    exact_term(Term::Product, a, b)
}

/// The quotients of the numbers of two sets, toward zero (C11 6.5.5p6); `None` where a divisor is 0.
pub fn exact_div(a: &Ival, b: &Ival) -> Option<Ival>
    ensures value { shape_option result ≡ exact_term Term.Quotient a.now.shape b.now.shape }
    ensures divided { IfSome result (λ v. (x : ℤ) → Holds a.now x → Holds b.now (pos 0) → ⊥) }
    ensures holds { IfSome result (λ v. (n : ℤ) → Outcome int_div a.now b.now n → Holds v n) }
    ensures single { (x y : ℤ) → IsOnly a.now x → IsOnly b.now y
        → IfSome result (λ v. IsOnly v (int_div x y)) }
    ensures undivided { IfNone result ((x : ℤ) × Holds a.now x × Holds b.now (pos 0)) }
{
    exact_term(Term::Quotient, a, b)
}

/// The remainders of the numbers of two sets, with the signs of what is divided (C11 6.5.5p6); `None` where a divisor is 0.
pub fn exact_rem(a: &Ival, b: &Ival) -> Option<Ival>
    ensures value { shape_option result ≡ exact_term Term.Remainder a.now.shape b.now.shape }
    ensures divided { IfSome result (λ v. (x : ℤ) → Holds a.now x → Holds b.now (pos 0) → ⊥) }
    ensures holds { IfSome result (λ v. (n : ℤ) → Outcome int_rem a.now b.now n → Holds v n) }
    ensures single { (x y : ℤ) → IsOnly a.now x → IsOnly b.now y
        → IfSome result (λ v. IsOnly v (int_rem x y)) }
    ensures undivided { IfNone result ((x : ℤ) × Holds a.now x × Holds b.now (pos 0)) }
{
    exact_term(Term::Remainder, a, b)
}

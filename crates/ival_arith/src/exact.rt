//! Results that neither wrap nor leave the numbers that an `Ival` may hold.

ghost use Rattle.std.specs.Prelude.{◌≡◌, ℤ, ◌+ℤ◌, ◌-ℤ◌, true, false, IfSome, IfNone};
ghost use Rattle.ival_core.specs.Sets.{IsLeast};
ghost use Rattle.ival_core.specs.Views.{bounds_of};
ghost use Rattle.ival_arith.specs.Promises.{Outcome, Leaves, Stays};
ghost use Rattle.ival_arith.specs.Exact.{shape_option, sums_stay, exact_sum, exact_difference};

use crate::pieces::{Change, changed};
use crate::sums::sums;
use ival_core::{Ival, LIMIT};

/// All sums are numbers that an `Ival` may hold.
fn sums_stay(a: &Ival, b: &Ival) -> bool
    ensures value { result ≡ sums_stay (bounds_of a.now.shape) (bounds_of b.now.shape) }
    ensures stays { result ≡ true → Stays (λ x y. x +ℤ y) a.now b.now }
    ensures leaves { result ≡ false → Leaves (λ x y. x +ℤ y) a.now b.now }
{
    let Some((low_a, high_a)) = a.bounds() else {
        return true;
    };
    let Some((low_b, high_b)) = b.bounds() else {
        return true;
    };
    if low_a + low_b < -LIMIT {
        return false;
    }
    high_a + high_b <= LIMIT
}

/// The sums of the numbers of two sets; `None` where one is below -2^120 or above 2^120.
pub fn exact_add(a: &Ival, b: &Ival) -> Option<Ival>
    ensures value { shape_option result ≡ exact_sum a.now.shape b.now.shape }
    ensures stays { IfSome result (λ v. Stays (λ x y. x +ℤ y) a.now b.now) }
    ensures least { IfSome result (λ v. IsLeast (Outcome (λ x y. x +ℤ y) a.now b.now) v.shape) }
    ensures leaves { IfNone result (Leaves (λ x y. x +ℤ y) a.now b.now) }
{
    if sums_stay(a, b) {
        Some(sums(a, b, -LIMIT, LIMIT))
    } else {
        None
    }
}

/// The differences of the numbers of two sets; `None` where one is below -2^120 or above 2^120.
pub fn exact_sub(a: &Ival, b: &Ival) -> Option<Ival>
    ensures value { shape_option result ≡ exact_difference a.now.shape b.now.shape }
    ensures stays { IfSome result (λ v. Stays (λ x y. x -ℤ y) a.now b.now) }
    ensures least { IfSome result (λ v. IsLeast (Outcome (λ x y. x -ℤ y) a.now b.now) v.shape) }
    ensures leaves { IfNone result (Leaves (λ x y. x -ℤ y) a.now b.now) }
{
    exact_add(a, &changed(b, Change::Negative))
}

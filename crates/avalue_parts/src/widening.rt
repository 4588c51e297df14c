//! The widening of sets of numbers and of byte offsets, so that their growth ends.
ghost use Rattle.std.specs.Prelude.{◌≡◌, ℕ};
ghost use Rattle.ival_core.specs.Widenings.{AreMarks};
ghost use Rattle.avalue_parts.specs.Widened.{widen_of, widened_offsets, widened_set};

use crate::element::Address;
use crate::orders::{NEAR, meet_of};
use c_base::number::BaseId;
use ival_core::Ival;
use sorted_lists::Unites;

/// How many bytes the bases have.
pub trait Sizes {
    ghost size_of: { Self → ℕ → ℕ };

    fn size(&self, base: BaseId) -> u64
        ensures { result ≡ size_of self.now base.0 };
}

fn widen_of(a: &Ival, b: &Ival, marks: &[i128]) -> Ival
    requires { AreMarks marks.now }
    ensures { result ≡ widen_of marks.now a.now b.now }
{
    a.widen(b, marks)
}

/// The numbers of both, where a bound of the first that the second moves goes on to the next of the marks and of the own ones.
pub fn widened(a: &Ival, b: &Ival, marks: &[i128], own: &[i128]) -> Ival
    requires marks { AreMarks marks.now }
    requires own { AreMarks own.now }
    ensures { result ≡ widened_set marks.now own.now a.now b.now }
{
    meet_of(&widen_of(a, b, marks), &widen_of(a, b, own))
}

/// The same of byte offsets into a base of so many bytes, whose own marks are 0, the end of the base, and the ends of the offsets that are kept.
fn widened_offsets(a: &Ival, b: &Ival, marks: &[i128], size: u64) -> Ival
    requires { AreMarks marks.now }
    ensures { result ≡ widened_offsets marks.now size a.now b.now }
{
    if size == 0 {
        return widened(a, b, marks, &[-NEAR, 0, NEAR]);
    }
    if size >= NEAR as u64 {
        return widened(a, b, marks, &[-NEAR, 0, NEAR]);
    }
    widened(a, b, marks, &[-NEAR, 0, size as i128, NEAR])
}

/// The widening of addresses.
#[derive(Drop)]
pub struct Widening<'a, S> {
    pub sizes: &'a S,
    pub marks: &'a [i128],
}

impl<'a, S: Sizes> Unites<Address> for Widening<'a, S> {
    ghost use Rattle.ival_core.specs.Widenings.{AreMarks};
    ghost use Rattle.avalue_parts.specs.Widened.{widened_address};

    ghost ready = { λ w. AreMarks w.marks.now };

    ghost united = { λ w. widened_address (S.size_of w.sizes.now) w.marks.now };

    fn unite(&self, x: &Address, y: &Address) -> Address {
        let base = x.base();
        let size = self.sizes.size(base);
        Address::new(
            base,
            widened_offsets(x.offsets(), y.offsets(), self.marks, size),
        )
    }
}

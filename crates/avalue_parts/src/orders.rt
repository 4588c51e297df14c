//! What two sets of numbers have in common, and what they have together.
ghost use Rattle.std.specs.Prelude.{◌≡◌};
ghost use Rattle.ival_core.specs.Views.{bounds_of};
ghost use Rattle.avalue_base.specs.Meets.{lies_near, meet_of, met_offsets};
ghost use Rattle.avalue_base.specs.Numbers.{is_empty, join_of, lies_in as numbers_lie_in};

use ival_core::Ival;

/// Whether the set has no number.
pub fn is_none(set: &Ival) -> bool
    ensures { result ≡ is_empty set.now.shape }
{
    match set.bounds() {
        None => true,
        Some(_) => false,
    }
}

/// The least set that holds both.
pub fn joined(a: &Ival, b: &Ival) -> Ival
    ensures { result ≡ join_of a.now b.now }
{
    a.join(b)
}

pub fn is_included(a: &Ival, b: &Ival) -> bool
    ensures { result ≡ numbers_lie_in a.now.shape b.now.shape }
{
    a.included(b)
}

/// Offsets are near from `-NEAR` to `NEAR`.
pub const NEAR: i128 = 1 << 62;

/// Whether all offsets lie from -2^62 to 2^62.
pub fn is_near(offsets: &Ival) -> bool
    ensures { result ≡ lies_near (bounds_of offsets.now.shape) }
{
    match offsets.bounds() {
        None => true,
        Some((low, high)) => {
            if low < -NEAR {
                return false;
            }
            high <= NEAR
        }
    }
}

/// The numbers of both.
pub fn meet_of(a: &Ival, b: &Ival) -> Ival
    ensures { result ≡ meet_of a.now b.now }
{
    a.meet(b)
}

/// The offsets of both, where they are near.
pub fn met_offsets(a: &Ival, b: &Ival) -> Ival
    ensures { result ≡ met_offsets a.now b.now }
{
    if !is_near(a) {
        return a.copy();
    }
    if !is_near(b) {
        return a.copy();
    }
    meet_of(a, b)
}

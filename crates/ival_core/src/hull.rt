ghost use Rattle.std.specs.Prelude.{◌≡◌, ◌⊎◌, ◌<◌, ℕ, ℤ, length};
ghost use Rattle.std.specs.Int.{IsGcd};
ghost use Rattle.ival_core.specs.Hulls.{Spans, IsHull};
ghost use Rattle.ival_core.specs.Sets.{Among};

use crate::value::Progression;

impl Progression {
    /// The progression of one number.
    pub(crate) fn of(n: i128) -> Progression
        ensures { Spans (λ k. k ≡ n) result }
    {
        Progression {
            low: n,
            high: n,
            stride: 0,
        }
    }

    /// The least progression round both.
    pub(crate) fn hull(self, other: Progression) -> Progression
        ensures { IsHull self other result }
    {
        let strides = gcd(self.stride, other.stride);
        Progression {
            low: self.low.min(other.low),
            high: self.high.max(other.high),
            stride: gcd(strides, self.low.abs_diff(other.low)),
        }
    }
}

/// The least progression round all of `numbers`.
pub(crate) fn hull_of(numbers: &[i128]) -> Progression
    requires { 0 < length numbers.now }
    ensures { Spans (Among numbers.now) result }
{
    let mut run = Progression::of(numbers[0]);
    for number in numbers {
        run = run.hull(Progression::of(*number));
    }
    run
}

/// The greatest common divisor, where that of 0 and `b` is `b`.
pub fn gcd(a: u128, b: u128) -> u128
    ensures { IsGcd a b result }
{
    let mut greater = a;
    let mut less = b;
    while less != 0 {
        let rest = greater % less;
        greater = less;
        less = rest;
    }
    greater
}

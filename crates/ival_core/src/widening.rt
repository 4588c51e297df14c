ghost use Rattle.std.specs.Prelude.{◌≡◌, ◌⊎◌, ◌≤◌, ◌+◌, ◌^◌, ℤ, pos, neg_ℤ, ◌<ℤ◌, ◌≤ℤ◌, length, take, drop};
ghost use Rattle.ival_core.specs.Sets.{Among, IsAscending, IsNumber};
ghost use Rattle.ival_core.specs.Ivals.{Holds, Includes, IsBounds, IsJoin, IsWidening, Stays, MovesTo};
ghost use Rattle.ival_core.specs.Widenings.{AreMarks, IsMarkBelow, IsMarkAbove, IsLowerEnd, IsUpperEnd, first_at_least, last_at_most, lower_end, upper_end, moved_shape, between, widened};
ghost use Rattle.ival_core.specs.Chains.{Falls};
ghost use Rattle.ival_core.specs.Views.{bounds_of};

use crate::value::{Ival, LIMIT};

/// The least number that an `Ival` may hold.
const LOWEST: i128 = -LIMIT;

impl Ival {
    /// The numbers of both, where a bound of this set that `o` moves goes on to the next mark.
    ///
    /// A lower bound goes to the greatest mark that is not above it, and an upper bound to the
    /// least that is not below it; with no such mark it goes to the end of the numbers. From there
    /// it comes back to the nearest number of the join's congruence. Where no bound moves, the
    /// answer is the join.
    pub fn widen(&self, o: &Ival, marks: &[i128]) -> Ival
        requires { AreMarks marks.now }
        ensures value { (joined : Ival) → IsJoin self.now o.now joined
            → result.shape ≡ widened self.now.shape joined.shape marks.now }
        ensures meaning { IsWidening self.now o.now marks.now result }
        ensures falls { Falls marks.now self.now result }
        ensures first { Includes result self.now }
        ensures second { Includes result o.now }
    {
        let joined = self.join(o);
        match self.bounds() {
            None => joined,
            Some((low, high)) => widen_from(low, high, joined, marks),
        }
    }
}

/// `joined`, whose bounds were `low` and `high` before.
fn widen_from(low: i128, high: i128, joined: Ival, marks: &[i128]) -> Ival
    requires marks { AreMarks marks.now }
    requires held { Holds joined low }
    ensures value { result.shape
        ≡ between marks.now low high joined.shape (bounds_of joined.shape) }
    ensures holds { Includes result joined }
    ensures how { Stays low high joined result ⊎ MovesTo marks.now low high joined result }
{
    match joined.bounds() {
        None => joined,
        Some((least, greatest)) => {
            if least < low {
                return move_bounds(low, high, least, greatest, &joined, marks);
            }
            if high < greatest {
                return move_bounds(low, high, least, greatest, &joined, marks);
            }
            joined
        }
    }
}

fn move_bounds(
    low: i128,
    high: i128,
    least: i128,
    greatest: i128,
    joined: &Ival,
    marks: &[i128],
) -> Ival
    requires marks { AreMarks marks.now }
    requires bounds { IsBounds joined.now least greatest }
    requires unstable { (least <ℤ low) ⊎ (high <ℤ greatest) }
    requires least { IsNumber least }
    requires greatest { IsNumber greatest }
    ensures value { result.shape ≡ moved_shape marks.now low high joined.now.shape least greatest }
    ensures holds { Includes result joined.now }
    ensures how { MovesTo marks.now low high joined.now result }
{
    let (rem, modulus) = joined.congruence();
    Ival::range(
        move_low(low, least, marks),
        move_high(high, greatest, marks),
        rem,
        modulus,
    )
}

/// Where a lower bound goes that was `low`, and that the join moves to `joined`.
fn move_low(low: i128, joined: i128, marks: &[i128]) -> i128
    requires marks { AreMarks marks.now }
    requires number { IsNumber joined }
    ensures value { result ≡ lower_end marks.now low joined }
    ensures end { IsLowerEnd marks.now low joined result }
    ensures below { result ≤ℤ joined }
    ensures number { IsNumber result }
{
    if joined < low {
        mark_at_most(joined, marks)
    } else {
        joined
    }
}

/// The same of an upper bound.
fn move_high(high: i128, joined: i128, marks: &[i128]) -> i128
    requires marks { AreMarks marks.now }
    requires number { IsNumber joined }
    ensures value { result ≡ upper_end marks.now high joined }
    ensures end { IsUpperEnd marks.now high joined result }
    ensures above { joined ≤ℤ result }
    ensures number { IsNumber result }
{
    if high < joined {
        mark_at_least(joined, marks)
    } else {
        joined
    }
}

/// The greatest mark that is not above `n`, or the least number.
fn mark_at_most(n: i128, marks: &[i128]) -> i128
    requires marks { AreMarks marks.now }
    requires number { IsNumber n }
    ensures value { result ≡ last_at_most (neg_ℤ (pos (2 ^ 120))) marks.now n }
    ensures mark { IsMarkBelow marks.now n result }
    ensures below { result ≤ℤ n }
    ensures number { IsNumber result }
{
    let at = marks_below(n + 1, marks);
    if at == 0 { LOWEST } else { marks[at - 1] }
}

/// The least mark that is not below `n`, or the greatest number.
fn mark_at_least(n: i128, marks: &[i128]) -> i128
    requires marks { AreMarks marks.now }
    requires number { IsNumber n }
    ensures value { result ≡ first_at_least (pos (2 ^ 120)) marks.now n }
    ensures mark { IsMarkAbove marks.now n result }
    ensures above { n ≤ℤ result }
    ensures number { IsNumber result }
{
    let at = marks_below(n, marks);
    if at == marks.len() { LIMIT } else { marks[at] }
}

/// How many of `marks` are below `n`, by halving.
fn marks_below(n: i128, marks: &[i128]) -> usize
    requires { IsAscending marks.now }
    ensures bound { result ≤ length marks.now }
    ensures before { (m : ℤ) → Among (take result marks.now) m → m <ℤ n }
    ensures after { (m : ℤ) → Among (drop result marks.now) m → n ≤ℤ m }
{
    let mut start = 0;
    let mut end = marks.len();
    while start < end {
        let middle = start + (end - start) / 2;
        if marks[middle] < n {
            start = middle + 1;
        } else {
            end = middle;
        }
    }
    start
}

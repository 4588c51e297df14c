//! Ranges of numbers.
ghost use Rattle.std.specs.Prelude.{◌≤ℤ◌};

use crate::marks::{first_at_least, last_at_most};

/// The numbers from `low` to `high`, of which there is one at least.
#[derive(Clone, Copy, Debug, PartialEq, Eq)]
pub struct Range {
    pub low: i64,
    pub high: i64,
    pub ghost some: { low ≤ℤ high },
}

/// The numbers of type `int` (C11 5.2.4.2.1).
pub const INT: Range = Range {
    low: -2147483648,
    high: 2147483647,
};

// The lower bound of a widened range: a bound that falls goes on to the next mark.
fn widened_low(kept: i64, other: i64, marks: &[i64]) -> i64
    ensures first { result ≤ℤ kept }
    ensures second { result ≤ℤ other }
{
    if other < kept {
        last_at_most(marks, other)
    } else {
        kept
    }
}

fn widened_high(kept: i64, other: i64, marks: &[i64]) -> i64
    ensures first { kept ≤ℤ result }
    ensures second { other ≤ℤ result }
{
    if kept < other {
        first_at_least(marks, other)
    } else {
        kept
    }
}

impl Range {
    ghost use Rattle.std.specs.Prelude.{◌≡◌, ◌||◌, ℤ, IsTrue};
    ghost use Rattle.first_analysis.specs.Parts.{is_there};
    ghost use Rattle.first_analysis.specs.Contents.{IsWithin, IncludesRange};

    fn join(self, other: Range) -> Range
        ensures first { (n : ℤ) → IsWithin self n → IsWithin result n }
        ensures second { (n : ℤ) → IsWithin other n → IsWithin result n }
    {
        Range {
            low: if self.low < other.low {
                self.low
            } else {
                other.low
            },
            high: if self.high < other.high {
                other.high
            } else {
                self.high
            },
        }
    }

    // The join, where each bound beyond this range's goes on to the next mark.
    fn widen(self, other: Range, marks: &[i64]) -> Range
        ensures first { (n : ℤ) → IsWithin self n → IsWithin result n }
        ensures second { (n : ℤ) → IsWithin other n → IsWithin result n }
    {
        Range {
            low: widened_low(self.low, other.low, marks),
            high: widened_high(self.high, other.high, marks),
        }
    }

    fn includes(self, other: Range) -> bool
        ensures { IsTrue result → (n : ℤ) → IsWithin other n → IsWithin self n }
    {
        self.low <= other.low && other.high <= self.high
    }

    /// The numbers of both. With marks the first is widened to them.
    pub fn merge(kept: Option<Range>, other: Option<Range>, marks: Option<&[i64]>) -> Option<Range>
        ensures first { IncludesRange result kept }
        ensures second { IncludesRange result other }
        ensures there { is_there result ≡ (is_there kept || is_there other) }
    {
        match kept {
            None => other,
            Some(first) => match other {
                None => Some(first),
                Some(second) => match marks {
                    None => Some(first.join(second)),
                    Some(marks) => Some(first.widen(second, marks)),
                },
            },
        }
    }

    /// Whether the numbers of `other` are all among those of `range`.
    pub fn is_included(other: Option<Range>, range: Option<Range>) -> bool
        ensures { IsTrue result → IncludesRange range other }
    {
        match other {
            None => true,
            Some(inner) => match range {
                None => false,
                Some(outer) => outer.includes(inner),
            },
        }
    }
}

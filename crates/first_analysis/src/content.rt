//! What a variable may hold.
ghost use Rattle.std.specs.Prelude.{IsTrue};
ghost use Rattle.first_analysis.specs.Parts.{has_part};

use crate::range::{INT, Range};

/// What a variable may hold: a number of a range, if it has one, or nothing yet where the flag stands; one of the two stands at least.
#[derive(Clone, Copy, Debug, PartialEq, Eq)]
pub struct Content {
    pub range: Option<Range>,
    pub uninit: bool,
    pub ghost part: { IsTrue (has_part range uninit) },
}

impl Content {
    ghost use Rattle.std.specs.Prelude.{Option, ℤ, None};
    ghost use Rattle.first_analysis.specs.Contents.{Holds, Includes, FitsInt};

    /// Nothing yet.
    pub fn nothing() -> Content
        ensures { Holds result None }
    {
        Content {
            range: None,
            uninit: true,
        }
    }

    /// Any number of type `int`, or nothing yet.
    pub fn anything() -> Content
        ensures { (x : Option ℤ) → FitsInt x → Holds result x }
    {
        Content {
            range: Some(INT),
            uninit: true,
        }
    }

    /// What either may hold. With marks it is widened: a bound that grows goes on to the next mark.
    #[tactic(auto, using(crate::proofs::Parts::parts_merged))]
    pub fn merge(self, other: Content, marks: Option<&[i64]>) -> Content
        ensures first { Includes result self }
        ensures second { Includes result other }
    {
        Content {
            range: Range::merge(self.range, other.range, marks),
            uninit: self.uninit || other.uninit,
        }
    }

    pub fn includes(self, other: Content) -> bool
        ensures { IsTrue result → Includes self other }
    {
        if other.uninit && !self.uninit {
            return false;
        }
        Range::is_included(other.range, self.range)
    }
}

ghost use Rattle.std.specs.Prelude.{◌≡◌, ◌⊎◌, ◌↔◌, ◌≤◌, ℤ, ◌<ℤ◌, ◌≤ℤ◌, IsTrue, length, take, drop};
ghost use Rattle.ival_core.specs.Sets.{Among, IsAscending, IsSmallSet, IsLeast, IsNumber, AllNumbers, Has, Steps, IsLongRun};
ghost use Rattle.ival_core.specs.Ivals.{Holds, Includes, IsJoin};

use crate::hull::hull_of;
use crate::value::{Ival, Progression, Shape, is_among};
use arrayvec::ArrayVec;

impl Ival {
    /// The least `Ival` that holds the numbers of both.
    pub fn join(&self, o: &Ival) -> Ival
        ensures { IsJoin self.now o.now result }
    {
        match &o.shape {
            Shape::Few(few) => with_all(self, few.as_slice()),
            Shape::Many(run) => join_run(self, o, *run),
        }
    }

    /// The numbers of this set and `x`.
    fn with(self, x: i128) -> Ival
        requires { IsNumber x }
        ensures { IsLeast (λ n. Holds self n ⊎ (n ≡ x)) result.shape }
    {
        let shape = self.shape;
        match shape {
            Shape::Few(few) => with_few(few, x),
            Shape::Many(run) => with_run(run, x),
        }
    }

    /// Whether each number of this set is one of `o`.
    pub fn included(&self, o: &Ival) -> bool
        ensures { IsTrue result ↔ Includes o.now self.now }
    {
        match &self.shape {
            Shape::Few(few) => all_in(few.as_slice(), o),
            Shape::Many(run) => run_in(*run, o),
        }
    }
}

/// `other` holds `run`.
fn join_run(set: &Ival, other: &Ival, run: Progression) -> Ival
    requires { other.now.shape ≡ Shape.Many run }
    ensures { IsJoin set.now other.now result }
{
    match &set.shape {
        Shape::Few(few) => with_all(other, few.as_slice()),
        Shape::Many(own) => join_runs(*own, run),
    }
}

fn join_runs(first: Progression, second: Progression) -> Ival
    requires first { IsLongRun first }
    requires second { IsLongRun second }
    ensures { IsLeast (λ n. Steps first n ⊎ Steps second n) result.shape }
{
    Ival {
        shape: Shape::Many(first.hull(second)),
    }
}

fn with_run(run: Progression, x: i128) -> Ival
    requires run { IsLongRun run }
    requires number { IsNumber x }
    ensures { IsLeast (λ n. Steps run n ⊎ (n ≡ x)) result.shape }
{
    Ival {
        shape: Shape::Many(run.hull(Progression::of(x))),
    }
}

fn with_all(set: &Ival, numbers: &[i128]) -> Ival
    requires { AllNumbers numbers.now }
    ensures { IsLeast (λ n. Holds set.now n ⊎ Among numbers.now n) result.shape }
{
    let mut all = set.copy();
    for number in numbers {
        all = all.with(*number);
    }
    all
}

fn with_few(few: ArrayVec<i128, 8>, x: i128) -> Ival
    requires set { IsSmallSet few.items }
    requires number { IsNumber x }
    ensures { IsLeast (λ n. Among few.items n ⊎ (n ≡ x)) result.shape }
{
    if is_among(few.as_slice(), x) {
        return Ival {
            shape: Shape::Few(few),
        };
    }
    let at = place(few.as_slice(), x);
    if few.is_full() {
        return Ival {
            shape: Shape::Many(hull_of(few.as_slice()).hull(Progression::of(x))),
        };
    }
    let mut more = few;
    more.insert(at, x);
    Ival {
        shape: Shape::Few(more),
    }
}

/// How many of `numbers` are below `x`.
fn place(numbers: &[i128], x: i128) -> usize
    requires { IsAscending numbers.now }
    ensures bound { result ≤ length numbers.now }
    ensures before { (n : ℤ) → Among (take result numbers.now) n → n <ℤ x }
    ensures after { (n : ℤ) → Among (drop result numbers.now) n → x ≤ℤ n }
{
    for (i, number) in numbers.iter().enumerate() {
        if x <= *number {
            return i;
        }
    }
    numbers.len()
}

fn all_in(numbers: &[i128], set: &Ival) -> bool
    ensures { IsTrue result ↔ ((n : ℤ) → Among numbers.now n → Holds set.now n) }
{
    for number in numbers {
        if !set.contains(*number) {
            return false;
        }
    }
    true
}

fn run_in(run: Progression, set: &Ival) -> bool
    requires { IsLongRun run }
    ensures { IsTrue result ↔ ((n : ℤ) → Steps run n → Holds set.now n) }
{
    match &set.shape {
        Shape::Few(_) => false,
        Shape::Many(wide) => run.is_within(wide),
    }
}

impl Progression {
    fn is_within(&self, wide: &Progression) -> bool
        requires own { IsLongRun self.now }
        requires other { IsLongRun wide.now }
        ensures { IsTrue result ↔ ((n : ℤ) → Steps self.now n → Steps wide.now n) }
    {
        if self.low < wide.low {
            return false;
        }
        if wide.high < self.high {
            return false;
        }
        if self.stride % wide.stride != 0 {
            return false;
        }
        self.low.abs_diff(wide.low) % wide.stride == 0
    }
}

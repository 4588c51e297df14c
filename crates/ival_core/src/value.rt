ghost use Rattle.std.specs.Prelude.{◌≡◌, ◌↔◌, ◌^◌, pos, neg_ℤ, ◌≤ℤ◌, IsTrue, IfSome, IfNone, ℤ, [], ◌∷◌, length};
ghost use Rattle.ival_core.specs.Sets.{IsValid, IsValid-prop, Among, IsAscending, AreEnds};
ghost use Rattle.ival_core.specs.Views.{ends_of, one_of};
ghost use Rattle.std.specs.Int.{int_rem_euclid};
ghost use Rattle.std.specs.Option.{option_copied};

use arrayvec::ArrayVec;

/// The numbers of a set lie from `-LIMIT` to `LIMIT`.
pub const LIMIT: i128 = 1 << 120;

/// The numbers `low`, `low + stride`, `low + 2 * stride` and so on, up to `high`.
#[derive(Clone, Copy, Drop)]
pub struct Progression {
    pub low: i128,
    pub high: i128,
    pub stride: u128,
}

/// How the numbers of an `Ival` are kept.
#[derive(Drop)]
pub enum Shape {
    /// The numbers, ascending.
    Few(ArrayVec<i128, 8>),
    /// More than 8 numbers, of which `high` is the last.
    Many(Progression),
}

/// A set of at most 8 numbers, or bounds with a congruence and more than 8 numbers.
#[derive(Drop)]
pub struct Ival {
    pub(crate) shape: Shape,
    pub ghost valid: { IsValid shape } by { IsValid-prop shape },
}

impl Ival {
    ghost use Rattle.ival_core.specs.Sets.{IsNumber};
    ghost use Rattle.ival_core.specs.Ivals.{Holds, IsOnly, IsBounds, IsNumbers, IsCongruence, HoldsMany};
    ghost use Rattle.ival_core.specs.Views.{bounds_of, single_of, numbers_of, congruence_of};

    /// No number.
    pub fn empty() -> Ival
        ensures value { result.shape ≡ Shape.Few (record { items = [] }) }
        ensures none { (n : ℤ) → Holds result n → ⊥ }
    {
        Ival {
            shape: Shape::Few(ArrayVec::new()),
        }
    }

    /// One number.
    pub fn single(n: i128) -> Ival
        requires { IsNumber n }
        ensures value { result.shape ≡ Shape.Few (record { items = n ∷ [] }) }
        ensures only { IsOnly result n }
    {
        let mut few = ArrayVec::new();
        few.push(n);
        Ival {
            shape: Shape::Few(few),
        }
    }

    /// How the numbers are kept.
    pub fn shape(&self) -> &Shape
        ensures { result.now ≡ self.now.shape }
    {
        &self.shape
    }

    /// The same set, without taking memory.
    pub fn copy(&self) -> Ival
        ensures { result ≡ self.now }
    {
        match &self.shape {
            Shape::Few(few) => Ival {
                shape: Shape::Few(copied(few)),
            },
            Shape::Many(run) => Ival {
                shape: Shape::Many(*run),
            },
        }
    }

    /// Whether `n` is one of the numbers.
    pub fn contains(&self, n: i128) -> bool
        ensures { IsTrue result ↔ Holds self.now n }
    {
        match &self.shape {
            Shape::Few(few) => is_among(few.as_slice(), n),
            Shape::Many(run) => run.contains(n),
        }
    }

    /// The number, where there is exactly one.
    pub fn as_single(&self) -> Option<i128>
        ensures value { result ≡ single_of self.now.shape }
        ensures some { IfSome result (λ n. IsOnly self.now n) }
        ensures none { IfNone result ((n : ℤ) → IsOnly self.now n → ⊥) }
    {
        match &self.shape {
            Shape::Few(few) => only(few.as_slice()),
            Shape::Many(_) => None,
        }
    }

    /// The least and the greatest number; `None` where there is no number.
    pub fn bounds(&self) -> Option<(i128, i128)>
        ensures value { result ≡ bounds_of self.now.shape }
        ensures some { IfSome result (λ b. IsBounds self.now b.0 b.1) }
        ensures none { IfNone result ((n : ℤ) → Holds self.now n → ⊥) }
    {
        match &self.shape {
            Shape::Few(few) => ends(few.as_slice()),
            Shape::Many(run) => Some((run.low, run.high)),
        }
    }

    /// The numbers, ascending; `None` where there are more than 8.
    pub fn numbers(&self) -> Option<&[i128]>
        ensures value { option_copied result ≡ numbers_of self.now.shape }
        ensures some { IfSome result (λ xs. IsNumbers self.now xs.now) }
        ensures none { IfNone result (HoldsMany self.now) }
    {
        match &self.shape {
            Shape::Few(few) => Some(few.as_slice()),
            Shape::Many(_) => None,
        }
    }

    /// Remainder and modulus of the numbers where there are more than 8, and (0, 1) otherwise.
    pub fn congruence(&self) -> (i128, i128)
        ensures value { result ≡ congruence_of self.now.shape }
        ensures same { IsCongruence self.now result.0 result.1 }
    {
        match &self.shape {
            Shape::Few(_) => (0, 1),
            Shape::Many(run) => run.congruence(),
        }
    }
}

impl Progression {
    ghost use Rattle.ival_core.specs.Sets.{IsLongRun, Steps};

    fn congruence(&self) -> (i128, i128)
        requires { IsLongRun self.now }
        ensures { result ≡ (
          int_rem_euclid self.now.low (pos self.now.stride),
          pos self.now.stride,
        ) }
    {
        let modulus = self.stride as i128;
        (self.low.rem_euclid(modulus), modulus)
    }

    fn contains(&self, n: i128) -> bool
        requires { IsLongRun self.now }
        ensures { IsTrue result ↔ Steps self.now n }
    {
        if n < self.low || self.high < n {
            return false;
        }
        n.abs_diff(self.low) % self.stride == 0
    }
}

fn copied(few: &ArrayVec<i128, 8>) -> ArrayVec<i128, 8>
    ensures { result ≡ few.now }
{
    let mut same = ArrayVec::new();
    let _ = same.try_extend_from_slice(few.as_slice());
    same
}

pub(crate) fn is_among(numbers: &[i128], n: i128) -> bool
    ensures { IsTrue result ↔ Among numbers.now n }
{
    for number in numbers {
        if *number == n {
            return true;
        }
    }
    false
}

fn only(numbers: &[i128]) -> Option<i128>
    ensures value { result ≡ one_of numbers.now }
    ensures some { IfSome result (λ n. numbers.now ≡ n ∷ []) }
    ensures none { IfNone result (length numbers.now ≡ 1 → ⊥) }
{
    if numbers.len() == 1 {
        Some(numbers[0])
    } else {
        None
    }
}

fn ends(numbers: &[i128]) -> Option<(i128, i128)>
    requires { IsAscending numbers.now }
    ensures value { result ≡ ends_of numbers.now }
    ensures some { IfSome result (λ b. AreEnds numbers.now b.0 b.1) }
    ensures none { IfNone result (numbers.now ≡ []) }
{
    if numbers.is_empty() {
        None
    } else {
        Some((numbers[0], numbers[numbers.len() - 1]))
    }
}

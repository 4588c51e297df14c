//! What stands in lists in ascending order of a key.
ghost use Rattle.std.specs.Prelude.{◌≡◌, ℕ, Bool, Option};

/// An element of such a list.
pub trait Keyed: Sized + Drop + Default {
    ghost key_of: { Self → ℕ };

    fn key(&self) -> u32
        ensures { result ≡ key_of self.now };

    /// The same element.
    fn copy(&self) -> Self
        ensures { result ≡ self.now };
}

/// What one element holds of two with one key.
pub trait Unites<X> {
    /// When it may be asked.
    ghost ready: { Self → Type 0 };

    ghost united: { Self → X → X → X };

    fn unite(&self, x: &X, y: &X) -> X
        requires { ready self.now }
        ensures { result ≡ united self.now x.now y.now };
}

/// A comparison of elements with one key.
pub trait Compares<X, Y> {
    /// Whether the second element holds all of the first.
    ghost lies_in: { X → Y → Bool };

    fn is_in(&self, x: &X, y: &Y) -> bool
        ensures { result ≡ lies_in x.now y.now };
}

/// What elements with one key have in common.
pub trait Picks<X, Y> {
    ghost picked: { X → Y → Option X };

    fn pick(&self, x: &X, y: &Y) -> Option<X>
        ensures { result ≡ picked x.now y.now };
}

/// The first element.
pub struct First;

impl<X: Keyed, Y> Picks<X, Y> for First {
    ghost use Rattle.std.specs.Prelude.{Some};

    ghost picked = { λ x y. Some x };

    fn pick(&self, x: &X, y: &Y) -> Option<X> {
        Some(x.copy())
    }
}

impl<X: Keyed> Unites<X> for First {
    ghost ready = { λ f. Unit {0} };

    ghost united = { λ f x y. x };

    fn unite(&self, x: &X, y: &X) -> X {
        x.copy()
    }
}

/// By their keys alone.
pub struct ByKey;

impl<X, Y> Compares<X, Y> for ByKey {
    ghost use Rattle.std.specs.Prelude.{true};

    ghost lies_in = { λ x y. true };

    fn is_in(&self, x: &X, y: &Y) -> bool {
        true
    }
}

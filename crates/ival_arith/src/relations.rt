//! Relations of the numbers of two sets (C11 6.5.8 and 6.5.9).

ghost use Rattle.std.specs.Prelude.{◌≡◌, ◌↔◌, IsTrue, true, false};
ghost use Rattle.ival_arith.specs.Promises.{Compares};

use c_base::operators::Rel;
use ival_core::Ival;

/// Which truths a relation may have.
#[derive(Clone, Copy)]
pub struct Truths {
    pub may_be_true: bool,
    pub may_be_false: bool,
}

fn is_less(a: &Ival, b: &Ival) -> Truths
    ensures truth { IsTrue result.may_be_true ↔ Compares Rel.Lt a.now b.now true }
    ensures untruth { IsTrue result.may_be_false ↔ Compares Rel.Lt a.now b.now false }
{
    let Some((low_a, high_a)) = a.bounds() else {
        return Truths {
            may_be_true: false,
            may_be_false: false,
        };
    };
    let Some((low_b, high_b)) = b.bounds() else {
        return Truths {
            may_be_true: false,
            may_be_false: false,
        };
    };
    Truths {
        may_be_true: low_a < high_b,
        may_be_false: low_b <= high_a,
    }
}

/// What the opposite relation may be.
fn opposite(truths: Truths) -> Truths
    ensures { result ≡ record { may_be_true = truths.may_be_false; may_be_false = truths.may_be_true } }
{
    Truths {
        may_be_true: truths.may_be_false,
        may_be_false: truths.may_be_true,
    }
}

/// Some number lies in both sets.
fn meets(a: &Ival, b: &Ival) -> bool
    ensures { IsTrue result ↔ Compares Rel.Eq a.now b.now true }
{
    match a.meet(b).bounds() {
        Some(_) => true,
        None => false,
    }
}

/// Some number of one set is not that of the other.
fn differs(a: &Ival, b: &Ival) -> bool
    ensures { IsTrue result ↔ Compares Rel.Eq a.now b.now false }
{
    let Some((low_a, high_a)) = a.bounds() else {
        return false;
    };
    let Some((low_b, high_b)) = b.bounds() else {
        return false;
    };
    if low_a < high_b {
        return true;
    }
    low_b < high_a
}

fn is_equal(a: &Ival, b: &Ival) -> Truths
    ensures truth { IsTrue result.may_be_true ↔ Compares Rel.Eq a.now b.now true }
    ensures untruth { IsTrue result.may_be_false ↔ Compares Rel.Eq a.now b.now false }
{
    Truths {
        may_be_true: meets(a, b),
        may_be_false: differs(a, b),
    }
}

/// Which truths the relation has for numbers of the sets.
pub fn compare(rel: Rel, a: &Ival, b: &Ival) -> Truths
    ensures truth { IsTrue result.may_be_true ↔ Compares rel a.now b.now true }
    ensures untruth { IsTrue result.may_be_false ↔ Compares rel a.now b.now false }
{
    match rel {
        Rel::Lt => is_less(a, b),
        Rel::Ge => opposite(is_less(a, b)),
        Rel::Gt => is_less(b, a),
        Rel::Le => opposite(is_less(b, a)),
        Rel::Eq => is_equal(a, b),
        Rel::Ne => opposite(is_equal(a, b)),
    }
}

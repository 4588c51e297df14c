//! What sums and tests give.
ghost use Rattle.std.specs.Prelude.{◌≡◌, ℤ, ◌≤ℤ◌, ◌+ℤ◌, ◌-ℤ◌, IsTrue, Bool, true, false, not, int_lt, ◌≢◌, Option, Result, Ok, IfOk, pos, negsuc, map};
ghost use Rattle.c_base.specs.declared.kind.Kind.{Kind};
ghost use Rattle.c_base.specs.declared.integer.IntKind.TheVariants.{Int};
ghost use Rattle.c_base.specs.declared.integer.Machine.TheVariants.{Lp64};
ghost use Rattle.c_base.specs.Operators.{arithmetic, applied};
ghost use Rattle.first_program.specs.Meaning.{sign_op, run_expr, sum_expr, relation_op, test_expr};
ghost use Rattle.first_program.specs.SourceViews.{addends, addend_tree, sum_tree, test_tree};
ghost use Rattle.c_program.specs.Syntax.{Expr};
ghost use Rattle.first_analysis.specs.Evaluation.{Env, value, combined, content_value, is_true};
ghost use Rattle.first_analysis.specs.Contents.{IsWithin, Holds, HoldsNumber, HoldsRow};
ghost use Rattle.first_analysis.specs.Values.{Gives, GivesTruth, has_kind, is_possible};

use crate::content::Content;
use crate::range::{INT, Range};
use c_base::number::BaseId;
use c_base::operators::Rel;
use first_program::tree::{Addend, Sign, Sum, Test};

/// Why an expression of `int` variables, numbers, sums and comparisons may be undefined.
#[derive(Clone, Copy, Debug, PartialEq, Eq)]
pub struct Kinds {
    pub overflow: bool,
    pub initialization: bool,
}

/// The numbers that an expression may give, if any, and the kinds with which its evaluation may stop.
#[derive(Clone, Copy, Debug, PartialEq, Eq)]
pub struct Evaluated {
    pub range: Option<Range>,
    pub kinds: Kinds,
}

/// Which truths a comparison may have.
#[derive(Clone, Copy, Debug, PartialEq, Eq)]
pub struct Truths {
    pub may_be_true: bool,
    pub may_be_false: bool,
}

/// Which truths a test may have, and the kinds with which its evaluation may stop.
#[derive(Clone, Copy, Debug, PartialEq, Eq)]
pub struct Tested {
    pub truths: Truths,
    pub kinds: Kinds,
}

impl Kinds {
    pub fn none() -> Kinds {
        Kinds {
            overflow: false,
            initialization: false,
        }
    }

    fn with(self, other: Kinds) -> Kinds
        ensures first { (kind : Kind) → IsTrue (has_kind self kind) → IsTrue (has_kind result kind) }
        ensures second { (kind : Kind) → IsTrue (has_kind other kind) → IsTrue (has_kind result kind) }
    {
        Kinds {
            overflow: self.overflow || other.overflow,
            initialization: self.initialization || other.initialization,
        }
    }
}

// What the use of a variable gives.
fn use_of(content: Content) -> Evaluated
    ensures { (x : Option ℤ) → Holds content x → Gives result (content_value x) }
{
    Evaluated {
        range: content.range,
        kinds: Kinds {
            overflow: false,
            initialization: content.uninit,
        },
    }
}

// The content of a variable. A row has all variables of its program.
fn content_of(row: &[Content], base: BaseId) -> Content
    ensures { (env : Env) → HoldsRow row.now env → Holds result (env base.0) }
{
    if base.0 == 0 {
        return Content::anything();
    }
    match row.get(base.0 as usize - 1) {
        None => Content::anything(),
        Some(content) => *content,
    }
}

// What a number gives.
fn single(n: u32) -> Evaluated
    ensures { Gives result (Ok (pos n)) }
{
    Evaluated {
        range: Some(Range {
            low: n as i64,
            high: n as i64,
        }),
        kinds: Kinds::none(),
    }
}

// Bounds before they are cut to a type.
#[derive(Clone, Copy)]
struct Bounds {
    low: i128,
    high: i128,
}

fn sum_bounds(a: Range, b: Range) -> Bounds
    ensures { (m n : ℤ) → IsWithin a m → IsWithin b n → (result.low ≤ℤ (m +ℤ n)) × ((m +ℤ n) ≤ℤ result.high) }
{
    Bounds {
        low: a.low as i128 + b.low as i128,
        high: a.high as i128 + b.high as i128,
    }
}

fn difference_bounds(a: Range, b: Range) -> Bounds
    ensures { (m n : ℤ) → IsWithin a m → IsWithin b n → (result.low ≤ℤ (m -ℤ n)) × ((m -ℤ n) ≤ℤ result.high) }
{
    Bounds {
        low: a.low as i128 - b.high as i128,
        high: a.high as i128 - b.low as i128,
    }
}

// The bounds as far as they lie in type int, if they do.
fn int_part(bounds: Bounds) -> Option<Range>
    ensures { (n : ℤ) → bounds.low ≤ℤ n → n ≤ℤ bounds.high → negsuc 2147483647 ≤ℤ n → n ≤ℤ pos 2147483647
        → HoldsNumber result n }
{
    let low = if bounds.low < INT.low as i128 {
        INT.low
    } else {
        if bounds.low > INT.high as i128 {
            return None;
        }
        bounds.low as i64
    };
    let high = if bounds.high > INT.high as i128 {
        INT.high
    } else {
        if bounds.high < INT.low as i128 {
            return None;
        }
        bounds.high as i64
    };
    if high < low {
        return None;
    }
    Some(Range { low, high })
}

// What an operation gives whose results have these bounds: those beyond type int are undefined (C11 6.5p5).
fn within_int(bounds: Bounds, kinds: Kinds) -> Evaluated
    ensures gives { (n : ℤ) → bounds.low ≤ℤ n → n ≤ℤ bounds.high → Gives result (arithmetic true 32 n) }
    ensures kinds { (kind : Kind) → IsTrue (has_kind kinds kind) → IsTrue (has_kind result.kinds kind) }
{
    let leaves = bounds.low < INT.low as i128 || bounds.high > INT.high as i128;
    Evaluated {
        range: int_part(bounds),
        kinds: Kinds {
            overflow: kinds.overflow || leaves,
            initialization: kinds.initialization,
        },
    }
}

// The left operand is used first: where it has no value, the right one is not used (C11 6.3.2.1p2).
fn plus(left: Evaluated, sign: Sign, right: Evaluated) -> Evaluated
    ensures { (x y : Result ℤ Kind) → Gives left x → Gives right y → Gives result (combined (sign_op sign) Int x y) }
{
    let Some(a) = left.range else {
        return left;
    };
    let kinds = left.kinds.with(right.kinds);
    let Some(b) = right.range else {
        return Evaluated { range: None, kinds };
    };
    match sign {
        Sign::Plus => within_int(sum_bounds(a, b), kinds),
        Sign::Minus => within_int(difference_bounds(a, b), kinds),
    }
}

// What a run of additions and subtractions gives behind what stands before it.
#[cycle(adding)]
fn run(row: &[Content], start: Evaluated, more: &[Addend]) -> Evaluated
    ensures { (env : Env) (left : Expr) → HoldsRow row.now env → Gives start (value env left) → Gives result (value env (run_expr left (addends (map addend_tree more.now)))) }
{
    let mut result = start;
    for addend in more {
        result = plus(result, addend.sign, sum(row, &addend.operand));
    }
    result
}

/// What a sum gives.
#[cycle(adding)]
pub fn sum(row: &[Content], tree: &Sum) -> Evaluated
    ensures { (env : Env) → HoldsRow row.now env → Gives result (value env (sum_expr (sum_tree tree.now))) }
{
    match tree {
        Sum::Number(n) => single(*n),
        Sum::Variable(base) => use_of(content_of(row, *base)),
        Sum::Parenthesised(inner) => sum(row, inner.get()),
        Sum::Run { first, more } => {
            let start = sum(row, first.get());
            run(row, start, more.as_slice())
        }
    }
}

fn may_be_equal(a: Range, b: Range) -> bool
    ensures { (n : ℤ) → IsWithin a n → IsWithin b n → IsTrue result }
{
    a.low <= b.high && b.low <= a.high
}

fn may_differ(a: Range, b: Range) -> bool
    ensures { (m n : ℤ) → IsWithin a m → IsWithin b n → m ≢ n → IsTrue result }
{
    a.low < b.high || b.low < a.high
}

// Which truths an equation may have between numbers of two ranges.
fn equality(a: Range, b: Range) -> Truths
    ensures equal { (n : ℤ) → IsWithin a n → IsWithin b n → IsTrue result.may_be_true }
    ensures apart { (m n : ℤ) → IsWithin a m → IsWithin b n → m ≢ n → IsTrue result.may_be_false }
{
    Truths {
        may_be_true: may_be_equal(a, b),
        may_be_false: may_differ(a, b),
    }
}

impl Truths {
    fn none() -> Truths
        ensures { (truth : Bool) → is_possible result truth ≡ false }
    {
        Truths {
            may_be_true: false,
            may_be_false: false,
        }
    }

    fn negation(self) -> Truths
        ensures { (truth : Bool) → is_possible result truth ≡ is_possible self (not truth) }
    {
        Truths {
            may_be_true: self.may_be_false,
            may_be_false: self.may_be_true,
        }
    }
}

fn order(a: Range, b: Range) -> Truths
    ensures { (m n : ℤ) → IsWithin a m → IsWithin b n → IsTrue (is_possible result (int_lt m n)) }
{
    Truths {
        may_be_true: a.low < b.high,
        may_be_false: b.low <= a.high,
    }
}

// Which truths a relation may have between numbers of two ranges.
fn comparison(a: Range, relation: Rel, b: Range) -> Truths
    ensures { (m n : ℤ) → IsWithin a m → IsWithin b n → IfOk (applied (relation_op relation) Int Lp64 m n) (λ t. IsTrue (is_possible result (is_true t))) }
{
    match relation {
        Rel::Lt => order(a, b),
        Rel::Le => order(b, a).negation(),
        Rel::Gt => order(b, a),
        Rel::Ge => order(a, b).negation(),
        Rel::Eq => equality(a, b),
        Rel::Ne => equality(a, b).negation(),
    }
}

fn relation_result(left: Evaluated, relation: Rel, right: Evaluated) -> Tested
    ensures { (x y : Result ℤ Kind) → Gives left x → Gives right y → GivesTruth result (combined (relation_op relation) Int x y) }
{
    let Some(a) = left.range else {
        return Tested {
            truths: Truths::none(),
            kinds: left.kinds,
        };
    };
    let kinds = left.kinds.with(right.kinds);
    let Some(b) = right.range else {
        return Tested {
            truths: Truths::none(),
            kinds,
        };
    };
    Tested {
        truths: comparison(a, relation, b),
        kinds,
    }
}

/// Which truths a test may have.
#[cycle(testing)]
pub fn test(row: &[Content], tree: &Test) -> Tested
    ensures { (env : Env) → HoldsRow row.now env → GivesTruth result (value env (test_expr (test_tree tree.now))) }
{
    match tree {
        Test::Compare {
            left,
            relation,
            right,
        } => relation_result(sum(row, left), *relation, sum(row, right)),
        Test::Parenthesised(inner) => test(row, inner.get()),
    }
}

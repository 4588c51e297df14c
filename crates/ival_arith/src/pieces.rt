//! Sets that are made of other sets.

ghost use Rattle.std.specs.Prelude.{◌≡◌, ◌<◌, ◌≤◌, ◌^◌, ◌+◌, ◌*◌, ◌%◌, ◌/◌, ◌-◌, ℤ, pos, ◌+ℤ◌, ◌*ℤ◌, ◌&&◌, cond, int_le, nat_lt, map};
ghost use Rattle.ival_core.specs.Sets.{IsNumber, AllNumbers, IsLongRun, apart};
ghost use Rattle.ival_core.specs.Ivals.{Holds};
ghost use Rattle.ival_core.specs.Joined.{joined, with_number, with_numbers};
ghost use Rattle.ival_arith.specs.Pieces.{CanChange, changed, gathered, run_shifted, run_negated, run_scaled, run_changed, all_changed, clipped, run_clipped, within, residues_from, is_among, cycle};

use ival_core::{Ival, Progression, Shape, gcd, run_from};

/// What is done to each number of a set.
#[derive(Clone, Copy)]
pub enum Change {
    Plus(i128),
    Negative,
    Times(u64),
}

/// The least set that holds both.
pub fn join(a: &Ival, b: &Ival) -> Ival
    ensures { result.shape ≡ joined a.now.shape b.now.shape }
{
    a.join(b)
}

/// The least set that holds one number more.
pub fn with(set: &Ival, n: i128) -> Ival
    requires { IsNumber n }
    ensures { result.shape ≡ with_number set.now.shape n }
{
    join(set, &Ival::single(n))
}

fn change_of(change: Change, n: i128) -> i128
    requires { IsNumber (changed change n) }
    ensures { result ≡ changed change n }
{
    match change {
        Change::Plus(k) => n + k,
        Change::Negative => -n,
        Change::Times(k) => n * k as i128,
    }
}

fn few_changed(few: &[i128], change: Change) -> Ival
    requires { AllNumbers (map (changed change) few.now) }
    ensures { result.shape ≡ gathered (map (changed change) few.now) }
{
    let mut all = Ival::empty();
    for n in few {
        all = with(&all, change_of(change, *n));
    }
    all
}

fn run_shifted(run: Progression, k: i128) -> Ival
    requires run { IsLongRun run }
    requires low { IsNumber (run.low +ℤ k) }
    requires high { IsNumber (run.high +ℤ k) }
    ensures { result.shape ≡ run_shifted k run }
{
    run_from(run.low + k, run.high + k, run.stride)
}

pub(crate) fn run_negated(run: Progression) -> Ival
    requires { IsLongRun run }
    ensures { result.shape ≡ run_negated run }
{
    run_from(-run.high, -run.low, run.stride)
}

fn run_scaled(run: Progression, k: u64) -> Ival
    requires run { IsLongRun run }
    requires some { 0 < k }
    requires low { IsNumber (run.low *ℤ pos k) }
    requires high { IsNumber (run.high *ℤ pos k) }
    ensures { result.shape ≡ run_scaled k run }
{
    run_from(
        run.low * k as i128,
        run.high * k as i128,
        run.stride * k as u128,
    )
}

fn run_with(run: Progression, change: Change) -> Ival
    requires run { IsLongRun run }
    requires change { CanChange change }
    requires low { IsNumber (changed change run.low) }
    requires high { IsNumber (changed change run.high) }
    ensures { result.shape ≡ run_changed change run }
{
    match change {
        Change::Plus(k) => run_shifted(run, k),
        Change::Negative => run_negated(run),
        Change::Times(k) => run_scaled(run, k),
    }
}

/// What becomes of the numbers of a set.
pub fn changed(set: &Ival, change: Change) -> Ival
    requires change { CanChange change }
    requires numbers { (n : ℤ) → Holds set.now n → IsNumber (changed change n) }
    ensures { result.shape ≡ all_changed change set.now.shape }
{
    match set.shape() {
        Shape::Few(few) => few_changed(few.as_slice(), change),
        Shape::Many(run) => run_with(*run, change),
    }
}

/// With `n` where it lies from `lo` to `hi`.
fn with_within(set: Ival, n: i128, lo: i128, hi: i128) -> Ival
    requires { IsNumber n }
    ensures { result.shape ≡ cond (int_le lo n && int_le n hi) (with_number set.shape n) set.shape }
{
    if n < lo {
        return set;
    }
    if hi < n {
        return set;
    }
    with(&set, n)
}

fn few_clipped(few: &[i128], lo: i128, hi: i128) -> Ival
    requires { AllNumbers few.now }
    ensures { result.shape ≡ gathered (within lo hi few.now) }
{
    let mut all = Ival::empty();
    for n in few {
        all = with_within(all, *n, lo, hi);
    }
    all
}

pub(crate) fn run_clipped(run: Progression, lo: i128, hi: i128) -> Ival
    requires run { IsLongRun run }
    requires lo { IsNumber lo }
    requires hi { IsNumber hi }
    ensures { result.shape ≡ run_clipped lo hi run }
{
    let first = lo.max(run.low);
    let last = hi.min(run.high);
    if last < first {
        return Ival::empty();
    }
    let modulus = run.stride as i128;
    Ival::range(first, last, run.low.rem_euclid(modulus), modulus)
}

/// The numbers from `lo` to `hi`.
pub fn clipped(set: &Ival, lo: i128, hi: i128) -> Ival
    requires lo { IsNumber lo }
    requires hi { IsNumber hi }
    ensures { result.shape ≡ clipped lo hi set.now.shape }
{
    match set.shape() {
        Shape::Few(few) => few_clipped(few.as_slice(), lo, hi),
        Shape::Many(run) => run_clipped(*run, lo, hi),
    }
}

/// What `first`, `first + stride` and so on leave modulo `m`, with the numbers of `set`.
fn with_residues(set: &Ival, m: u128, first: u128, stride: u128, count: u32) -> Ival
    requires modulus { (0 < m) × (m ≤ 2 ^ 64) }
    requires room { first + count * stride < 2 ^ 100 }
    ensures { result.shape ≡ with_numbers set.now.shape (residues_from m first stride count) }
{
    if count == 0 {
        return set.copy();
    }
    let more = with(set, (first % m) as i128);
    with_residues(&more, m, first + stride, stride, count - 1)
}

/// `n` is one of these residues.
fn is_left(m: u128, first: u128, stride: u128, count: u32, n: u128) -> bool
    requires modulus { 0 < m }
    requires room { first + count * stride < 2 ^ 100 }
    ensures { result ≡ is_among (residues_from m first stride count) (pos n) }
{
    if count == 0 {
        return false;
    }
    if n == first % m {
        return true;
    }
    is_left(m, first + stride, stride, count - 1, n)
}

/// `more` steps from `first` on stay below `m`.
fn is_below(m: u128, first: u128, stride: u128, more: u128) -> bool
    requires modulus { m ≤ 2 ^ 64 }
    requires first { first < m }
    requires stride { stride < m }
    requires moves { 0 < stride }
    ensures { result ≡ nat_lt (first + more * stride) m }
{
    if m <= more {
        return false;
    }
    first + more * stride < m
}

/// What `first` and the `more` numbers that follow it in steps of `stride` leave modulo `m`.
pub(crate) fn cycle(m: u128, first: u128, stride: u128, more: u128) -> Ival
    requires modulus { (0 < m) × (m ≤ 2 ^ 64) }
    requires first { first < m }
    requires stride { stride < m }
    ensures { result.shape ≡ cycle m first stride more }
{
    if is_left(m, first, stride, 8, (first + 8 * stride) % m) {
        return with_residues(&Ival::empty(), m, first, stride, 8);
    }
    if is_below(m, first, stride, more) {
        return run_from(first as i128, (first + more * stride) as i128, stride);
    }
    let step = gcd(stride, m);
    Ival::range(0, m as i128 - 1, (first % step) as i128, step as i128)
}

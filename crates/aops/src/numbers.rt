//! Operators on sets of numbers.
ghost use Rattle.std.specs.Prelude.{◌≡◌, ◌↔◌, ℤ, true, false, IsTrue, Ok, Err};
ghost use Rattle.c_base.specs.KindSets.{allowed, no_kinds};
ghost use Rattle.ival_core.specs.Ivals.{Holds};
ghost use Rattle.aops.specs.Numbers.{IsSort, integer_kinds, integer_set, related, truth_set};
ghost use Rattle.aops.specs.Promises.{GivesOne, IsNarrow};

use c_base::integer::{IntKind, Machine};
use c_base::kind::{Kind, KindSet};
use c_base::operators::{BinOp, Rel};
use ival_arith::{Answer, binary, compare};
use ival_bits::{bitwise, shift};
use ival_core::{Ival, run_from};

/// 0 where the truth may be false, 1 where it may be true.
pub fn truth_set(may_be_true: bool, may_be_false: bool) -> Ival
    ensures { result ≡ truth_set may_be_true may_be_false }
{
    if !may_be_true {
        if !may_be_false {
            return Ival::empty();
        }
        return Ival::single(0);
    }
    if !may_be_false {
        return Ival::single(1);
    }
    run_from(0, 1, 1)
}

/// The truths of a relation of numbers of two sets.
pub fn related(rel: Rel, a: &Ival, b: &Ival) -> Ival
    ensures { result ≡ related rel a.now b.now }
{
    let truths = compare(rel, a, b);
    truth_set(truths.may_be_true, truths.may_be_false)
}

fn relation(rel: Rel, a: &Ival, b: &Ival) -> Answer
    ensures value { result.value ≡ related rel a.now b.now }
    ensures kind_set { result.kinds ≡ no_kinds }
{
    Answer {
        value: related(rel, a, b),
        kinds: KindSet::none(),
    }
}

/// What an operator does with numbers.
#[derive(Clone, Copy)]
enum Sort {
    Arithmetic,
    Bitwise,
    Shift,
    Relation(Rel),
}

fn sort_of(op: BinOp) -> Sort
    ensures { IsSort op result }
{
    match op {
        BinOp::Add => Sort::Arithmetic,
        BinOp::Sub => Sort::Arithmetic,
        BinOp::Mul => Sort::Arithmetic,
        BinOp::Div => Sort::Arithmetic,
        BinOp::Rem => Sort::Arithmetic,
        BinOp::And => Sort::Bitwise,
        BinOp::Or => Sort::Bitwise,
        BinOp::Xor => Sort::Bitwise,
        BinOp::Shl => Sort::Shift,
        BinOp::Shr => Sort::Shift,
        BinOp::Lt => Sort::Relation(Rel::Lt),
        BinOp::Le => Sort::Relation(Rel::Le),
        BinOp::Gt => Sort::Relation(Rel::Gt),
        BinOp::Ge => Sort::Relation(Rel::Ge),
        BinOp::Eq => Sort::Relation(Rel::Eq),
        BinOp::Ne => Sort::Relation(Rel::Ne),
    }
}

/// An operator on numbers of two sets in a type. Other numbers have no results.
pub(crate) fn on_numbers(op: BinOp, k: IntKind, m: Machine, a: &Ival, b: &Ival) -> Answer
    ensures value { result.value ≡ integer_set op k m a.now b.now }
    ensures kind_set { result.kinds ≡ integer_kinds op k m a.now b.now }
    ensures holds { (n : ℤ) → GivesOne op k m a.now b.now (Ok n) → Holds result.value n }
    ensures kinds { (kind : Kind) → IsTrue (allowed result.kinds kind)
        ↔ GivesOne op k m a.now b.now (Err kind) }
    ensures narrow { IsNarrow op k m a.now b.now result.value }
{
    match sort_of(op) {
        Sort::Arithmetic => binary(op, k, m, a, b),
        Sort::Bitwise => bitwise(op, k, m, a, b),
        Sort::Shift => shift(op, k, m, a, b),
        Sort::Relation(rel) => relation(rel, a, b),
    }
}

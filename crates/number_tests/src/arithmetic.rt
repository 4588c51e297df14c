//! Arithmetic on sets of integers (C11 6.5.3.3, 6.5.5, 6.5.6, 6.5.8 and 6.5.9).
ghost use Rattle.ival_arith.specs.Promises.{IsArithmetic};

use crate::traits::{allows, has_bounds, has_congruence, has_numbers, is_empty, is_single};
use c_base::integer::{IntKind, Machine};
use c_base::kind::Kind;
use c_base::operators::{BinOp, Rel};
use ival_arith::{
    Answer, binary, compare, exact_add, exact_div, exact_mul, exact_rem, exact_sub, negate,
};
use ival_core::Ival;

const INT_LEAST: i128 = -0x8000_0000;

const INT_GREATEST: i128 = 0x7fff_ffff;

fn answer(op: BinOp, a: &Ival, b: &Ival) -> Answer
    requires { IsArithmetic op }
{
    binary(op, IntKind::Int, Machine::Lp64, a, b)
}

fn unsigned_answer(op: BinOp, a: &Ival, b: &Ival) -> Answer
    requires { IsArithmetic op }
{
    binary(op, IntKind::UInt, Machine::Lp64, a, b)
}

#[test]
fn sums_and_differences(rt: HostRuntime) {
    let ones = Ival::range(0, 100, 0, 1);
    let all = answer(BinOp::Add, &ones, &Ival::single(INT_GREATEST - 50));
    assert!(rt; has_bounds(&all.value, INT_GREATEST - 50, INT_GREATEST));
    assert!(rt; allows(&all, Kind::SignedOverflow));
    assert!(rt; !allows(&all, Kind::DivisionByZero));
    let eights = Ival::range(0, 80, 0, 8);
    let fours = answer(BinOp::Sub, &eights, &Ival::range(0, 80, 0, 12));
    assert!(rt; has_bounds(&fours.value, -72, 80));
    assert!(rt; has_congruence(&fours.value, 0, 4));
    assert!(rt; !allows(&fours, Kind::SignedOverflow));
}

#[test]
fn unsigned_sums_wrap(rt: HostRuntime) {
    let last = Ival::range(0xffff_fffc, 0xffff_ffff, 0, 1);
    let sums = unsigned_answer(BinOp::Add, &last, &Ival::single(2));
    assert!(rt; has_numbers(&sums.value, &[0, 1, 0xffff_fffe, 0xffff_ffff]));
    assert!(rt; !allows(&sums, Kind::SignedOverflow));
    let negative = negate(IntKind::UInt, Machine::Lp64, &Ival::single(1));
    assert!(rt; is_single(&negative.value, 0xffff_ffff));
}

#[test]
fn products(rt: HostRuntime) {
    let tens = answer(BinOp::Mul, &Ival::range(-100, 100, 0, 1), &Ival::single(10));
    assert!(rt; has_bounds(&tens.value, -1000, 1000));
    assert!(rt; has_congruence(&tens.value, 0, 10));
    let ends = answer(BinOp::Mul, &Ival::single(0xffff), &Ival::single(0xffff));
    assert!(rt; is_empty(&ends.value));
    assert!(rt; allows(&ends, Kind::SignedOverflow));
}

#[test]
fn undefined_quotients(rt: HostRuntime) {
    let least = answer(BinOp::Div, &Ival::single(INT_LEAST), &Ival::single(-1));
    assert!(rt; is_empty(&least.value));
    assert!(rt; allows(&least, Kind::SignedOverflow));
    let zero = answer(BinOp::Rem, &Ival::single(-7), &Ival::range(0, 3, 0, 3));
    assert!(rt; is_single(&zero.value, -1));
    assert!(rt; allows(&zero, Kind::DivisionByZero));
    assert!(rt; !allows(&zero, Kind::SignedOverflow));
    let negative = negate(IntKind::Int, Machine::Lp64, &Ival::single(INT_LEAST));
    assert!(rt; allows(&negative, Kind::SignedOverflow));
}

#[test]
fn few_products_of_long_sets(rt: HostRuntime) {
    let roots = Ival::range(46340, 50000, 0, 1);
    let squares = answer(BinOp::Mul, &roots, &roots);
    assert!(rt; has_numbers(&squares.value, &[2147395600, 2147441940]));
    assert!(rt; allows(&squares, Kind::SignedOverflow));
    let high = Ival::range(0, 0xf000_0000, 0, 0x1000_0000);
    let even = Ival::range(0, 0xffff_fffe, 0, 2);
    let wrapped = unsigned_answer(BinOp::Mul, &high, &even).value;
    let eighths = [
        0,
        0x2000_0000,
        0x4000_0000,
        0x6000_0000,
        0x8000_0000,
        0xa000_0000,
        0xc000_0000,
        0xe000_0000,
    ];
    assert!(rt; has_numbers(&wrapped, &eighths));
}

#[test]
fn divisions_of_long_sets(rt: HostRuntime) {
    let hundreds = answer(BinOp::Div, &Ival::range(0, 255, 0, 1), &Ival::single(100));
    assert!(rt; has_numbers(&hundreds.value, &[0, 1, 2]));
    let around = Ival::range(-100, 100, 0, 1);
    let thirds = answer(BinOp::Div, &around, &Ival::single(-3));
    assert!(rt; has_bounds(&thirds.value, -33, 33));
    let rests = answer(BinOp::Rem, &around, &Ival::single(3));
    assert!(rt; has_numbers(&rests.value, &[-2, -1, 0, 1, 2]));
    let thousand = Ival::range(0, 1000, 0, 1);
    let near = answer(BinOp::Div, &thousand, &Ival::range(10, 99, 0, 1));
    assert!(rt; has_bounds(&near.value, 0, 100));
}

#[test]
fn divisions_of_one_number(rt: HostRuntime) {
    let divisors = Ival::range(-4, 20, 0, 1);
    let quotients = answer(BinOp::Div, &Ival::single(5), &divisors);
    assert!(rt; has_numbers(&quotients.value, &[-5, -2, -1, 0, 1, 2, 5]));
    let rests = answer(BinOp::Rem, &Ival::single(-5), &divisors);
    assert!(rt; has_numbers(&rests.value, &[-5, -2, -1, 0]));
    assert!(rt; allows(&rests, Kind::DivisionByZero));
}

#[test]
fn divisions_by_many_near_divisors(rt: HostRuntime) {
    let far = Ival::range(501, 1000, 0, 1);
    let half = answer(BinOp::Div, &Ival::single(1000), &far);
    assert!(rt; is_single(&half.value, 1));
    let wide = Ival::range(-INT_GREATEST, -0x2000_0000, 0, 1);
    let greatest = answer(BinOp::Div, &Ival::single(INT_GREATEST), &wide);
    assert!(rt; has_numbers(&greatest.value, &[-3, -2, -1]));
    let multiple = Ival::single(5_342_931_457_063_200);
    let small = Ival::range(-40, 40, 0, 1);
    let whole = binary(BinOp::Rem, IntKind::Long, Machine::Lp64, &multiple, &small);
    assert!(rt; is_single(&whole.value, 0));
    let near = answer(BinOp::Div, &Ival::single(100), &Ival::range(1, 20, 0, 1));
    assert!(rt; has_bounds(&near.value, 5, 100));
    let thousand = Ival::range(1, 1000, 0, 1);
    let rests = answer(BinOp::Rem, &Ival::single(1_000_003), &thousand);
    assert!(rt; has_bounds(&rests.value, 0, 999));
}

#[test]
fn relations(rt: HostRuntime) {
    let fours = Ival::range(0, 80, 0, 4);
    let odd = Ival::range(1, 81, 1, 4);
    assert!(rt; !compare(Rel::Eq, &fours, &odd).may_be_true);
    assert!(rt; compare(Rel::Lt, &fours, &odd).may_be_true);
    assert!(rt; compare(Rel::Lt, &fours, &odd).may_be_false);
    assert!(rt; !compare(Rel::Le, &fours, &Ival::single(80)).may_be_false);
}

#[test]
fn terms_do_not_wrap(rt: HostRuntime) {
    let limit = Ival::single(1 << 120);
    assert!(rt; exact_add(&limit, &Ival::single(1)).is_none());
    assert!(rt; exact_sub(&limit, &Ival::single(1)).is_some());
    assert!(rt; exact_mul(&limit, &Ival::single(2)).is_none());
    assert!(rt; exact_div(&limit, &Ival::range(-1, 1, 0, 1)).is_none());
    assert!(rt; exact_rem(&limit, &Ival::single(3)).is_some());
}

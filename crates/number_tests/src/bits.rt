//! Operators on the bits of sets of integers, and parts of numbers (C11 6.5.7, 6.5.10 to 6.5.12).
ghost use Rattle.ival_core.specs.Sets.{IsNumber};
ghost use Rattle.ival_bits.specs.Promises.{IsBitwise, IsShift};

use crate::traits::{allows, has_bounds, has_congruence, is_empty, is_single};
use c_base::integer::{IntKind, Machine};
use c_base::kind::Kind;
use c_base::operators::BinOp;
use ival_arith::Answer;
use ival_bits::{bitwise, concat, extract, shift, wrap};
use ival_core::Ival;

const INT_LEAST: i128 = -0x8000_0000;

const INT_GREATEST: i128 = 0x7fff_ffff;

fn on_bits(op: BinOp, a: &Ival, b: &Ival) -> Answer
    requires { IsBitwise op }
{
    bitwise(op, IntKind::Int, Machine::Lp64, a, b)
}

fn on_single_bits(op: BinOp, a: i128, b: i128) -> Ival
    requires op { IsBitwise op }
    requires left { IsNumber a }
    requires right { IsNumber b }
{
    on_bits(op, &Ival::single(a), &Ival::single(b)).value
}

fn shifted(op: BinOp, kind: IntKind, a: i128, count: i128) -> Answer
    requires op { IsShift op }
    requires left { IsNumber a }
    requires count { IsNumber count }
{
    let counts = Ival::single(count);
    shift(op, kind, Machine::Lp64, &Ival::single(a), &counts)
}

fn int_shifted(op: BinOp, a: &Ival, counts: &Ival) -> Answer
    requires { IsShift op }
{
    shift(op, IntKind::Int, Machine::Lp64, a, counts)
}

#[test]
fn bits_of_single_numbers(rt: HostRuntime) {
    assert!(rt; is_single(&on_single_bits(BinOp::And, 0b1100, 0b1010), 0b1000));
    assert!(rt; is_single(&on_single_bits(BinOp::Or, 0b1100, 0b1010), 0b1110));
    assert!(rt; is_single(&on_single_bits(BinOp::Xor, 0b1100, 0b1010), 0b0110));
    assert!(rt; is_single(&on_single_bits(BinOp::Xor, -1, 0xff), -0x100));
    assert!(rt; is_single(&on_single_bits(BinOp::And, -8, INT_GREATEST), 0x7fff_fff8));
    assert!(rt; is_single(&on_single_bits(BinOp::Or, INT_LEAST, 1), -INT_GREATEST));
    assert!(rt; is_single(&on_single_bits(BinOp::And, INT_LEAST, -1), INT_LEAST));
}

#[test]
fn masks_keep_bounds_and_strides(rt: HostRuntime) {
    let low = Ival::single(0xff);
    let fives = on_bits(BinOp::And, &Ival::range(3, 203, 3, 5), &low);
    assert!(rt; has_bounds(&fives.value, 3, 203));
    assert!(rt; has_congruence(&fives.value, 3, 5));
    let fours = on_bits(BinOp::And, &low, &Ival::range(-1000, 1000, 0, 4));
    assert!(rt; has_bounds(&fours.value, 0, 252));
    assert!(rt; has_congruence(&fours.value, 0, 4));
    let around = Ival::range(-100, 100, 0, 1);
    let high = on_bits(BinOp::And, &around, &Ival::single(-16));
    assert!(rt; has_bounds(&high.value, -112, 96));
    assert!(rt; has_congruence(&high.value, 0, 16));
    assert!(rt; !allows(&high, Kind::Shift));
}

#[test]
fn bounds_of_bits(rt: HostRuntime) {
    let nine = Ival::range(0, 9, 0, 1);
    let seventy = Ival::range(20, 70, 0, 1);
    assert!(rt; has_bounds(&on_bits(BinOp::And, &nine, &seventy).value, 0, 9));
    assert!(rt; has_bounds(&on_bits(BinOp::Or, &nine, &seventy).value, 20, 127));
    assert!(rt; has_bounds(&on_bits(BinOp::Xor, &nine, &seventy).value, 0, 127));
    let around = Ival::range(-9, 9, 0, 1);
    assert!(rt; has_bounds(&on_bits(BinOp::Xor, &around, &nine).value, -16, 15));
    let bytes = Ival::range(0, 0xff00, 0, 0x100);
    let both = on_bits(BinOp::Or, &bytes, &Ival::range(0, 0xff, 0, 1));
    assert!(rt; has_bounds(&both.value, 0, 0xffff));
    assert!(rt; has_congruence(&both.value, 0, 1));
}

#[test]
fn shifts_of_single_numbers(rt: HostRuntime) {
    let int = IntKind::Int;
    assert!(rt; is_single(&shifted(BinOp::Shl, int, 1, 30).value, 0x4000_0000));
    assert!(rt; is_single(&shifted(BinOp::Shr, int, INT_LEAST, 31).value, -1));
    assert!(rt; is_single(&shifted(BinOp::Shr, int, -7, 1).value, -4));
    let unsigned = IntKind::UInt;
    assert!(rt; is_single(&shifted(BinOp::Shl, unsigned, 1, 31).value, 0x8000_0000));
    let ones = shifted(BinOp::Shl, unsigned, 0xffff_ffff, 4);
    assert!(rt; is_single(&ones.value, 0xffff_fff0));
    assert!(rt; !allows(&ones, Kind::Shift));
}

#[test]
fn undefined_shifts(rt: HostRuntime) {
    let sign = shifted(BinOp::Shl, IntKind::Int, 1, 31);
    assert!(rt; is_empty(&sign.value));
    assert!(rt; allows(&sign, Kind::Shift));
    assert!(rt; !allows(&sign, Kind::SignedOverflow));
    assert!(rt; allows(&shifted(BinOp::Shl, IntKind::Int, -1, 0), Kind::Shift));
    assert!(rt; allows(&shifted(BinOp::Shr, IntKind::Int, 1, 32), Kind::Shift));
    assert!(rt; is_empty(&shifted(BinOp::Shr, IntKind::ULong, 1, -1).value));
    assert!(rt; allows(&shifted(BinOp::Shl, IntKind::ULong, 1, 64), Kind::Shift));
    assert!(rt; !allows(&shifted(BinOp::Shl, IntKind::Long, 1, 62), Kind::Shift));
}

#[test]
fn counts_of_another_type(rt: HostRuntime) {
    let far = shifted(BinOp::Shl, IntKind::Int, 1, 0x1_0000_0001);
    assert!(rt; is_empty(&far.value));
    assert!(rt; allows(&far, Kind::Shift));
    let some = Ival::single(3).join(&Ival::single(0x1_0000_0000));
    let eight = int_shifted(BinOp::Shl, &Ival::single(1), &some);
    assert!(rt; is_single(&eight.value, 8));
    assert!(rt; allows(&eight, Kind::Shift));
}

#[test]
fn shifts_of_runs(rt: HostRuntime) {
    let hundred = Ival::range(-100, 100, 0, 1);
    let quarters = int_shifted(BinOp::Shr, &hundred, &Ival::single(2));
    assert!(rt; has_bounds(&quarters.value, -25, 25));
    let naturals = Ival::range(0, 100, 0, 1);
    let eighths = int_shifted(BinOp::Shl, &naturals, &Ival::single(3));
    assert!(rt; has_bounds(&eighths.value, 0, 800));
    assert!(rt; has_congruence(&eighths.value, 0, 8));
    assert!(rt; !allows(&eighths, Kind::Shift));
    let powers = int_shifted(BinOp::Shl, &Ival::single(1), &hundred);
    assert!(rt; has_bounds(&powers.value, 1, 0x4000_0000));
    assert!(rt; allows(&powers, Kind::Shift));
}

#[test]
fn parts_and_values(rt: HostRuntime) {
    assert!(rt; is_single(&extract(&Ival::single(0x1234_5678), 8, 8), 0x56));
    assert!(rt; is_single(&extract(&Ival::single(-1), 4, 8), 0xff));
    let whole = concat(&Ival::single(0x78), 8, &Ival::single(0x56));
    assert!(rt; is_single(&whole, 0x5678));
    assert!(rt; is_single(&wrap(8, true, &Ival::single(200)), -56));
    assert!(rt; is_single(&wrap(8, false, &Ival::single(-1)), 255));
    let bytes = wrap(8, true, &Ival::range(120, 140, 0, 1));
    assert!(rt; has_bounds(&bytes, -128, 127));
}

//! Operators and conversions (C11 6.5, 6.3).

use crate::runs::{as_expected, gives};
use std::test::Fail;

#[test]
fn numbers_are_computed(rt: HostRuntime) -> Result<(), Fail> {
    let rows = [
        gives("7 2 + return", 9),
        gives("7 2 - return", 5),
        gives("7 2 * return", 14),
        gives("7 2 / return", 3),
        gives("-7 2 / return", -3),
        gives("-7 2 % return", -1),
        gives("6 3 & return", 2),
        gives("6 3 | return", 7),
        gives("6 3 ^ return", 5),
        gives("3 4 << return", 48),
        gives("48 4 >> return", 3),
        gives("-1 1 >> return", -1),
        gives("5 neg return", -5),
        gives("5 ~ return", -6),
        gives("5 ! return", 0),
        gives("0 ! return", 1),
        gives("sizeof return", 4),
    ];
    assert_eq!(rt; as_expected(rt.alloc(), &rows)?, rows.len());
    Ok(())
}

#[test]
fn numbers_are_compared(rt: HostRuntime) -> Result<(), Fail> {
    let rows = [
        gives("1 2 < return", 1),
        gives("2 2 <= return", 1),
        gives("1 2 > return", 0),
        gives("2 2 >= return", 1),
        gives("1 2 == return", 0),
        gives("1 2 != return", 1),
        gives("-1 1 < return", 1),
        gives("-1 unsigned 1 unsigned < return", 0),
    ];
    assert_eq!(rt; as_expected(rt.alloc(), &rows)?, rows.len());
    Ok(())
}

#[test]
fn runs_and_ladders_are_of_any_length(rt: HostRuntime) -> Result<(), Fail> {
    let rows = [
        gives("1 2 + 3 joins + 4 joins - return", 2),
        gives("2 3 * 4 joins * 5 joins % return", 4),
        gives("1 2 && 0 joins && return", 0),
        gives("0 0 || 3 joins || return", 1),
        gives("1 1 && 1 joins && return", 1),
    ];
    assert_eq!(rt; as_expected(rt.alloc(), &rows)?, rows.len());
    Ok(())
}

#[test]
fn numbers_are_converted(rt: HostRuntime) -> Result<(), Fail> {
    let rows = [
        gives("300 (char) return", 44),
        gives("200 (char) return", -56),
        gives("200 (byte) return", 200),
        gives("70000 (short) return", 4464),
        gives("5 (bool) return", 1),
        gives("0 bool return", 0),
        gives("-1 unsigned return", 4294967295),
        gives("-1 word return", 18446744073709551615),
        gives("0 unsigned 1 unsigned - return", 4294967295),
        gives("c 300 char = return", 44),
        gives("5 (void) ; 1 return", 1),
    ];
    assert_eq!(rt; as_expected(rt.alloc(), &rows)?, rows.len());
    Ok(())
}

#[test]
fn some_operands_are_not_evaluated(rt: HostRuntime) -> Result<(), Fail> {
    let rows = [
        gives("x 0 = ; 0 x 1 = && ; x return", 0),
        gives("x 0 = ; 1 x 1 = && ; x return", 1),
        gives("x 0 = ; 1 x 1 = || ; x return", 0),
        gives("x 0 = ; 0 x 1 = || ; x return", 1),
        gives("x 0 = ; 1 0 && x 1 = joins && ; x return", 0),
        gives("1 2 3 ?: return", 2),
        gives("0 2 3 ?: return", 3),
        gives("x 0 = ; 1 5 x 1 = ?: ; x return", 0),
        gives("x 1 = x 2 + , return", 3),
    ];
    assert_eq!(rt; as_expected(rt.alloc(), &rows)?, rows.len());
    Ok(())
}

#[test]
fn places_are_changed(rt: HostRuntime) -> Result<(), Fail> {
    let rows = [
        gives("x 5 = return", 5),
        gives("x 5 = ; x 3 += return", 8),
        gives("x 5 = ; x 3 -= return", 2),
        gives("x 5 = ; x 3 *= return", 15),
        gives("x 5 = ; x 3 /= return", 1),
        gives("x 5 = ; x 3 %= return", 2),
        gives("x 5 = ; x 3 &= return", 1),
        gives("x 5 = ; x 3 |= return", 7),
        gives("x 5 = ; x 3 ^= return", 6),
        gives("x 5 = ; x 3 <<= return", 40),
        gives("x 5 = ; x 1 >>= return", 2),
        gives("x 5 = ; x x++ return", 5),
        gives("x 5 = ; x x++ ; x return", 6),
        gives("x 5 = ; x x-- ; x return", 4),
        gives("x 5 = ; x ++x return", 6),
        gives("x 5 = ; x --x return", 4),
    ];
    assert_eq!(rt; as_expected(rt.alloc(), &rows)?, rows.len());
    Ok(())
}

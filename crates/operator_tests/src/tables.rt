//! Operators on pointers to elements of 4 bytes, worked by hand in two layouts: in the first, base 1 stands at 4096 and base 2 at 8192; in the
//! second, base 2 stands at 4096 and base 1 right behind it, at 4112.

use crate::operators::{distance, equal, is_defined, is_undefined, less, minus, plus};
use aops::Computed;
use avalue_values::{AVal, Mem, Part};
use c_base::kind::Kind;
use pointer_tests::places::{byte, is_byte, number};
use std::alloc::Global;

/// Where the base stands in the two layouts.
fn addresses(base: u32) -> (i16, i16) {
    if base == 1 {
        (4096, 4112)
    } else {
        (8192, 4096)
    }
}

fn apart(n: i16, from: i16) -> i32 {
    n as i32 - from as i32
}

/// Whether the value is one address, which has these numbers in the two layouts.
fn has_numbers(v: &AVal, first: i16, second: i16) -> bool {
    match v.part(0) {
        None => false,
        Some(part) => match part {
            Part::Number(_) => false,
            Part::Mix(_) => false,
            Part::Address(id, _) => {
                let (one, other) = addresses(id.0);
                is_byte(v, id.0, apart(first, one)) && is_byte(v, id.0, apart(second, other))
            }
        },
    }
}

/// A pointer and a count, and the numbers of the result.
#[derive(Clone, Copy)]
struct Move {
    base: u32,
    offset: i32,
    count: i32,
    first: i16,
    second: i16,
}

fn row(base: u32, offset: i32, count: i32, first: i16, second: i16) -> Move {
    Move {
        base,
        offset,
        count,
        first,
        second,
    }
}

fn moved(alloc: Global, back: bool, row: &Move) -> Mem<Computed> {
    let pointer = byte(alloc, row.base, row.offset)?;
    let count = number(row.count);
    if back {
        minus(alloc, &pointer, &count)
    } else {
        plus(alloc, &pointer, &count)
    }
}

fn is_moved(alloc: Global, back: bool, row: &Move) -> Mem<bool> {
    let answer = moved(alloc, back, row)?;
    Ok(has_numbers(&answer.value, row.first, row.second))
}

fn all_moved(alloc: Global, back: bool, table: &[Move]) -> Mem<bool> {
    for row in table {
        if !is_moved(alloc, back, row)? {
            return Ok(false);
        }
    }
    Ok(true)
}

fn forwards(alloc: Global) -> Mem<bool> {
    let table = [
        row(1, 0, 1, 4100, 4116),
        row(1, 4, 1, 4104, 4120),
        row(1, 0, 2, 4104, 4120),
        row(1, 8, -2, 4096, 4112),
        row(2, 0, 3, 8204, 4108),
        row(2, 12, 1, 8208, 4112),
    ];
    all_moved(alloc, false, &table)
}

fn backwards(alloc: Global) -> Mem<bool> {
    let table = [
        row(1, 0, 1, 4092, 4108),
        row(1, 8, 1, 4100, 4116),
        row(2, 16, 4, 8192, 4096),
        row(2, 4, -1, 8200, 4104),
    ];
    all_moved(alloc, true, &table)
}

/// Two operands, bytes of bases or plain numbers (where the base is 0), and the number that the operator gives in both layouts; none where it is
/// undefined.
#[derive(Clone, Copy)]
struct Pair {
    left: u32,
    from: i32,
    right: u32,
    to: i32,
    expected: Option<i16>,
}

fn pair_of(left: u32, from: i32, right: u32, to: i32, expected: Option<i16>) -> Pair {
    Pair {
        left,
        from,
        right,
        to,
        expected,
    }
}

/// What is asked of two pointers.
#[derive(Clone, Copy)]
enum Question {
    Distance,
    Order,
    Equality,
}

fn ask(alloc: Global, question: Question, a: &AVal, b: &AVal) -> Mem<Computed> {
    match question {
        Question::Distance => distance(alloc, a, b),
        Question::Order => less(alloc, a, b),
        Question::Equality => equal(alloc, a, b),
    }
}

fn operand(alloc: Global, base: u32, n: i32) -> Mem<AVal> {
    if base == 0 {
        Ok(number(n))
    } else {
        byte(alloc, base, n)
    }
}

fn answer(alloc: Global, question: Question, row: &Pair) -> Mem<Computed> {
    let left = operand(alloc, row.left, row.from)?;
    let right = operand(alloc, row.right, row.to)?;
    ask(alloc, question, &left, &right)
}

/// The kind of what is undefined.
fn kind_of(question: Question) -> Kind {
    match question {
        Question::Distance => Kind::DifferingBlocks,
        Question::Order => Kind::PtrComparison,
        Question::Equality => Kind::PtrComparison,
    }
}

fn is_right(answer: &Computed, question: Question, expected: Option<i16>) -> bool {
    match expected {
        None => is_undefined(answer, kind_of(question)),
        Some(n) => is_defined(answer, n as i32),
    }
}

fn all_right(alloc: Global, question: Question, table: &[Pair]) -> Mem<bool> {
    for row in table {
        if !is_right(&answer(alloc, question, row)?, question, row.expected) {
            return Ok(false);
        }
    }
    Ok(true)
}

fn differences(alloc: Global) -> Mem<bool> {
    let table = [
        pair_of(1, 8, 1, 0, Some(2)),
        pair_of(1, 0, 1, 8, Some(-2)),
        pair_of(2, 16, 2, 4, Some(3)),
        pair_of(2, 6, 2, 0, Some(1)),
        pair_of(1, 0, 2, 16, None),
        pair_of(1, 0, 2, 0, None),
        pair_of(1, 12, 1, 8, None),
        pair_of(1, 12, 1, 0, None),
    ];
    all_right(alloc, Question::Distance, &table)
}

fn orders(alloc: Global) -> Mem<bool> {
    let table = [
        pair_of(1, 0, 1, 4, Some(1)),
        pair_of(1, 0, 1, 8, Some(1)),
        pair_of(1, 4, 1, 4, Some(0)),
        pair_of(2, 16, 2, 0, Some(0)),
        pair_of(2, 0, 2, 16, Some(1)),
        pair_of(1, 0, 2, 0, None),
        pair_of(1, 12, 1, 0, None),
        pair_of(1, 0, 0, 0, None),
    ];
    all_right(alloc, Question::Order, &table)
}

/// The end of base 2 is the first byte of base 1 in the second layout alone, so asking for their equality is undefined.
fn equalities(alloc: Global) -> Mem<bool> {
    let table = [
        pair_of(1, 4, 1, 4, Some(1)),
        pair_of(1, 0, 2, 0, Some(0)),
        pair_of(1, 0, 0, 0, Some(0)),
        pair_of(2, 16, 2, 0, Some(0)),
        pair_of(1, 0, 2, 15, Some(0)),
        pair_of(2, 0, 1, 7, Some(0)),
        pair_of(2, 16, 1, 0, None),
        pair_of(1, 8, 2, 0, None),
        pair_of(1, -4, 2, 0, None),
        pair_of(1, 0, 0, 1, None),
    ];
    all_right(alloc, Question::Equality, &table)
}

#[test]
fn pointers_move_in_two_layouts(rt: HostRuntime) {
    assert!(rt; forwards(rt.alloc()) == Ok(true) && backwards(rt.alloc()) == Ok(true));
}

#[test]
fn differences_are_those_of_two_layouts(rt: HostRuntime) {
    assert!(rt; differences(rt.alloc()) == Ok(true));
}

#[test]
fn orders_are_those_of_two_layouts(rt: HostRuntime) {
    assert!(rt; orders(rt.alloc()) == Ok(true));
}

#[test]
fn equalities_are_those_of_two_layouts(rt: HostRuntime) {
    assert!(rt; equalities(rt.alloc()) == Ok(true));
}

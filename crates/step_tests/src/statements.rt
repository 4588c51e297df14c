//! Statements (C11 6.8).

use crate::runs::{as_expected, gives};
use std::test::Fail;

#[test]
fn loops_turn_while_their_condition_holds(rt: HostRuntime) -> Result<(), Fail> {
    let rows = [
        gives("x 0 = ; x 10000 < x 3 += ; while x return", 10002),
        gives("x 0 = ; 0 x 3 += ; do x return", 3),
        gives("x 0 = ; 0 x 3 += ; while x return", 0),
        gives("y 0 = ; x 0 = x 5 < x x++ y x += ; for y return", 10),
        gives("x 0 = ; { x x++ ; x 7 == break if } for(;;) x return", 7),
    ];
    assert_eq!(rt; as_expected(rt.alloc(), &rows)?, rows.len());
    Ok(())
}

#[test]
fn continue_and_break_leave_a_turn_and_a_loop(rt: HostRuntime) -> Result<(), Fail> {
    let rows = [
        gives(
            "x 0 = ; y 0 = y 100 < y x++ { y 5 < continue if y 8 == break if x y += ; } for x return",
            18,
        ),
        gives(
            "x 0 = ; y 0 = ; y 5 < { y x++ ; y 3 == continue if x y += ; } do x return",
            12,
        ),
        gives(
            "x 0 = ; x 9 < { { x x++ ; break } for(;;) x x++ ; } while x return",
            10,
        ),
    ];
    assert_eq!(rt; as_expected(rt.alloc(), &rows)?, rows.len());
    Ok(())
}

#[test]
fn an_if_takes_one_branch(rt: HostRuntime) -> Result<(), Fail> {
    let rows = [
        gives("1 2 return if 3 return", 2),
        gives("0 2 return if 3 return", 3),
        gives("0 2 return if 3 return else", 3),
        gives(
            "x 2 = ; x 1 == 10 return if x 2 == 20 return joins if 30 return else",
            20,
        ),
        gives(
            "x 3 = ; x 1 == 10 return if x 2 == 20 return joins if 30 return else",
            30,
        ),
    ];
    assert_eq!(rt; as_expected(rt.alloc(), &rows)?, rows.len());
    Ok(())
}

#[test]
fn a_switch_falls_through(rt: HostRuntime) -> Result<(), Fail> {
    let rows = [
        gives(
            "x 0 = ; 1 { x 1 += ; 1 case x 10 += ; 2 case break x 100 += ; default } switch x return",
            11,
        ),
        gives(
            "x 0 = ; 2 { x 1 += ; 1 case x 10 += ; 2 case break x 100 += ; default } switch x return",
            10,
        ),
        gives(
            "x 0 = ; 3 { x 1 += ; 1 case x 10 += ; 2 case break x 100 += ; default } switch x return",
            100,
        ),
        gives("x 0 = ; 3 { x 1 += ; 1 case } switch x return", 0),
    ];
    assert_eq!(rt; as_expected(rt.alloc(), &rows)?, rows.len());
    Ok(())
}

#[test]
fn a_jump_goes_to_its_label(rt: HostRuntime) -> Result<(), Fail> {
    let rows = [
        gives("x 0 = ; goto:o x 9 = ; x 1 += ; o: x return", 1),
        gives("x 0 = ; x 1 += ; o: x 5 < goto:o if x return", 5),
        gives(
            "x 0 = ; { { goto:o } for(;;) } for(;;) x 3 += ; o: x return",
            3,
        ),
        gives("x 0 = ; goto:i x 9 = ; x 1 += ; o: i: x return", 1),
        gives(
            "x 0 = ; { z 5 init goto:o }z x 9 = ; x 1 += ; o: x return",
            1,
        ),
    ];
    assert_eq!(rt; as_expected(rt.alloc(), &rows)?, rows.len());
    Ok(())
}

#[test]
fn main_falls_off_its_end_with_0(rt: HostRuntime) -> Result<(), Fail> {
    let rows = [gives("", 0), gives("empty", 0), gives("x 5 = ;", 0)];
    assert_eq!(rt; as_expected(rt.alloc(), &rows)?, rows.len());
    Ok(())
}

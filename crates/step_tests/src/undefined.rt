//! Each kind of an undefined step.

use crate::runs::{as_expected, stops, stops_at};
use c_base::kind::Kind;
use std::test::Fail;

#[test]
fn numbers_leave_their_range(rt: HostRuntime) -> Result<(), Fail> {
    let rows = [
        stops("1 0 / ;", Kind::DivisionByZero),
        stops("1 0 % ;", Kind::DivisionByZero),
        stops("2147483647 1 + ;", Kind::SignedOverflow),
        stops("-2147483648 neg ;", Kind::SignedOverflow),
        stops("-2147483648 -1 / ;", Kind::SignedOverflow),
        stops("65536 65536 * ;", Kind::SignedOverflow),
        stops("x 2147483647 = ; x x++ ;", Kind::SignedOverflow),
        stops("x 2147483647 = ; x 1 += ;", Kind::SignedOverflow),
        stops("1 32 << ;", Kind::Shift),
        stops("1 -1 << ;", Kind::Shift),
        stops("-1 1 << ;", Kind::Shift),
        stops("1 32 >> ;", Kind::Shift),
    ];
    assert_eq!(rt; as_expected(rt.alloc(), &rows)?, rows.len());
    Ok(())
}

#[test]
fn accesses_leave_their_object(rt: HostRuntime) -> Result<(), Fail> {
    let rows = [
        stops("p 0 int* = ; p -> ;", Kind::MemAccess),
        stops("0 int* deref 1 = ;", Kind::MemAccess),
        stops("p x addr = ; p 1 [] ;", Kind::MemAccess),
        stops("e w = ; e 0 [] 65 char = ;", Kind::MemAccess),
        stops("p k addr = ; p -> 1 = ;", Kind::MemAccess),
        stops("a 3 [] ;", Kind::IndexBound),
        stops("a -1 [] ;", Kind::IndexBound),
        stops("a 4 []end addr ;", Kind::IndexBound),
        stops("p a 3 []end addr = ; p -> ;", Kind::MemAccess),
    ];
    assert_eq!(rt; as_expected(rt.alloc(), &rows)?, rows.len());
    Ok(())
}

#[test]
fn what_is_not_written_or_dead_is_used(rt: HostRuntime) -> Result<(), Fail> {
    let rows = [
        stops("x return", Kind::Initialization),
        stops("a 1 [] 5 init a 2 [] return", Kind::Initialization),
        stops("s .0 1 char = ; s .1 return", Kind::Initialization),
        stops(
            "{ z 5 init p z addr = ; }z p -> return",
            Kind::DanglingPointer,
        ),
        stops("{ z 5 init p z addr = ; }z p return", Kind::DanglingPointer),
    ];
    assert_eq!(rt; as_expected(rt.alloc(), &rows)?, rows.len());
    Ok(())
}

#[test]
fn pointers_of_two_objects_meet(rt: HostRuntime) -> Result<(), Fail> {
    let rows = [
        stops("x addr y addr < ;", Kind::PtrComparison),
        stops("x addr y addr - ;", Kind::DifferingBlocks),
        stops(
            "a 0 [] 1 init0 e a char* = ; e 2 + union* deref e union* deref = ;",
            Kind::Overlap,
        ),
    ];
    assert_eq!(rt; as_expected(rt.alloc(), &rows)?, rows.len());
    Ok(())
}

#[test]
fn the_left_operand_comes_first(rt: HostRuntime) -> Result<(), Fail> {
    let rows = [
        stops("1 0 / 2147483647 1 + + ;", Kind::DivisionByZero),
        stops("2147483647 1 + 1 0 / + ;", Kind::SignedOverflow),
        stops("x 1 0 / = ;", Kind::DivisionByZero),
        stops("a 3 [] 1 0 / = ;", Kind::IndexBound),
    ];
    assert_eq!(rt; as_expected(rt.alloc(), &rows)?, rows.len());
    Ok(())
}

#[test]
fn the_statement_is_told(rt: HostRuntime) -> Result<(), Fail> {
    let text = "x 1 = ; y 2 = ; x 0 / ; x return";
    assert!(rt; stops_at(rt.alloc(), text, Kind::DivisionByZero, 3)?);
    Ok(())
}

//! Places, pointers, arrays, structs and unions (C11 6.5.2, 6.5.3, 6.7.9).

use crate::runs::{as_expected, gives, returns};
use std::test::Fail;

#[test]
fn pointers_lead_to_objects(rt: HostRuntime) -> Result<(), Fail> {
    let rows = [
        gives("x 7 = ; x addr deref return", 7),
        gives("p x addr = ; p -> 9 = ; x return", 9),
        gives("p x addr = ; p deref 9 = ; x return", 9),
        gives("x addr set? return", 1),
        gives("p 0 int* = ; p set? return", 0),
        gives("p 0 int* = ; p ! return", 1),
        gives("x addr y addr == return", 0),
        gives("x addr x addr == return", 1),
        gives("x addr 0 int* != return", 1),
    ];
    assert_eq!(rt; as_expected(rt.alloc(), &rows)?, rows.len());
    Ok(())
}

#[test]
fn arrays_have_elements(rt: HostRuntime) -> Result<(), Fail> {
    let rows = [
        gives("a 1 [] 5 = ; a 1 [] return", 5),
        gives("1 a in[] 5 = ; a 1 [] return", 5),
        gives("p a = ; p 2 [] 5 = ; a 2 [] return", 5),
        gives("p a = ; 2 p in[] 5 = ; a 2 [] return", 5),
        gives("a 2 [] 8 = ; p a 1 [] addr = ; p x++ ; p -> return", 8),
        gives("a 0 [] 1 = ; p a 1 [] addr = ; p 1 - deref return", 1),
        gives("a 1 [] 6 = ; 1 a + deref return", 6),
        gives("a 2 [] 6 = ; p a = ; p 2 += ; p -> return", 6),
        gives("a 2 [] addr a - return", 2),
        gives("p a 3 []end addr = ; p a - return", 3),
        gives("a a 1 [] addr < return", 1),
        gives("a 2 [] addr a <= return", 0),
    ];
    assert_eq!(rt; as_expected(rt.alloc(), &rows)?, rows.len());
    Ok(())
}

#[test]
fn objects_have_bytes(rt: HostRuntime) -> Result<(), Fail> {
    let rows = [
        gives("x 258 = ; e x addr char* = ; e -> return", 2),
        gives("x 258 = ; e x addr char* = ; e 1 [] return", 1),
        gives("u .0 258 = ; u .1 1 [] return", 1),
        gives("u .0 0 = ; u .1 3 [] 1 char = ; u .0 return", 16777216),
    ];
    assert_eq!(rt; as_expected(rt.alloc(), &rows)?, rows.len());
    Ok(())
}

#[test]
fn structs_are_copied_whole(rt: HostRuntime) -> Result<(), Fail> {
    let rows = [
        gives("s .0 3 char = ; s .1 4 = ; t s = ; t .1 return", 4),
        gives("s .0 3 char = ; s .1 4 = ; t s = ; t .0 return", 3),
        gives("s .1 4 = ; s addr deref .1 return", 4),
        gives("s .1 4 = ; t .1 5 = ; 1 s t ?: .1 return", 4),
        gives("s .1 4 = ; t s = .1 return", 4),
    ];
    assert_eq!(rt; as_expected(rt.alloc(), &rows)?, rows.len());
    Ok(())
}

#[test]
fn objects_begin_with_what_is_written(rt: HostRuntime) -> Result<(), Fail> {
    let rows = [
        gives("x 5 init x return", 5),
        gives("a 1 [] 5 init0 a 2 [] a 1 [] + return", 5),
        gives("d 2 text d 1 [] d 2 [] + return", 97),
        gives("g return", 16843009),
        gives("k return", 33686018),
        gives("w 0 [] return", 98),
        gives("e w = ; e 2 [] return", 98),
        gives("v return", 0),
        gives("v 5 = ; v return", 0),
        gives("x 0 = ; x 3 < { z x init x z 1 + = ; }z while x return", 3),
    ];
    assert_eq!(rt; as_expected(rt.alloc(), &rows)?, rows.len());
    Ok(())
}

/// Some million steps, of which 20,000 store in an array of 10,000 ints; as many objects are born and die.
#[test]
fn a_store_copies_no_memory(rt: HostRuntime) -> Result<(), Fail> {
    let text = "x 0 = ; x 20000 < { z x init b x 10000 % [] z = ; x x++ ; }z while b 0 [] return";
    assert!(rt; returns(rt.alloc(), "xb", text, "", 10_000)?);
    Ok(())
}

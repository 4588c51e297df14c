//! Calls (C11 6.5.2.2).

use crate::runs::{as_expected, gives, returns, stops};
use c_base::kind::Kind;
use std::test::Fail;

#[test]
fn functions_are_called(rt: HostRuntime) -> Result<(), Fail> {
    let rows = [
        gives("f 3 call/1 return", 6),
        gives("f f 2 call/1 call/1 return", 6),
        gives("q f = ; q 3 call/1 return", 6),
        gives("q f addr = ; q 3 call/1 return", 6),
        gives("s .0 1 char = ; s .1 4 = ; h s call/1 .1 return", 5),
        gives(
            "s .0 1 char = ; s .1 4 = ; t h s call/1 = ; s .1 t .1 + return",
            9,
        ),
    ];
    assert_eq!(rt; as_expected(rt.alloc(), &rows)?, rows.len());
    Ok(())
}

#[test]
fn a_pointer_leads_to_a_fitting_function(rt: HostRuntime) -> Result<(), Fail> {
    let rows = [
        stops("q 0 int(*)() = ; q 3 call/1 return", Kind::FunctionPointer),
        stops("q h int(*)() = ; q 3 call/1 return", Kind::FunctionPointer),
        stops(
            "q x addr int(*)() = ; q 3 call/1 return",
            Kind::FunctionPointer,
        ),
        stops("q 3 call/1 return", Kind::Initialization),
    ];
    assert_eq!(rt; as_expected(rt.alloc(), &rows)?, rows.len());
    Ok(())
}

/// A function may end without a value that nobody uses (C11 6.9.1p12).
#[test]
fn a_function_may_fall_off_its_end(rt: HostRuntime) -> Result<(), Fail> {
    assert!(rt; returns(rt.alloc(), "x", "f 1 call/1 ; 5 return", "empty", 5)?);
    Ok(())
}

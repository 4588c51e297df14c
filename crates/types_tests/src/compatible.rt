use crate::reading::type_from;
use std::test::Fail;

#[test]
fn types_are_compatible(rt: HostRuntime) -> Result<(), Fail> {
    let alloc = rt.alloc();
    for (a, b, expected) in [
        (b"v".as_slice(), b"v".as_slice(), true),
        (b"i".as_slice(), b"i".as_slice(), true),
        (b"i".as_slice(), b"u".as_slice(), false),
        (b"*i".as_slice(), b"*i".as_slice(), true),
        (b"*i".as_slice(), b"*v".as_slice(), false),
        (b"3i".as_slice(), b"3i".as_slice(), true),
        (b"3i".as_slice(), b"4i".as_slice(), false),
        (b"3i".as_slice(), b"0i".as_slice(), true),
        (b"A".as_slice(), b"A".as_slice(), true),
        (b"A".as_slice(), b"B".as_slice(), false),
        (b"fi".as_slice(), b"fi".as_slice(), true),
        (b"fi".as_slice(), b"gi".as_slice(), false),
        (b"fi".as_slice(), b"fl".as_slice(), false),
        (b"*fi".as_slice(), b"fi".as_slice(), false),
    ] {
        let left = type_from(alloc, a)?;
        let right = type_from(alloc, b)?;
        assert!(rt; left.is_compatible(&right) == expected);
        assert!(rt; right.is_compatible(&left) == expected);
        let copy = left.duplicate(alloc)?;
        assert!(rt; copy.is_compatible(&left));
    }
    Ok(())
}

use crate::reading::type_from;
use c_base::integer::Machine;
use c_base::name::Name;
use c_types::ctype::{Composite, Composites, Extent, Member};
use c_types::sizes::{closed_extent, extent_of_type, member_offset, size_of};
use sqlite_items::Items;
use std::alloc::{AllocError, Global};
use std::test::Fail;

const M: Machine = Machine::Lp64;

fn has_extent(found: Option<Extent>, size: u64, align: u64) -> bool {
    match found {
        Some(e) => e.size == size && e.align == align,
        None => false,
    }
}

/// Adds a struct or union whose members have these types.
fn close(
    alloc: Global,
    all: &mut Composites,
    is_union: bool,
    types: &[&[u8]],
) -> Result<(), AllocError> {
    let mut members = Items::new(alloc);
    for text in types {
        members.push(Member {
            name: Name::from_bytes(alloc, b"m")?,
            ctype: type_from(alloc, text)?,
            volatile: false,
        })?;
    }
    let extent = closed_extent(all, is_union, members.as_slice(), M);
    all.push(Composite {
        name: Name::from_bytes(alloc, b"s")?,
        is_union,
        members,
        extent,
    })?;
    Ok(())
}

/// The structs and unions of the tests; what a C compiler gives for them on x86-64 stands in the tests.
fn composites(alloc: Global) -> Result<Composites, AllocError> {
    let mut all = Items::new(alloc);
    close(
        alloc,
        &mut all,
        false,
        [b"c".as_slice(), b"i".as_slice()].as_slice(),
    )?;
    close(
        alloc,
        &mut all,
        false,
        [b"i".as_slice(), b"c".as_slice()].as_slice(),
    )?;
    close(
        alloc,
        &mut all,
        false,
        [
            b"c".as_slice(),
            b"s".as_slice(),
            b"l".as_slice(),
            b"c".as_slice(),
        ]
        .as_slice(),
    )?;
    close(
        alloc,
        &mut all,
        false,
        [b"C".as_slice(), b"3c".as_slice()].as_slice(),
    )?;
    close(
        alloc,
        &mut all,
        true,
        [b"5c".as_slice(), b"i".as_slice(), b"s".as_slice()].as_slice(),
    )?;
    close(
        alloc,
        &mut all,
        false,
        [
            b"c".as_slice(),
            b"E".as_slice(),
            b"*v".as_slice(),
            b"2B".as_slice(),
        ]
        .as_slice(),
    )?;
    close(
        alloc,
        &mut all,
        false,
        [b"b".as_slice(), b"l".as_slice()].as_slice(),
    )?;
    close(alloc, &mut all, false, [].as_slice())?;
    close(
        alloc,
        &mut all,
        false,
        [b"c".as_slice(), b"H".as_slice()].as_slice(),
    )?;
    Ok(all)
}

#[test]
fn types_have_sizes(rt: HostRuntime) -> Result<(), Fail> {
    let alloc = rt.alloc();
    let all = composites(alloc)?;
    for (text, size, align) in [
        (b"b".as_slice(), 1, 1),
        (b"s".as_slice(), 2, 2),
        (b"u".as_slice(), 4, 4),
        (b"l".as_slice(), 8, 8),
        (b"*v".as_slice(), 8, 8),
        (b"2*fi".as_slice(), 16, 8),
        (b"25i".as_slice(), 40, 4),
        (b"A".as_slice(), 8, 4),
        (b"B".as_slice(), 8, 4),
        (b"C".as_slice(), 24, 8),
        (b"D".as_slice(), 32, 8),
        (b"E".as_slice(), 8, 4),
        (b"F".as_slice(), 40, 8),
        (b"G".as_slice(), 16, 8),
        (b"3C".as_slice(), 72, 8),
    ] {
        let t = type_from(alloc, text)?;
        assert!(rt; has_extent(extent_of_type(&all, &t, M), size, align));
        assert!(rt; size_of(&all, &t, M) == size);
    }
    Ok(())
}

#[test]
fn some_types_have_no_size(rt: HostRuntime) -> Result<(), Fail> {
    let alloc = rt.alloc();
    let all = composites(alloc)?;
    for text in [
        b"v".as_slice(),
        b"fi".as_slice(),
        b"0i".as_slice(),
        b"3v".as_slice(),
        b"H".as_slice(),
        b"I".as_slice(),
        b"Z".as_slice(),
    ] {
        let t = type_from(alloc, text)?;
        assert!(rt; extent_of_type(&all, &t, M).is_none());
    }
    Ok(())
}

#[test]
fn members_have_places(rt: HostRuntime) -> Result<(), Fail> {
    let alloc = rt.alloc();
    let all = composites(alloc)?;
    for (of, member, offset) in [
        (0, 0, 0),
        (0, 1, 4),
        (1, 1, 4),
        (2, 1, 2),
        (2, 2, 8),
        (2, 3, 16),
        (3, 1, 24),
        (4, 2, 0),
        (5, 1, 4),
        (5, 2, 16),
        (5, 3, 24),
        (6, 1, 8),
        (0, 2, 0),
        (9, 0, 0),
    ] {
        assert!(rt; member_offset(&all, of, member, M) == offset);
    }
    Ok(())
}

//! Sizes of types and places of members (C11 6.5.3.4, 6.7.2.1).
ghost use Rattle.std.specs.Prelude.{◌≡◌, ◌≤◌, ◌^◌, ◌<◌, length, Some, slice_get};
ghost use Rattle.c_base.specs.Integers as integers;
ghost use Rattle.c_types.specs.Sizes as plain;
ghost use Rattle.c_types.specs.Sizes.{IsSized, IsSizedMember, AreSized};
ghost use Rattle.c_types.specs.Agreeing.{Agrees, AgreesExtent, AllAligned, IsAlignment, extent_option};
ghost use Rattle.c_types.specs.Views.{type_of, composites_of, members_of, extent_of};

use crate::ctype::{CType, Composites, Extent, Member};
use c_base::integer::{IntKind, Machine};

fn size_of_long(m: Machine) -> u64
    ensures { result ≡ integers.size_of_long m }
{
    match m {
        Machine::Lp64 => 8,
    }
}

fn size_of_kind(kind: IntKind, m: Machine) -> u64
    ensures { result ≡ integers.size_of_kind kind m }
{
    match kind {
        IntKind::Bool | IntKind::Char | IntKind::SChar | IntKind::UChar => 1,
        IntKind::Short | IntKind::UShort => 2,
        IntKind::Int | IntKind::UInt => 4,
        IntKind::Long | IntKind::ULong => size_of_long(m),
        IntKind::LLong | IntKind::ULLong => 8,
    }
}

fn natural(size: u64) -> Extent
    ensures { extent_of result ≡ record { size = size; align = size } }
{
    Extent { size, align: size }
}

fn repeated(count: u64, of: Option<Extent>) -> Option<Extent>
    ensures value { Agrees (plain.repeated count (extent_option of)) (extent_option result) }
{
    match of {
        None => None,
        Some(e) => {
            if count == 0 {
                return None;
            }
            Some(Extent {
                size: count.saturating_mul(e.size),
                align: e.align,
            })
        }
    }
}

fn composite_extent(c: &Composites, number: u32) -> Option<Extent>
    ensures { extent_option result ≡ plain.extent_at (slice_get (composites_of c.now) number) }
{
    match c.get(number as usize) {
        None => None,
        Some(composite) => composite.extent,
    }
}

/// What an object of the type takes; none of void, of a function and of an incomplete type (C11 6.5.3.4p1). A size above 2^62 is no
/// promise.
pub fn extent_of_type(c: &Composites, t: &CType, m: Machine) -> Option<Extent>
    ensures { Agrees (plain.extent (composites_of c.now) m (type_of t.now)) (extent_option result) }
{
    match t {
        CType::Void => None,
        CType::Int(kind) => Some(natural(size_of_kind(*kind, m))),
        CType::Ptr(_) => Some(natural(size_of_long(m))),
        CType::Array(of, count) => repeated(*count, extent_of_type(c, of.get(), m)),
        CType::Comp(number) => composite_extent(c, *number),
        CType::Func(_) => None,
    }
}

fn rounded_up(n: u64, align: u64) -> u64
    ensures { IsAlignment align → n ≤ 2 ^ 62 → result ≡ plain.rounded_up n align }
{
    if align == 0 {
        return n;
    }
    let top = n.saturating_add(align - 1);
    top - top % align
}

fn start(is_union: bool, end: u64, member: Extent) -> u64
    ensures { IsAlignment member.align → end ≤ 2 ^ 62 → result ≡ plain.start is_union end (extent_of member) }
{
    if is_union {
        return 0;
    }
    rounded_up(end, member.align)
}

/// What is placed with one more member.
fn placed(is_union: bool, before: Extent, member: Extent) -> Extent
    ensures { IsAlignment member.align → AgreesExtent (plain.placed is_union (extent_of before) (extent_of member)) (extent_of result) }
{
    let end = start(is_union, before.size, member).saturating_add(member.size);
    Extent {
        size: before.size.max(end),
        align: before.align.max(member.align),
    }
}

/// What the members take one after the other, without padding at the end.
fn placed_members(c: &Composites, is_union: bool, members: &[Member], m: Machine) -> Option<Extent>
    ensures value { AreSized (composites_of c.now) m → Agrees (plain.placed_all (plain.extent (composites_of c.now) m) is_union plain.nothing_placed (members_of members.now)) (extent_option result) }
    ensures aligned { AreSized (composites_of c.now) m → AllAligned (extent_option result) }
{
    let mut before = Extent { size: 0, align: 1 };
    for member in members {
        match extent_of_type(c, &member.ctype, m) {
            None => return None,
            Some(extent) => before = placed(is_union, before, extent),
        }
    }
    Some(before)
}

/// What a struct or union takes whose body has these members; none where it has none, or one without a size (C11 6.7.2.1p17). A size
/// above 2^62 is no promise.
pub fn closed_extent(
    c: &Composites,
    is_union: bool,
    members: &[Member],
    m: Machine,
) -> Option<Extent>
    ensures { AreSized (composites_of c.now) m → Agrees (plain.closed (plain.extent (composites_of c.now) m) is_union (members_of members.now)) (extent_option result) }
{
    if members.is_empty() {
        return None;
    }
    match placed_members(c, is_union, members, m) {
        None => None,
        Some(e) => Some(Extent {
            size: rounded_up(e.size, e.align),
            align: e.align,
        }),
    }
}

/// Bytes of an object of the type (C11 6.5.3.4p2). Where the type has no size or more than 2^62 it is no promise.
pub fn size_of(c: &Composites, t: &CType, m: Machine) -> u64
    ensures { IsSized (plain.extent (composites_of c.now) m (type_of t.now)) → result ≡ plain.size (composites_of c.now) m (type_of t.now) }
{
    match extent_of_type(c, t, m) {
        None => 0,
        Some(e) => e.size,
    }
}

fn offset_within(c: &Composites, is_union: bool, members: &[Member], at: usize, m: Machine) -> u64
    requires { at < length members.now }
    ensures { AreSized (composites_of c.now) m → IsSized (plain.closed (plain.extent (composites_of c.now) m) is_union (members_of members.now)) →
        result ≡ plain.start_of (plain.extent (composites_of c.now) m) is_union plain.nothing_placed (members_of members.now) at }
{
    let member = extent_of_type(c, &members[at].ctype, m);
    let before = placed_members(c, is_union, &members[..at], m);
    match before {
        None => 0,
        Some(before) => match member {
            None => 0,
            Some(member) => start(is_union, before.size, member),
        },
    }
}

/// The byte offset of a member in its struct or union, both by number (C11 6.7.2.1p15, p16). Where there is none, or the struct has no
/// size, it is no promise.
pub fn member_offset(c: &Composites, of: u32, member: u32, m: Machine) -> u64
    ensures { AreSized (composites_of c.now) m → IsSizedMember (slice_get (composites_of c.now) of) member → result ≡ plain.offset (composites_of c.now) m of member }
{
    let Some(composite) = c.get(of as usize) else {
        return 0;
    };
    let members = composite.members.as_slice();
    if member as usize >= members.len() {
        return 0;
    }
    offset_within(c, composite.is_union, members, member as usize, m)
}

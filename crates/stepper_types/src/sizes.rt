//! Exact sizes of types, and exact places of members (C11 6.5.3.4, 6.7.2.1). A size above 2^60 is answered as want of memory, since no
//! machine has an object of it.

ghost use Rattle.std.specs.Prelude.{◌≡◌, ◌≤◌, ◌*◌, ◌^◌, slice_get, Some, IfOk};
ghost use Rattle.c_base.specs.Integers as integers;
ghost use Rattle.c_machine.specs.Parts as parts;
ghost use Rattle.c_program.specs.Views.{program_of};
ghost use Rattle.c_types.specs.Sizes as plain;
ghost use Rattle.c_types.specs.Agreeing.{extent_option};
ghost use Rattle.c_types.specs.Views.{type_of, composites_of, composite_of, members_of, extent_of};
ghost use Rattle.stepper_shapes.specs.Views.{implied_of};

use c_base::integer::{IntKind, Machine};
use c_types::ctype::{CType, Composite, Composites, Extent, Member};
use std::alloc::AllocError;
use stepper_shapes::operand::ImpliedType;

const GREATEST: u64 = 1 << 60;

fn size_of_long(machine: Machine) -> u64
    ensures value { result ≡ integers.size_of_long machine }
    ensures small { result ≤ 8 }
{
    match machine {
        Machine::Lp64 => 8,
    }
}

/// Bytes of an object of the type.
pub fn size_of_kind(kind: IntKind, machine: Machine) -> u64
    ensures value { result ≡ integers.size_of_kind kind machine }
    ensures small { result ≤ 8 }
{
    match kind {
        IntKind::Bool | IntKind::Char | IntKind::SChar | IntKind::UChar => 1,
        IntKind::Short | IntKind::UShort => 2,
        IntKind::Int | IntKind::UInt => 4,
        IntKind::Long | IntKind::ULong => size_of_long(machine),
        IntKind::LLong | IntKind::ULLong => 8,
    }
}

fn natural(size: u64) -> Option<Extent>
    ensures { extent_option result ≡ plain.extent_from size size }
{
    Some(Extent { size, align: size })
}

/// What an array takes of so many elements.
fn repeated(count: u64, of: Option<Extent>) -> Result<Option<Extent>, AllocError>
    ensures { IfOk result (λ e. extent_option e ≡ plain.repeated count (extent_option of)) }
{
    let Some(e) = of else {
        return Ok(None);
    };
    if count == 0 {
        return Ok(None);
    }
    let size = count as u128 * e.size as u128;
    if size > GREATEST as u128 {
        return Err(AllocError);
    }
    Ok(Some(Extent {
        size: size as u64,
        align: e.align,
    }))
}

fn composite_extent(composites: &Composites, number: u32) -> Option<Extent>
    ensures { extent_option result ≡ plain.extent_at (slice_get (composites_of composites.now) number) }
{
    match composites.get(number as usize) {
        None => None,
        Some(composite) => composite.extent,
    }
}

/// What an object of the type takes; none of void, of a function and of an incomplete type.
fn extent(
    composites: &Composites,
    machine: Machine,
    t: &CType,
) -> Result<Option<Extent>, AllocError>
    ensures { IfOk result (λ e. extent_option e ≡ plain.extent (composites_of composites.now) machine (type_of t.now)) }
{
    match t {
        CType::Void => Ok(None),
        CType::Int(kind) => Ok(natural(size_of_kind(*kind, machine))),
        CType::Ptr(_) => Ok(natural(size_of_long(machine))),
        CType::Array(of, count) => repeated(*count, extent(composites, machine, of.get())?),
        CType::Comp(number) => Ok(composite_extent(composites, *number)),
        CType::Func(_) => Ok(None),
    }
}

fn small(size: u64) -> Result<u64, AllocError>
    ensures value { IfOk result (λ n. n ≡ size) }
    ensures small { IfOk result (λ n. n ≤ 2 ^ 60) }
{
    if size > GREATEST {
        return Err(AllocError);
    }
    Ok(size)
}

fn size_in(extent: Option<Extent>) -> u64
    ensures { result ≡ plain.size_in (extent_option extent) }
{
    match extent {
        None => 0,
        Some(e) => e.size,
    }
}

/// Bytes of an object of the type; 0 where it has no size.
pub fn size_within(composites: &Composites, machine: Machine, t: &CType) -> Result<u64, AllocError>
    ensures value { IfOk result (λ n. n ≡ plain.size (composites_of composites.now) machine (type_of t.now)) }
    ensures small { IfOk result (λ n. n ≤ 2 ^ 60) }
{
    small(size_in(extent(composites, machine, t)?))
}

/// Bytes of an object of an implied type.
pub fn implied_size(
    composites: &Composites,
    machine: Machine,
    t: ImpliedType<'_>,
) -> Result<u64, AllocError>
    ensures value { IfOk result (λ n. n ≡ plain.size (composites_of composites.now) machine (implied_of t.entry)) }
    ensures small { IfOk result (λ n. n ≤ 2 ^ 60) }
{
    match t {
        ImpliedType::Given(t) => size_within(composites, machine, t),
        ImpliedType::PointerTo(_) => Ok(size_of_long(machine)),
        ImpliedType::Long => Ok(size_of_long(machine)),
        ImpliedType::Void => Ok(0),
    }
}

/// The least multiple of the alignment that isn't below the number.
fn rounded_up(n: u64, align: u64) -> Result<u64, AllocError>
    ensures { IfOk result (λ r. r ≡ plain.rounded_up n align) }
{
    if align == 0 {
        return Err(AllocError);
    }
    let top = n as u128 + (align - 1) as u128;
    small_wide(top - top % align as u128)
}

fn small_wide(n: u128) -> Result<u64, AllocError>
    ensures { IfOk result (λ r. r ≡ n) }
{
    if n > GREATEST as u128 {
        return Err(AllocError);
    }
    Ok(n as u64)
}

/// Where a member begins behind what stands before it.
fn start(is_union: bool, end: u64, member: Extent) -> Result<u64, AllocError>
    ensures { IfOk result (λ n. n ≡ plain.start is_union end (extent_of member)) }
{
    if is_union {
        return Ok(0);
    }
    rounded_up(end, member.align)
}

fn placed(is_union: bool, before: Extent, member: Extent) -> Result<Extent, AllocError>
    ensures { IfOk result (λ e. extent_of e ≡ plain.placed is_union (extent_of before) (extent_of member)) }
{
    let end = start(is_union, before.size, member)? as u128 + member.size as u128;
    let end = small_wide(end)?;
    Ok(Extent {
        size: before.size.max(end),
        align: before.align.max(member.align),
    })
}

fn after(
    is_union: bool,
    before: Option<Extent>,
    member: Option<Extent>,
) -> Result<Option<Extent>, AllocError>
    ensures { IfOk result (λ e. extent_option e ≡ plain.after is_union (extent_option before) (extent_option member)) }
{
    match (before, member) {
        (Some(before), Some(member)) => Ok(Some(placed(is_union, before, member)?)),
        (Some(_), None) => Ok(None),
        (None, _) => Ok(None),
    }
}

fn start_at(
    is_union: bool,
    before: Option<Extent>,
    member: Option<Extent>,
) -> Result<u64, AllocError>
    ensures { IfOk result (λ n. n ≡ plain.start_at is_union (extent_option before) (extent_option member)) }
{
    match (before, member) {
        (Some(before), Some(member)) => start(is_union, before.size, member),
        (Some(_), None) => Ok(0),
        (None, _) => Ok(0),
    }
}

/// Where one of the members begins behind what was placed so far.
fn start_of(
    composites: &Composites,
    machine: Machine,
    is_union: bool,
    before: Option<Extent>,
    members: &[Member],
    n: usize,
) -> Result<u64, AllocError>
    ensures { IfOk result (λ at. at ≡ plain.start_of (plain.extent (composites_of composites.now) machine) is_union (extent_option before) (members_of members.now) n) }
{
    if members.is_empty() {
        return Ok(0);
    }
    let member = extent(composites, machine, &members[0].ctype)?;
    if n == 0 {
        return start_at(is_union, before, member);
    }
    let before = after(is_union, before, member)?;
    start_of(composites, machine, is_union, before, &members[1..], n - 1)
}

fn offset_in(
    composites: &Composites,
    machine: Machine,
    composite: &Composite,
    member: u32,
) -> Result<u64, AllocError>
    ensures { IfOk result (λ n. n ≡ plain.offset_in (plain.extent (composites_of composites.now) machine) (Some (composite_of composite.now)) member) }
{
    let nothing = Some(Extent { size: 0, align: 1 });
    let members = composite.members.as_slice();
    start_of(
        composites,
        machine,
        composite.is_union,
        nothing,
        members,
        member as usize,
    )
}

/// The byte offset of a member in its struct or union, both by number.
pub fn offset_within(
    composites: &Composites,
    machine: Machine,
    number: u32,
    member: u32,
) -> Result<u64, AllocError>
    ensures value { IfOk result (λ n. n ≡ plain.offset (composites_of composites.now) machine number member) }
    ensures small { IfOk result (λ n. n ≤ 2 ^ 60) }
{
    match composites.get(number as usize) {
        None => Ok(0),
        Some(composite) => small(offset_in(composites, machine, composite, member)?),
    }
}

//! Stores and copies.

ghost use Rattle.std.specs.Prelude.{◌≡◌, ◌*◌, ◌≤◌, ◌^◌, ◌&&◌, map, Result, IfOk, OnOk};
ghost use Rattle.c_memory.specs.Memories as memories;
ghost use Rattle.c_effects.specs.Ranges as ranges;
ghost use Rattle.stepper_values.specs.Views.{value_of, cell_of, layout_of};
ghost use Rattle.stepper_memory.specs.Views.{plain};
ghost use Rattle.stepper_accesses.specs.Results.{stored_of, target_of};

use crate::loads::read;
use crate::reached::reached;
use c_base::kind::Kind;
use c_memory::scalar::Scalar;
use std::alloc::{AllocError, Global};
use stepper_memory::memory::Memory;
use stepper_values::layout::Layout;
use stepper_values::number::size_of_scalar;
use stepper_values::places::{first_bit, object_of, offset_in};
use stepper_values::value::{Cell, Value, cells_of};

/// The base that a store of so many bytes writes, or why it stops. An initialiser, `named`, writes an object that can't be written otherwise
/// (C11 6.7.3p6, 6.7.9).
fn target(
    layout: &Layout,
    memory: &Memory,
    named: bool,
    bytes: u64,
    at: &Value,
) -> Result<u32, Kind>
    ensures { result ≡ target_of (layout_of layout.now) named (memories.reached (layout_of layout.now) (plain memory.now) bytes (value_of at.now)) }
{
    match reached(layout, memory, bytes, at) {
        None => Err(Kind::MemAccess),
        Some(base) => {
            if named || !object_of(layout, base).readonly {
                Ok(base)
            } else {
                Err(Kind::MemAccess)
            }
        }
    }
}

fn write_at(
    alloc: Global,
    layout: &Layout,
    memory: &mut Memory,
    base: u32,
    cells: &[Cell],
    at: &Value,
) -> Result<(), AllocError>
    ensures { OnOk result (plain memory.new ≡ ranges.overwritten_at (layout_of layout.now) (plain memory.old) (map cell_of cells.now) (value_of at.now) base) }
{
    let first = first_bit(layout, base, at);
    memory.write(alloc, base, first, cells)
}

/// Writes bits of so many bytes from the address on, or answers why it stops; then the memory is as it was.
pub fn write(
    alloc: Global,
    layout: &Layout,
    memory: &mut Memory,
    named: bool,
    bytes: u64,
    cells: &[Cell],
    at: &Value,
) -> Result<Option<Kind>, AllocError>
    ensures { IfOk result (λ stop. stored_of (plain memory.new) stop ≡ ranges.written (layout_of layout.now) (plain memory.old) named bytes (map cell_of cells.now) (value_of at.now)) }
{
    match target(layout, memory, named, bytes, at) {
        Err(kind) => Ok(Some(kind)),
        Ok(base) => {
            write_at(alloc, layout, memory, base, cells, at)?;
            Ok(None)
        }
    }
}

/// Stores a scalar in the object that an initialiser names.
pub fn put(
    alloc: Global,
    layout: &Layout,
    memory: &mut Memory,
    scalar: Scalar,
    at: &Value,
    value: &Value,
) -> Result<Option<Kind>, AllocError>
    ensures { IfOk result (λ stop. stored_of (plain memory.new) stop ≡ ranges.put (layout_of layout.now) (plain memory.old) scalar (value_of at.now) (value_of value.now)) }
{
    let cells = cells_of(alloc, layout.machine, scalar, value)?;
    let bytes = size_of_scalar(scalar, layout.machine) as u64;
    write(alloc, layout, memory, true, bytes, cells.as_slice(), at)
}

/// Stores a scalar through the address, or answers why the store stops.
pub fn store(
    alloc: Global,
    layout: &Layout,
    memory: &mut Memory,
    scalar: Scalar,
    at: &Value,
    value: &Value,
) -> Result<Option<Kind>, AllocError>
    ensures { IfOk result (λ stop. stored_of (plain memory.new) stop ≡ memories.stored (layout_of layout.now) (plain memory.old) scalar (value_of at.now) (value_of value.now)) }
{
    let cells = cells_of(alloc, layout.machine, scalar, value)?;
    let bytes = size_of_scalar(scalar, layout.machine) as u64;
    match target(layout, memory, false, bytes, at) {
        Err(kind) => Ok(Some(kind)),
        Ok(base) => {
            write_at(alloc, layout, memory, base, cells.as_slice(), at)?;
            Ok(None)
        }
    }
}

/// Two ranges of so many bytes share some and aren't the same.
fn clash(bytes: u64, first: u128, second: u128) -> bool
    requires first { first ≤ 2 ^ 80 }
    requires second { second ≤ 2 ^ 80 }
    ensures { result ≡ ranges.clash bytes first second }
{
    let bytes = bytes as u128;
    !(first == second) && !(first + bytes <= second) && !(second + bytes <= first)
}

/// Two accesses of so many bytes share some and aren't the same.
fn overlaps(layout: &Layout, memory: &Memory, bytes: u64, to: &Value, source: &Value) -> bool
    ensures { result ≡ ranges.overlaps (layout_of layout.now) bytes (value_of to.now) (value_of source.now) (memories.reached (layout_of layout.now) (plain memory.now) bytes (value_of to.now)) (memories.reached (layout_of layout.now) (plain memory.now) bytes (value_of source.now)) }
{
    match (
        reached(layout, memory, bytes, to),
        reached(layout, memory, bytes, source),
    ) {
        (Some(base), Some(other)) => base == other
            && clash(
                bytes,
                offset_in(layout, base, to),
                offset_in(layout, other, source),
            ),
        (Some(_), None) => false,
        (None, _) => false,
    }
}

/// Copies so many bytes from one address to another, or answers why it stops; ranges that overlap have to be the same (C11 6.5.16.1p3).
pub fn copy(
    alloc: Global,
    layout: &Layout,
    memory: &mut Memory,
    named: bool,
    bytes: u64,
    to: &Value,
    source: &Value,
) -> Result<Option<Kind>, AllocError>
    ensures { IfOk result (λ stop. stored_of (plain memory.new) stop ≡ ranges.copied (layout_of layout.now) (plain memory.old) named bytes (value_of to.now) (value_of source.now)) }
{
    match read(alloc, layout, memory, bytes, source)? {
        Err(kind) => Ok(Some(kind)),
        Ok(cells) => {
            if overlaps(layout, memory, bytes, to, source) {
                match target(layout, memory, named, bytes, to) {
                    Err(kind) => Ok(Some(kind)),
                    Ok(_) => Ok(Some(Kind::Overlap)),
                }
            } else {
                write(alloc, layout, memory, named, bytes, cells.as_slice(), to)
            }
        }
    }
}

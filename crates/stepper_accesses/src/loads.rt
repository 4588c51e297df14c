//! Loads.

ghost use Rattle.std.specs.Prelude.{◌≡◌, ◌*◌, ◌≤◌, ◌^◌, ℕ, List, Result, map, IfOk};
ghost use Rattle.c_memory.specs.Memories as memories;
ghost use Rattle.c_effects.specs.Ranges as ranges;
ghost use Rattle.stepper_values.specs.Views.{value_of, cell_of, value_result_of, layout_of};
ghost use Rattle.stepper_memory.specs.Views.{plain};
ghost use Rattle.stepper_accesses.specs.Results.{cells_result_of};

use crate::reached::reached;
use c_base::kind::Kind;
use c_memory::scalar::Scalar;
use sqlite_items::Items;
use std::alloc::{AllocError, Global};
use stepper_memory::memory::Memory;
use stepper_values::layout::Layout;
use stepper_values::number::size_of_scalar;
use stepper_values::places::first_bit;
use stepper_values::value::{Cell, Value, value_in};

/// The bits of so many bytes behind an address in a base.
fn bits_at(
    alloc: Global,
    layout: &Layout,
    memory: &Memory,
    base: u32,
    bytes: u64,
    at: &Value,
) -> Result<Items<Cell>, AllocError>
    ensures { IfOk result (λ cells. map cell_of cells ≡ memories.cells_at (plain memory.now) base (8 * memories.offset_in (layout_of layout.now) base (value_of at.now)) (8 * bytes)) }
{
    let first = first_bit(layout, base, at);
    memory.read(alloc, base, first, 8 * bytes as u128)
}

/// What a load of a scalar type through the address gives, or why it stops (C11 6.5.3.2p4, 6.3.2.1p2).
pub fn loaded(
    alloc: Global,
    layout: &Layout,
    memory: &Memory,
    scalar: Scalar,
    at: &Value,
) -> Result<Result<Value, Kind>, AllocError>
    ensures { IfOk result (λ value. value_result_of value ≡ memories.loaded (layout_of layout.now) (plain memory.now) scalar (value_of at.now)) }
{
    let bytes = size_of_scalar(scalar, layout.machine) as u64;
    match reached(layout, memory, bytes, at) {
        None => Ok(Err(Kind::MemAccess)),
        Some(base) => {
            let cells = bits_at(alloc, layout, memory, base, bytes, at)?;
            value_in(alloc, layout.machine, scalar, cells.as_slice())
        }
    }
}

/// The bits of so many bytes behind the address, or why they can't be read (C11 6.2.6.1p4).
pub fn read(
    alloc: Global,
    layout: &Layout,
    memory: &Memory,
    bytes: u64,
    at: &Value,
) -> Result<Result<Items<Cell>, Kind>, AllocError>
    ensures { IfOk result (λ cells. cells_result_of cells ≡ ranges.read (layout_of layout.now) (plain memory.now) bytes (value_of at.now)) }
{
    match reached(layout, memory, bytes, at) {
        None => Ok(Err(Kind::MemAccess)),
        Some(base) => Ok(Ok(bits_at(alloc, layout, memory, base, bytes, at)?)),
    }
}

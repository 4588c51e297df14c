//! Places: addresses, and the bits from where a part of a value without a place begins.

ghost use Rattle.std.specs.Prelude.{◌≡◌, ◌≤◌, ◌*◌, ◌^◌, take, drop, map, IfOk};
ghost use Rattle.c_machine.specs.Parts as parts;
ghost use Rattle.c_simple_machine.specs.Evaluation.{loaded_at};
ghost use Rattle.stepper_values.specs.Views.{cell_of, value_of, held_of, held_result_of, value_result_of, layout_of};
ghost use Rattle.stepper_memory.specs.Views.{plain};
ghost use Rattle.stepper_accesses.specs.Results.{cells_result_of};

use c_base::kind::Kind;
use c_memory::scalar::Scalar;
use sqlite_items::Items;
use std::alloc::{AllocError, Global};
use stepper_accesses::loads::{loaded, read};
use stepper_memory::memory::Memory;
use stepper_values::layout::Layout;
use stepper_values::number::number_behind;
use stepper_values::pointers::{element_at, element_offset};
use stepper_values::value::{Cell, Held, Value, add_cells, back, front, part_value};

/// Held bits as a place.
pub fn place_of_cells(held: Held) -> Held
    ensures { held_of result ≡ parts.place_of_cells (held_of held) }
{
    match held {
        Held::Usable(value) => Held::Usable(value),
        Held::Unusable(kind) => Held::Unusable(kind),
        Held::Cells(cells) => Held::Part(cells),
        Held::Absent => Held::Absent,
        Held::Part(cells) => Held::Part(cells),
    }
}

fn copied(alloc: Global, cells: &[Cell]) -> Result<Items<Cell>, AllocError>
    ensures { IfOk result (λ copy. copy ≡ cells.now) }
{
    let mut copy = Items::new(alloc);
    add_cells(alloc, &mut copy, cells)?;
    Ok(copy)
}

/// The bits behind so many.
#[tactic(auto, using(stepper_values::proofs::Cells::map_drop))]
fn behind(alloc: Global, cells: &[Cell], count: u128) -> Result<Items<Cell>, AllocError>
    ensures { IfOk result (λ rest. map cell_of rest ≡ drop count (map cell_of cells.now)) }
{
    copied(alloc, back(cells, count))
}

/// So many of the bits.
#[tactic(auto, using(stepper_values::proofs::Cells::map_take))]
fn first(alloc: Global, cells: &[Cell], count: u128) -> Result<Items<Cell>, AllocError>
    ensures { IfOk result (λ part. map cell_of part ≡ take count (map cell_of cells.now)) }
{
    copied(alloc, front(cells, count))
}

/// The place so many bytes on.
pub fn place_behind(
    alloc: Global,
    layout: &Layout,
    bytes: u64,
    place: Held,
) -> Result<Held, AllocError>
    requires { bytes ≤ 2 ^ 62 }
    ensures { IfOk result (λ held. held_of held ≡ parts.place_behind (layout_of layout.now) bytes (held_of place)) }
{
    match place {
        Held::Usable(value) => {
            let number = number_behind(layout.machine, value.number, bytes);
            Ok(Held::Usable(Value {
                number,
                bases: value.bases,
            }))
        }
        Held::Part(cells) => {
            let rest = behind(alloc, cells.as_slice(), 8 * bytes as u128)?;
            Ok(Held::Part(rest))
        }
        Held::Unusable(kind) => Ok(Held::Unusable(kind)),
        Held::Cells(cells) => Ok(Held::Cells(cells)),
        Held::Absent => Ok(Held::Absent),
    }
}

/// What a load of a scalar type from the place gives, or why it stops.
pub fn loaded_from(
    alloc: Global,
    layout: &Layout,
    memory: &Memory,
    scalar: Scalar,
    place: &Held,
) -> Result<Result<Value, Kind>, AllocError>
    ensures { IfOk result (λ value. value_result_of value ≡ loaded_at (layout_of layout.now) (plain memory.now) scalar (held_of place.now)) }
{
    match place {
        Held::Usable(at) => loaded(alloc, layout, memory, scalar, at),
        Held::Part(cells) => part_value(alloc, layout.machine, scalar, cells.as_slice()),
        Held::Unusable(kind) => Ok(Err(*kind)),
        Held::Cells(_) => Ok(Err(Kind::Initialization)),
        Held::Absent => Ok(Err(Kind::Initialization)),
    }
}

/// The bits of a struct or union of so many bytes at the place, or why they can't be read.
pub fn cells_from(
    alloc: Global,
    layout: &Layout,
    memory: &Memory,
    bytes: u64,
    place: &Held,
) -> Result<Result<Items<Cell>, Kind>, AllocError>
    ensures { IfOk result (λ cells. cells_result_of cells ≡ parts.cells_in (layout_of layout.now) (plain memory.now) bytes (held_of place.now)) }
{
    match place {
        Held::Usable(at) => read(alloc, layout, memory, bytes, at),
        Held::Part(cells) => Ok(Ok(first(alloc, cells.as_slice(), 8 * bytes as u128)?)),
        Held::Unusable(kind) => Ok(Err(*kind)),
        Held::Cells(_) => Ok(Err(Kind::Initialization)),
        Held::Absent => Ok(Err(Kind::Initialization)),
    }
}

/// The element with the index of an array of `count` elements at the place, or why there is none.
pub fn element_in(
    alloc: Global,
    layout: &Layout,
    bytes: u64,
    count: u64,
    end: bool,
    place: Held,
    index: Value,
) -> Result<Result<Held, Kind>, AllocError>
    requires { bytes ≤ 2 ^ 60 }
    ensures { IfOk result (λ held. held_result_of held ≡ parts.element_in (layout_of layout.now) bytes count end (held_of place) (value_of index)) }
{
    match place {
        Held::Usable(array) => {
            match element_at(layout.machine, bytes, count, end, array, index)? {
                Ok(at) => Ok(Ok(Held::Usable(at))),
                Err(kind) => Ok(Err(kind)),
            }
        }
        Held::Part(cells) => {
            match element_offset(bytes, count, end, index.number) {
                Some(offset) => Ok(Ok(Held::Part(behind(alloc, cells.as_slice(), offset)?))),
                None => Ok(Err(Kind::IndexBound)),
            }
        }
        Held::Unusable(kind) => Ok(Err(kind)),
        Held::Cells(_) => Ok(Err(Kind::Initialization)),
        Held::Absent => Ok(Err(Kind::Initialization)),
    }
}

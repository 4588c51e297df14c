//! The memory before a run: objects with static storage duration are 0 where no initialiser says otherwise (C11 6.7.9p10).

ghost use Rattle.std.specs.Prelude.{◌≡◌, ◌*◌, map, replicate, false, IfOk, OnOk};
ghost use Rattle.c_machine.specs.Machine as machine;
ghost use Rattle.c_memory.specs.Values as values;
ghost use Rattle.c_program.specs.Syntax as syntax;
ghost use Rattle.c_program.specs.Views.{program_of};
ghost use Rattle.stepper_memory.specs.Views.{plain};
ghost use Rattle.stepper_values.specs.Views.{cell_of, layout_of};
ghost use Rattle.stepper_start.specs.Starting.{zeroed, with_image, with_first};

use c_program::base::BaseSort;
use c_program::program::{Base, TypedProgram};
use sqlite_items::Items;
use std::alloc::{AllocError, Global};
use stepper_accesses::scopes::paste;
use stepper_memory::memory::Memory;
use stepper_values::layout::Layout;
use stepper_values::value::Cell;

fn is_static(sort: BaseSort) -> bool
    ensures { result ≡ syntax.is_static sort }
{
    match sort {
        BaseSort::Static | BaseSort::Text | BaseSort::Context => true,
        BaseSort::Local | BaseSort::Formal | BaseSort::Func => false,
    }
}

fn zero_cell(alloc: Global) -> Cell
    ensures { cell_of result ≡ values.Bit false values.nowhere 0 }
{
    Cell::Bit(false, Items::new(alloc), 0)
}

fn zeros(alloc: Global, bytes: u64) -> Result<Items<Cell>, AllocError>
    ensures { IfOk result (λ cells. map cell_of cells ≡ replicate (8 * bytes) (values.Bit false values.nowhere 0)) }
{
    let mut cells = Items::new(alloc);
    for _ in 0..8 * bytes as u128 {
        cells.push(zero_cell(alloc))?;
    }
    Ok(cells)
}

/// An object that lives as long as the run is 0.
fn write_zeros(alloc: Global, n: u32, base: &Base, memory: &mut Memory) -> Result<(), AllocError>
    ensures { OnOk result (plain memory.new ≡ zeroed n base.now (plain memory.old)) }
{
    if is_static(base.sort) {
        let cells = zeros(alloc, base.size)?;
        memory.place(alloc, n, cells.as_slice())?;
    }
    Ok(())
}

/// The image of an initialiser is written where there is one.
fn write_image(
    alloc: Global,
    layout: &Layout,
    n: u32,
    base: &Base,
    memory: &mut Memory,
) -> Result<(), AllocError>
    ensures { OnOk result (plain memory.new ≡ with_image (layout_of layout.now) n base.now.image (plain memory.old)) }
{
    match &base.image {
        None => Ok(()),
        Some(image) => paste(alloc, layout, memory, n, image.as_slice()),
    }
}

/// Writes what the base holds before the run.
fn write_first(
    alloc: Global,
    layout: &Layout,
    n: u32,
    base: &Base,
    memory: &mut Memory,
) -> Result<(), AllocError>
    ensures { OnOk result (plain memory.new ≡ with_first (layout_of layout.now) n base.now (plain memory.old)) }
{
    write_zeros(alloc, n, base, memory)?;
    write_image(alloc, layout, n, base, memory)
}

/// The memory before a run of the program.
pub fn first_memory(
    alloc: Global,
    layout: &Layout,
    program: &TypedProgram,
) -> Result<Memory, AllocError>
    ensures { IfOk result (λ memory. plain memory ≡ machine.initial_memory (program_of program.now) (layout_of layout.now)) }
{
    if program.bases.len() > u32::MAX as usize {
        return Err(AllocError);
    }
    let mut memory = Memory::new(alloc);
    for (n, base) in program.bases.as_slice().iter().enumerate() {
        write_first(alloc, layout, n as u32, base, &mut memory)?;
    }
    Ok(memory)
}

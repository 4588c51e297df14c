//! Births, arguments and initial contents.

ghost use Rattle.std.specs.Prelude.{◌≡◌, ◌≤◌, ◌*◌, ◌^◌, [], ◌∷◌, map, Some, IfOk, OnOk};
ghost use Rattle.c_memory.specs.Memories as memories;
ghost use Rattle.c_memory.specs.Values as values;
ghost use Rattle.c_effects.specs.Images as images;
ghost use Rattle.c_effects.specs.Passing as passing;
ghost use Rattle.stepper_values.specs.Views.{cell_of, layout_of};
ghost use Rattle.stepper_memory.specs.Views.{plain};
ghost use Rattle.stepper_accesses.specs.Arguments.{argument_of};

use c_typed_stmt::init::ImageItem;
use sqlite_items::{Items, at};
use std::alloc::{AllocError, Global};
use stepper_memory::memory::Memory;
use stepper_values::layout::Layout;
use stepper_values::places::object_of;
use stepper_values::value::{Cell, Value, add_cells, cells_of_bits, cells_of_wide};

/// The objects are born, not written yet (C11 6.2.4p6).
pub fn bear(
    alloc: Global,
    layout: &Layout,
    memory: &mut Memory,
    bases: &[u32],
) -> Result<(), AllocError>
    ensures { OnOk result (plain memory.new ≡ memories.born (layout_of layout.now) bases.now (plain memory.old)) }
{
    for base in bases {
        memory.bear(alloc, *base, object_of(layout, *base).size)?;
    }
    Ok(())
}

/// What a call hands to a formal: a scalar, or the bits of a struct or union.
#[derive(Drop)]
pub enum Argument {
    Whole(Value),
    Parts(Items<Cell>),
}

/// An object that holds the argument alone. An object of more than 8 bytes that is to hold a scalar is answered as want of memory.
fn pass_one(
    alloc: Global,
    layout: &Layout,
    memory: &mut Memory,
    base: u32,
    argument: &Argument,
) -> Result<(), AllocError>
    ensures { OnOk result (plain memory.new ≡ memories.with_base (plain memory.old) base (Some (passing.argument_cells (layout_of layout.now) base (argument_of argument.now)))) }
{
    match argument {
        Argument::Parts(cells) => memory.place(alloc, base, cells.as_slice()),
        Argument::Whole(value) => {
            let bytes = object_of(layout, base).size;
            if bytes > 8 {
                return Err(AllocError);
            }
            let cells = cells_of_bits(alloc, layout.machine, 8 * bytes, value)?;
            memory.place(alloc, base, cells.as_slice())
        }
    }
}

/// The formals hold the arguments, as many as there are (C11 6.5.2.2p4).
pub fn pass(
    alloc: Global,
    layout: &Layout,
    memory: &mut Memory,
    formals: &[u32],
    arguments: &[Argument],
) -> Result<(), AllocError>
    ensures { OnOk result (plain memory.new ≡ passing.passed (layout_of layout.now) formals.now (map argument_of arguments.now) (plain memory.old)) }
{
    for (n, base) in formals.iter().enumerate() {
        match at(arguments, n) {
            None => return Ok(()),
            Some(argument) => pass_one(alloc, layout, memory, *base, argument)?,
        }
    }
    Ok(())
}

/// The bits of one element of an initial content. An element of more than 64 bits, or an address beyond 2^127, is answered as want of memory.
fn element_bits(alloc: Global, layout: &Layout, item: &ImageItem) -> Result<Items<Cell>, AllocError>
    ensures { IfOk result (λ cells. map cell_of cells ≡ values.cells_of layout.now.machine item.now.bits (images.item_value (layout_of layout.now) item.now.number item.now.base)) }
{
    if item.bits > 64 {
        return Err(AllocError);
    }
    match item.base {
        None => cells_of_wide(alloc, layout.machine, item.bits, item.number, &[]),
        Some(base) => {
            let address = object_of(layout, base.0).address as i128;
            match address.checked_add(item.number) {
                Some(number) => cells_of_wide(alloc, layout.machine, item.bits, number, &[base.0]),
                None => Err(AllocError),
            }
        }
    }
}

/// The bits of an item: equal elements one behind the other.
fn item_bits(alloc: Global, layout: &Layout, item: &ImageItem) -> Result<Items<Cell>, AllocError>
    ensures { IfOk result (λ cells. map cell_of cells ≡ images.item_cells (layout_of layout.now) item.now) }
{
    let element = element_bits(alloc, layout, item)?;
    let mut cells = Items::new(alloc);
    for _ in 0..item.count {
        add_cells(alloc, &mut cells, element.as_slice())?;
    }
    Ok(cells)
}

/// Writes one item of an initial content into the base, where it lives.
fn paste_one(
    alloc: Global,
    layout: &Layout,
    memory: &mut Memory,
    base: u32,
    item: &ImageItem,
) -> Result<(), AllocError>
    ensures { OnOk result (plain memory.new ≡ images.pasted (layout_of layout.now) base (item.now ∷ []) (plain memory.old)) }
{
    if !memory.lives(base) {
        return Ok(());
    }
    let cells = item_bits(alloc, layout, item)?;
    memory.write(alloc, base, item.low as u128, cells.as_slice())
}

/// Writes an initial content into the base, and no other bit (C11 6.7.9).
pub fn paste(
    alloc: Global,
    layout: &Layout,
    memory: &mut Memory,
    base: u32,
    image: &[ImageItem],
) -> Result<(), AllocError>
    ensures { OnOk result (plain memory.new ≡ images.pasted (layout_of layout.now) base image.now (plain memory.old)) }
{
    for n in 0..image.len() {
        match at(image, n) {
            None => return Ok(()),
            Some(item) => paste_one(alloc, layout, memory, base, item)?,
        }
    }
    Ok(())
}

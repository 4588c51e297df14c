//! Structs and unions, bit by bit (C11 6.2.6.1, 6.5.16.1).

ghost use Rattle.std.specs.Prelude.{◌≡◌, ◌≤◌, ◌^◌, map, Ok, IfOk};
ghost use Rattle.c_machine.specs.Machine as machine;
ghost use Rattle.c_effects.specs.Ranges as ranges;
ghost use Rattle.c_program.specs.Views.{program_of};
ghost use Rattle.stepper_shapes.specs.Views.{implied_of};
ghost use Rattle.stepper_values.specs.Views.{cell_of, value_of, held_of, layout_of};
ghost use Rattle.stepper_work.specs.Effects.{HasEffect, Leads};

use crate::hold::hold_cells;
use c_base::kind::Kind;
use sqlite_items::Items;
use std::alloc::AllocError;
use stepper_accesses::loads::read;
use stepper_accesses::stores;
use stepper_expressions::stepper::Stepper;
use stepper_held::places::cells_from;
use stepper_shapes::operand::ImpliedType;
use stepper_types::sizes::implied_size;
use stepper_values::value::{Cell, Held, Value, used};
use stepper_work::work::{Effect, State};

/// Loads the bits of a struct or union from the held place.
pub fn fetch_cells<'p>(
    stepper: &Stepper<'p>,
    t: ImpliedType<'p>,
    state: &mut State<'p>,
) -> Result<Effect, AllocError>
    ensures { IfOk result (HasEffect (program_of stepper.now.program.now) (layout_of stepper.now.layout) (machine.FetchCells (implied_of t.entry)) state.old state.new) }
{
    let Some(held) = state.held.pop() else {
        return Ok(Effect::Stuck);
    };
    let layout = &stepper.layout;
    let bytes = implied_size(&stepper.program.comps, layout.machine, t)?;
    let cells = cells_from(stepper.alloc, layout, &state.memory, bytes, &held)?;
    hold_cells(state, cells)
}

/// Writes bits of so many bytes at the address, and holds them.
fn write_cells<'p>(
    stepper: &Stepper<'p>,
    named: bool,
    bytes: u64,
    at: &Value,
    cells: Items<Cell>,
    state: &mut State<'p>,
) -> Result<Effect, AllocError>
    ensures { IfOk result (Leads (λ s. machine.with_change (machine.Cells (map cell_of cells)) s (ranges.written (layout_of stepper.now.layout) s.memory named bytes (map cell_of cells) (value_of at.now))) state.old state.new) }
{
    let layout = &stepper.layout;
    let memory = &mut state.memory;
    match stores::write(
        stepper.alloc,
        layout,
        memory,
        named,
        bytes,
        cells.as_slice(),
        at,
    )? {
        None => {
            state.held.push(Held::Cells(cells))?;
            Ok(Effect::GoesOn)
        }
        Some(kind) => Ok(Effect::StopsHere(kind)),
    }
}

fn write_held<'p>(
    stepper: &Stepper<'p>,
    named: bool,
    bytes: u64,
    at: &Value,
    held: Held,
    state: &mut State<'p>,
) -> Result<Effect, AllocError>
    ensures { IfOk result (Leads (λ s. machine.with_cells (layout_of stepper.now.layout) named bytes s (Ok (value_of at.now)) (held_of held)) state.old state.new) }
{
    match held {
        Held::Cells(cells) => write_cells(stepper, named, bytes, at, cells, state),
        Held::Usable(_) => Ok(Effect::StopsHere(Kind::Initialization)),
        Held::Unusable(kind) => Ok(Effect::StopsHere(kind)),
        Held::Absent => Ok(Effect::StopsHere(Kind::Initialization)),
        Held::Part(_) => Ok(Effect::StopsHere(Kind::Initialization)),
    }
}

/// Stores held bits at the address held below them.
pub fn store_cells<'p>(
    stepper: &Stepper<'p>,
    named: bool,
    t: ImpliedType<'p>,
    state: &mut State<'p>,
) -> Result<Effect, AllocError>
    ensures { IfOk result (HasEffect (program_of stepper.now.program.now) (layout_of stepper.now.layout) (machine.StoreCells named (implied_of t.entry)) state.old state.new) }
{
    let Some(held) = state.held.pop() else {
        return Ok(Effect::Stuck);
    };
    let Some(at) = state.held.pop() else {
        return Ok(Effect::Stuck);
    };
    match used(at) {
        Err(kind) => Ok(Effect::StopsHere(kind)),
        Ok(at) => {
            let machine = stepper.layout.machine;
            let bytes = implied_size(&stepper.program.comps, machine, t)?;
            write_held(stepper, named, bytes, &at, held, state)
        }
    }
}

/// Copies so many bytes, and holds the bits that were read.
fn copy_bytes<'p>(
    stepper: &Stepper<'p>,
    named: bool,
    bytes: u64,
    to: &Value,
    source: &Value,
    state: &mut State<'p>,
) -> Result<Effect, AllocError>
    ensures { IfOk result (Leads (λ s. machine.with_copy (layout_of stepper.now.layout) named bytes s (Ok (value_of to.now)) (Ok (value_of source.now))) state.old state.new) }
{
    let layout = &stepper.layout;
    match read(stepper.alloc, layout, &state.memory, bytes, source)? {
        Err(kind) => Ok(Effect::StopsHere(kind)),
        Ok(cells) => {
            let memory = &mut state.memory;
            match stores::copy(stepper.alloc, layout, memory, named, bytes, to, source)? {
                None => {
                    state.held.push(Held::Cells(cells))?;
                    Ok(Effect::GoesOn)
                }
                Some(kind) => Ok(Effect::StopsHere(kind)),
            }
        }
    }
}

/// Copies a struct or union to the address held below from the address held last.
pub fn copy_cells<'p>(
    stepper: &Stepper<'p>,
    named: bool,
    t: ImpliedType<'p>,
    state: &mut State<'p>,
) -> Result<Effect, AllocError>
    ensures { IfOk result (HasEffect (program_of stepper.now.program.now) (layout_of stepper.now.layout) (machine.CopyCells named (implied_of t.entry)) state.old state.new) }
{
    let Some(source) = state.held.pop() else {
        return Ok(Effect::Stuck);
    };
    let Some(to) = state.held.pop() else {
        return Ok(Effect::Stuck);
    };
    match used(to) {
        Err(kind) => Ok(Effect::StopsHere(kind)),
        Ok(to) => {
            match used(source) {
                Err(kind) => Ok(Effect::StopsHere(kind)),
                Ok(source) => {
                    let machine = stepper.layout.machine;
                    let bytes = implied_size(&stepper.program.comps, machine, t)?;
                    copy_bytes(stepper, named, bytes, &to, &source, state)
                }
            }
        }
    }
}

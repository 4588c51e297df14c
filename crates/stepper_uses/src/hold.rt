//! What is held behind a step, or the kind with which it stops.

ghost use Rattle.std.specs.Prelude.{◌≡◌, IfOk};
ghost use Rattle.c_machine.specs.Machine as machine;
ghost use Rattle.stepper_accesses.specs.Results.{cells_result_of};
ghost use Rattle.stepper_values.specs.Views.{value_result_of, held_of, held_result_of};
ghost use Rattle.stepper_work.specs.Effects.{Leads};

use c_base::kind::Kind;
use sqlite_items::Items;
use std::alloc::AllocError;
use stepper_values::value::{Cell, Held, Value};
use stepper_work::work::{Effect, State};

/// Holds a value, or stops with its kind.
pub fn hold(state: &mut State<'_>, value: Result<Value, Kind>) -> Result<Effect, AllocError>
    ensures { IfOk result (Leads (λ s. machine.with_value s (value_result_of value)) state.old state.new) }
{
    match value {
        Ok(value) => {
            state.held.push(Held::Usable(value))?;
            Ok(Effect::GoesOn)
        }
        Err(kind) => Ok(Effect::StopsHere(kind)),
    }
}

/// Holds what may be held, or stops with its kind.
pub fn hold_any(state: &mut State<'_>, held: Result<Held, Kind>) -> Result<Effect, AllocError>
    ensures { IfOk result (Leads (λ s. machine.with_held s (held_result_of held)) state.old state.new) }
{
    match held {
        Ok(held) => {
            state.held.push(held)?;
            Ok(Effect::GoesOn)
        }
        Err(kind) => Ok(Effect::StopsHere(kind)),
    }
}

/// Holds the bits of a struct or union, or stops with their kind.
pub fn hold_cells(
    state: &mut State<'_>,
    cells: Result<Items<Cell>, Kind>,
) -> Result<Effect, AllocError>
    ensures { IfOk result (Leads (λ s. machine.with_cells_held s (cells_result_of cells)) state.old state.new) }
{
    match cells {
        Ok(cells) => {
            state.held.push(Held::Cells(cells))?;
            Ok(Effect::GoesOn)
        }
        Err(kind) => Ok(Effect::StopsHere(kind)),
    }
}

//! Where runs begin.

ghost use Rattle.std.specs.Prelude.{◌≡◌, Some, MatchOption, IfOk};
ghost use Rattle.c_machine.specs.Machine as machine;
ghost use Rattle.c_program.specs.Packing.{HasRoom};
ghost use Rattle.c_program.specs.Syntax as syntax;
ghost use Rattle.c_program.specs.Views.{program_of};
ghost use Rattle.stepper_calls.specs.Functions.{found_of};
ghost use Rattle.stepper_values.specs.Views.{layout_of};
ghost use Rattle.stepper.specs.Steps.{state_option_of};

use c_program::program::TypedProgram;
use std::alloc::{AllocError, Global};
use stepper_accesses::scopes::bear;
use stepper_calls::calls::push_body;
use stepper_calls::functions::{Defined, find_function};
use stepper_expressions::stepper::Stepper;
use stepper_flow::blocks::both_numbers;
use stepper_held::stack::Stack;
use stepper_start::layouts::packed;
use stepper_start::memories::first_memory;
use stepper_work::work::State;

/// A stepper in a layout of the program, if its bases have room.
pub fn stepper_of<'p>(
    alloc: Global,
    program: &'p TypedProgram,
) -> Result<Option<Stepper<'p>>, AllocError>
    ensures { IfOk result (λ made. MatchOption made (HasRoom (program_of program.now) → ⊥) (λ stepper. syntax.IsLayout (program_of program.now) (layout_of stepper.layout) × (stepper.program.now ≡ program.now))) }
{
    match packed(alloc, program)? {
        None => Ok(None),
        Some(layout) => Ok(Some(Stepper {
            alloc,
            layout,
            program,
        })),
    }
}

/// The state in which a run begins that enters the function first.
fn begin<'p>(stepper: &Stepper<'p>, d: Defined<'p>) -> Result<State<'p>, AllocError>
    ensures { IfOk result (λ state. state_option_of (Some state) ≡ machine.entered (program_of stepper.now.program.now) (layout_of stepper.now.layout) (found_of stepper.now.program.now (Some d.entry))) }
{
    let mut control = Stack::new(stepper.alloc);
    push_body(stepper.program, &mut control, d, None)?;
    let mut memory = first_memory(stepper.alloc, &stepper.layout, stepper.program)?;
    let formals = d.function.formals.as_slice();
    let objects = both_numbers(stepper.alloc, formals, d.body.locals.as_slice())?;
    bear(
        stepper.alloc,
        &stepper.layout,
        &mut memory,
        objects.as_slice(),
    )?;
    Ok(State {
        control,
        held: Stack::new(stepper.alloc),
        memory,
    })
}

/// The state in which the program's runs begin, if the function that is entered first has a body.
pub fn start<'p>(stepper: &Stepper<'p>) -> Result<Option<State<'p>>, AllocError>
    ensures { IfOk result (λ state. state_option_of state ≡ machine.initial (program_of stepper.now.program.now) (layout_of stepper.now.layout)) }
{
    match find_function(stepper.program, stepper.program.entry.0) {
        None => Ok(None),
        Some(d) => Ok(Some(begin(stepper, d)?)),
    }
}

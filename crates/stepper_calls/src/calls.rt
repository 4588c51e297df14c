//! Calls (C11 6.5.2.2).

ghost use Rattle.std.specs.Prelude.{◌≡◌, Some, MatchOption, map, IfOk, OnOk};
ghost use Rattle.c_machine.specs.Machine as machine;
ghost use Rattle.c_machine.specs.Parts as parts;
ghost use Rattle.c_program.specs.Views.{program_of};
ghost use Rattle.stepper_accesses.specs.Arguments.{argument_of};
ghost use Rattle.stepper_shapes.specs.Views.{implied_of};
ghost use Rattle.stepper_values.specs.Views.{held_of, layout_of};
ghost use Rattle.stepper_work.specs.Effects.{HasEffect, Answers};
ghost use Rattle.stepper_work.specs.Views.{control_of, state_of};
ghost use Rattle.stepper_calls.specs.Functions.{found_of};

use crate::arguments::{take_call, use_arguments};
use crate::functions::{Defined, find_function, result_type};
use c_base::kind::Kind;
use c_program::program::TypedProgram;
use sqlite_items::Items;
use std::alloc::AllocError;
use stepper_accesses::scopes::{Argument, bear, pass};
use stepper_expressions::stepper::Stepper;
use stepper_flow::blocks::{both_numbers, numbers};
use stepper_held::stack::Stack;
use stepper_jumps::queues::queue_from;
use stepper_shapes::operand::ImpliedType;
use stepper_types::pointers::called_function;
use stepper_values::value::{Held, used};
use stepper_work::work::{Effect, State, Work};

/// The statements of a function's body, its closing brace, the end of its objects, and its frame.
pub fn push_body<'p>(
    program: &'p TypedProgram,
    control: &mut Stack<Work<'p>>,
    d: Defined<'p>,
    site: Option<u32>,
) -> Result<(), AllocError>
    ensures { OnOk result (MatchOption (found_of program.now (Some d.entry)) ⊥ (λ f. control_of control.new ≡ machine.body_of f site (control_of control.old))) }
{
    let base = d.function.base.0;
    let returned = result_type(program, base)?;
    control.push(Work::Frame(base, site))?;
    control.push(Work::CloseFunction(&d.function.formals, &d.body.locals))?;
    control.push(Work::Brace(d.function.end.0, returned))?;
    control.push(Work::Body(&d.body.stmts))?;
    queue_from(control, &d.body.stmts, 0)
}

/// The objects of the function are born, and its formals hold the arguments.
fn enter_function<'p>(
    stepper: &Stepper<'p>,
    site: u32,
    d: Defined<'p>,
    arguments: &[Argument],
    state: &mut State<'p>,
) -> Result<Effect, AllocError>
    ensures { IfOk result (Answers (machine.EntersFunction (layout_of stepper.now.layout) site (map argument_of arguments.now) (state_of state.old) (found_of stepper.now.program.now (Some d.entry))) (state_of state.new)) }
{
    push_body(stepper.program, &mut state.control, d, Some(site))?;
    let formals = d.function.formals.as_slice();
    let objects = both_numbers(stepper.alloc, formals, d.body.locals.as_slice())?;
    bear(
        stepper.alloc,
        &stepper.layout,
        &mut state.memory,
        objects.as_slice(),
    )?;
    let formals = numbers(stepper.alloc, formals)?;
    let memory = &mut state.memory;
    pass(
        stepper.alloc,
        &stepper.layout,
        memory,
        formals.as_slice(),
        arguments,
    )?;
    Ok(Effect::GoesOn)
}

fn enter_base<'p>(
    stepper: &Stepper<'p>,
    site: u32,
    base: Result<u32, Kind>,
    arguments: Items<Argument>,
    state: &mut State<'p>,
) -> Result<Effect, AllocError>
    ensures { IfOk result (Answers (machine.EntersBase (program_of stepper.now.program.now) (layout_of stepper.now.layout) site (map argument_of arguments) (state_of state.old) base) (state_of state.new)) }
{
    match base {
        Err(kind) => Ok(Effect::StopsHere(kind)),
        Ok(base) => {
            match find_function(stepper.program, base) {
                None => Ok(Effect::Stuck),
                Some(d) => enter_function(stepper, site, d, arguments.as_slice(), state),
            }
        }
    }
}

/// The function's address is used first, and then the arguments in order.
fn enter_with<'p>(
    stepper: &Stepper<'p>,
    site: u32,
    t: ImpliedType<'p>,
    f: Held,
    arguments: Stack<Held>,
    state: &mut State<'p>,
) -> Result<Effect, AllocError>
    ensures { IfOk result (Answers (machine.EntersWith (program_of stepper.now.program.now) (layout_of stepper.now.layout) site (implied_of t.entry) (state_of state.old) (machine.used (held_of f)) (parts.used_arguments (map held_of arguments))) (state_of state.new)) }
{
    match used(f) {
        Err(kind) => Ok(Effect::StopsHere(kind)),
        Ok(v) => {
            match use_arguments(stepper.alloc, arguments)? {
                Err(kind) => Ok(Effect::StopsHere(kind)),
                Ok(arguments) => {
                    let base = called_function(stepper.program, &stepper.layout, t, &v);
                    enter_base(stepper, site, base, arguments, state)
                }
            }
        }
    }
}

/// A call at a site of the function whose address is held below so many arguments.
pub fn enter<'p>(
    stepper: &Stepper<'p>,
    site: u32,
    t: ImpliedType<'p>,
    count: usize,
    state: &mut State<'p>,
) -> Result<Effect, AllocError>
    ensures { IfOk result (HasEffect (program_of stepper.now.program.now) (layout_of stepper.now.layout) (machine.Enter site (implied_of t.entry) count) state.old state.new) }
{
    let mut arguments = Stack::new(stepper.alloc);
    match take_call(&mut state.held, count, &mut arguments)? {
        None => Ok(Effect::Stuck),
        Some(f) => enter_with(stepper, site, t, f, arguments, state),
    }
}

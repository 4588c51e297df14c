//! `goto`, `break`, `continue` and `switch` (C11 6.8.4.2, 6.8.6).

ghost use Rattle.std.specs.Prelude.{◌≡◌, IfOk};
ghost use Rattle.c_machine.specs.Machine as machine;
ghost use Rattle.c_program.specs.Syntax.{Goto, Break, Continue};
ghost use Rattle.c_program.specs.Views.{program_of};
ghost use Rattle.stepper_values.specs.Views.{layout_of};
ghost use Rattle.stepper_work.specs.Effects.{HasEffect};

use c_base::name::Name;
use sqlite_items::Items;
use std::alloc::AllocError;
use stepper_exits::exits::{break_out, go_on};
use stepper_expressions::stepper::Stepper;
use stepper_jumps::gotos::jump_to;
use stepper_work::work::{Effect, State};

pub fn go_to<'p>(
    stepper: &Stepper<'p>,
    id: u32,
    name: &Name,
    state: &mut State<'p>,
) -> Result<Effect, AllocError>
    ensures { IfOk result (HasEffect (program_of stepper.now.program.now) (layout_of stepper.now.layout) (machine.Do (Goto id name.now)) state.old state.new) }
{
    let mut dying = Items::new(stepper.alloc);
    if !jump_to(&mut dying, &mut state.control, name)? {
        return Ok(Effect::Stuck);
    }
    state.memory.kill(dying.as_slice())?;
    Ok(Effect::GoesOn)
}

pub fn break_off<'p>(
    stepper: &Stepper<'p>,
    id: u32,
    state: &mut State<'p>,
) -> Result<Effect, AllocError>
    ensures { IfOk result (HasEffect (program_of stepper.now.program.now) (layout_of stepper.now.layout) (machine.Do (Break id)) state.old state.new) }
{
    let mut dying = Items::new(stepper.alloc);
    if !break_out(&mut dying, &mut state.control)? {
        return Ok(Effect::Stuck);
    }
    state.memory.kill(dying.as_slice())?;
    Ok(Effect::GoesOn)
}

pub fn continue_on<'p>(
    stepper: &Stepper<'p>,
    id: u32,
    state: &mut State<'p>,
) -> Result<Effect, AllocError>
    ensures { IfOk result (HasEffect (program_of stepper.now.program.now) (layout_of stepper.now.layout) (machine.Do (Continue id)) state.old state.new) }
{
    let mut dying = Items::new(stepper.alloc);
    if !go_on(&mut dying, &mut state.control)? {
        return Ok(Effect::Stuck);
    }
    state.memory.kill(dying.as_slice())?;
    Ok(Effect::GoesOn)
}

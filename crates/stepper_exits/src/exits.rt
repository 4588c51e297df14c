//! The ways out of functions, loops and switches.

ghost use Rattle.std.specs.Prelude.{◌≡◌, ◌++◌, map, IfOk, OnOk};
ghost use Rattle.c_machine.specs.Jumps as jumps;
ghost use Rattle.c_machine.specs.Machine as machine;
ghost use Rattle.c_program.specs.Views.{number_of};
ghost use Rattle.stepper_work.specs.Views.{control_of};
ghost use Rattle.stepper_exits.specs.Ways.{left_of, jump_of};

use crate::marks::{Left, Mark, mark_of};
use c_base::number::BaseId;
use sqlite_items::Items;
use std::alloc::AllocError;
use stepper_held::stack::Stack;
use stepper_work::work::Work;

/// Adds the numbers of bases to others.
pub fn add_numbers(out: &mut Items<u32>, bases: &[BaseId]) -> Result<(), AllocError>
    ensures { OnOk result (out.new ≡ out.old ++ map number_of bases.now) }
{
    for base in bases {
        out.push(base.0)?;
    }
    Ok(())
}

pub fn add_both(
    out: &mut Items<u32>,
    formals: &[BaseId],
    locals: &[BaseId],
) -> Result<(), AllocError>
    ensures { OnOk result (out.new ≡ out.old ++ (map number_of formals.now ++ map number_of locals.now)) }
{
    add_numbers(out, formals)?;
    add_numbers(out, locals)
}

/// Leaves the innermost function in progress, and adds the objects of its scopes to those that die.
#[tactic(auto, using(crate::proofs::Passing::exit_bodily, crate::proofs::Passing::exit_looping, crate::proofs::Passing::exit_switching, crate::proofs::Passing::exit_other))]
pub fn leave_function(
    dying: &mut Items<u32>,
    control: &mut Stack<Work<'_>>,
) -> Result<Option<Left>, AllocError>
    ensures { IfOk result (λ left. machine.exit_of dying.old (control_of control.old) ≡ left_of dying.new (control_of control.new) left) }
{
    while let Some(work) = control.pop() {
        match mark_of(work) {
            Mark::Frame(function, site) => return Ok(Some(Left { function, site })),
            Mark::Close(locals, _) => add_numbers(dying, locals.as_slice())?,
            Mark::CloseFunction(formals, locals) => {
                add_both(dying, formals.as_slice(), locals.as_slice())?;
            }
            Mark::Body(_) | Mark::Loop | Mark::Switched | Mark::Other => {}
        }
    }
    Ok(None)
}

#[tactic(auto, using(crate::proofs::Passing::behind_looping, crate::proofs::Passing::behind_switching, crate::proofs::Passing::behind_other))]
/// Goes behind the innermost loop or switch, where there is one, and adds the objects of the scopes that are left to those that die.
pub fn break_out(dying: &mut Items<u32>, control: &mut Stack<Work<'_>>) -> Result<bool, AllocError>
    ensures { IfOk result (λ found. jumps.jump_behind dying.old (control_of control.old) ≡ jump_of dying.new (control_of control.new) found) }
{
    while let Some(work) = control.pop() {
        match mark_of(work) {
            Mark::Loop | Mark::Switched => return Ok(true),
            Mark::Frame(_, _) => return Ok(false),
            Mark::Close(locals, _) => add_numbers(dying, locals.as_slice())?,
            Mark::CloseFunction(formals, locals) => {
                add_both(dying, formals.as_slice(), locals.as_slice())?;
            }
            Mark::Body(_) | Mark::Other => {}
        }
    }
    Ok(false)
}

#[tactic(auto, using(crate::proofs::Passing::on_looping, crate::proofs::Passing::on_switching, crate::proofs::Passing::on_other))]
/// Goes to the end of the body of the innermost loop, where there is one.
pub fn go_on(dying: &mut Items<u32>, control: &mut Stack<Work<'_>>) -> Result<bool, AllocError>
    ensures { IfOk result (λ found. jumps.jump_on dying.old (control_of control.old) ≡ jump_of dying.new (control_of control.new) found) }
{
    while let Some(work) = control.pop() {
        match mark_of(work) {
            Mark::Loop => {
                control.push(work)?;
                return Ok(true);
            }
            Mark::Frame(_, _) => return Ok(false),
            Mark::Close(locals, _) => add_numbers(dying, locals.as_slice())?,
            Mark::CloseFunction(formals, locals) => {
                add_both(dying, formals.as_slice(), locals.as_slice())?;
            }
            Mark::Body(_) | Mark::Switched | Mark::Other => {}
        }
    }
    Ok(false)
}

//! `goto` (C11 6.8.6.1).

ghost use Rattle.std.specs.Prelude.{◌≡◌, Some, IfOk, OnOk};
ghost use Rattle.c_machine.specs.Jumps as jumps;
ghost use Rattle.stepper_work.specs.Views.{control_of};
ghost use Rattle.stepper_exits.specs.Ways.{jump_of};
ghost use Rattle.stepper_jumps.specs.Found.{IsPlace, listed_from};

use crate::labels::{enter_label, find_label};
use crate::queues::queue_behind;
use c_base::name::Name;
use c_program::program::Stmt;
use sqlite_items::Items;
use std::alloc::AllocError;
use stepper_exits::exits::{add_both, add_numbers};
use stepper_exits::marks::{Mark, mark_of};
use stepper_held::stack::Stack;
use stepper_shapes::operand::Statement;
use stepper_work::work::Work;

/// Goes behind the label in one of the statements, which the others follow.
fn enter_at<'p>(
    control: &mut Stack<Work<'p>>,
    name: &Name,
    stmts: &'p Items<Stmt>,
    n: usize,
) -> Result<(), AllocError>
    requires { IsPlace name.now stmts.now (Some n) }
    ensures { OnOk result (Some (control_of control.new) ≡ jumps.at_label_in name.now (listed_from 0 stmts.now) (control_of control.old)) }
{
    queue_behind(control, stmts, n)?;
    enter_label(control, name, Statement::Listed(stmts, n))
}

#[tactic(auto, using(stepper_exits::proofs::Passing::to_looping, stepper_exits::proofs::Passing::to_switching, stepper_exits::proofs::Passing::to_other))]
/// Goes behind the label in the innermost block in progress that has it, and adds the objects of the scopes that are left to those that die.
pub fn jump_to(
    dying: &mut Items<u32>,
    control: &mut Stack<Work<'_>>,
    name: &Name,
) -> Result<bool, AllocError>
    ensures { IfOk result (λ found. jumps.jump_to name.now dying.old (control_of control.old) ≡ jump_of dying.new (control_of control.new) found) }
{
    while let Some(work) = control.pop() {
        match mark_of(work) {
            Mark::Frame(_, _) => return Ok(false),
            Mark::Close(locals, stmts) => {
                if let Some(n) = find_label(name, stmts) {
                    control.push(work)?;
                    enter_at(control, name, stmts, n)?;
                    return Ok(true);
                }
                add_numbers(dying, locals.as_slice())?;
            }
            Mark::Body(stmts) => {
                if let Some(n) = find_label(name, stmts) {
                    control.push(work)?;
                    enter_at(control, name, stmts, n)?;
                    return Ok(true);
                }
            }
            Mark::CloseFunction(formals, locals) => {
                add_both(dying, formals.as_slice(), locals.as_slice())?;
            }
            Mark::Loop | Mark::Switched | Mark::Other => {}
        }
    }
    Ok(false)
}

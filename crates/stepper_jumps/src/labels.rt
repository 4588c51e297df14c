//! Labels in statements.

ghost use Rattle.std.specs.Prelude.{◌≡◌, true, Some, OnOk};
ghost use Rattle.c_machine.specs.Jumps as jumps;
ghost use Rattle.stepper_shapes.specs.Views.{statement_of};
ghost use Rattle.stepper_work.specs.Views.{control_of};
ghost use Rattle.stepper_jumps.specs.Found.{IsPlace};
ghost use Rattle.stepper_jumps.specs.Searches.{labelled};

use crate::parts::{Part, part_of};
use c_base::name::Name;
use c_program::program::Stmt;
use sqlite_items::Items;
use std::alloc::AllocError;
use stepper_held::stack::Stack;
use stepper_shapes::operand::Statement;
use stepper_work::work::Work;

/// Whether the label stands in the statement, where a jump may lead to it: not in a block. Along the `else`s of a ladder it is a loop.
pub fn has_label(name: &Name, s: Statement<'_>) -> bool
    ensures { result ≡ labelled name.now (statement_of s.entry) }
{
    let mut here = s;
    'search: loop {
        match part_of(here) {
            Part::Named(n, body) => {
                if n == name {
                    return true;
                }
                here = Statement::Whole(body);
            }
            Part::Both(then, otherwise) => {
                if has_label(name, then) {
                    return true;
                }
                here = otherwise;
            }
            Part::Valued(_, body) => here = Statement::Whole(body),
            Part::Marked(_, inside) => here = inside,
            Part::Nothing => return false,
        }
    }
}

/// Goes behind the label in the statement.
#[tactic(auto, using(crate::proofs::Firsts::both_has, crate::proofs::Firsts::both_lacks))]
pub fn enter_label<'p>(
    control: &mut Stack<Work<'p>>,
    name: &Name,
    s: Statement<'p>,
) -> Result<(), AllocError>
    requires { labelled name.now (statement_of s) ≡ true }
    ensures { OnOk result (Some (control_of control.new) ≡ jumps.at_label name.now (statement_of s.entry) (control_of control.old)) }
{
    let mut here = s;
    'search: loop {
        match part_of(here) {
            Part::Named(n, body) => {
                if n == name {
                    return control.push(Work::Do(Statement::Whole(body)));
                }
                here = Statement::Whole(body);
            }
            Part::Both(then, otherwise) => {
                here = if has_label(name, then) {
                    then
                } else {
                    otherwise
                };
            }
            Part::Valued(_, body) => here = Statement::Whole(body),
            Part::Marked(mark, inside) => {
                control.push(mark)?;
                here = inside;
            }
            Part::Nothing => return Ok(()),
        }
    }
}

/// The number of the first of the statements that has the label.
#[tactic(auto, using(crate::proofs::Lists::at_first, crate::proofs::Lists::at_others, crate::proofs::Lists::listed_none))]
pub fn find_label(name: &Name, stmts: &Items<Stmt>) -> Option<usize>
    ensures { IsPlace name.now stmts.now result }
{
    let mut n = 0;
    'search: while n < stmts.len() {
        if has_label(name, Statement::Listed(stmts, n)) {
            return Some(n);
        }
        n += 1;
    }
    None
}

//! Statements that follow one another.

ghost use Rattle.std.specs.Prelude.{◌≡◌, ◌+◌, OnOk};
ghost use Rattle.c_machine.specs.Machine as machine;
ghost use Rattle.stepper_work.specs.Views.{control_of};
ghost use Rattle.stepper_jumps.specs.Found.{listed_from};

use c_program::program::Stmt;
use sqlite_items::Items;
use std::alloc::AllocError;
use stepper_held::stack::Stack;
use stepper_shapes::operand::Statement;
use stepper_work::work::Work;

/// Puts the statements from number `n` on before other work.
#[tactic(auto, using(crate::proofs::Lists::queued_before, crate::proofs::Lists::listed_none))]
pub fn queue_from<'p>(
    control: &mut Stack<Work<'p>>,
    stmts: &'p Items<Stmt>,
    n: usize,
) -> Result<(), AllocError>
    ensures { OnOk result (control_of control.new ≡ machine.queued (listed_from n stmts.now) (control_of control.old)) }
{
    if n >= stmts.len() {
        return Ok(());
    }
    let mut next = stmts.len();
    while next > n {
        next -= 1;
        control.push(Work::Do(Statement::Listed(stmts, next)))?;
    }
    Ok(())
}

/// Puts the statements behind number `n` before other work.
#[tactic(auto, using(crate::proofs::Lists::listed_none))]
pub fn queue_behind<'p>(
    control: &mut Stack<Work<'p>>,
    stmts: &'p Items<Stmt>,
    n: usize,
) -> Result<(), AllocError>
    ensures { OnOk result (control_of control.new ≡ machine.queued (listed_from (n + 1) stmts.now) (control_of control.old)) }
{
    if n >= stmts.len() {
        return Ok(());
    }
    queue_from(control, stmts, n + 1)
}

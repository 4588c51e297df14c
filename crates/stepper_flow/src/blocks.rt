//! Objects of blocks (C11 6.2.4p6, 6.8.2).

ghost use Rattle.std.specs.Prelude.{◌≡◌, ◌++◌, ◌∷◌, map, IfOk, OnOk};
ghost use Rattle.c_machine.specs.Machine as machine;
ghost use Rattle.c_program.specs.Syntax.{Block, Done};
ghost use Rattle.c_program.specs.Views.{program_of, stmt_of, listed, number_of as base_number};
ghost use Rattle.stepper_values.specs.Views.{layout_of};
ghost use Rattle.stepper_work.specs.Effects.{HasEffect};
ghost use Rattle.stepper_work.specs.Views.{control_of};

use c_base::number::BaseId;
use c_program::program::Stmt;
use sqlite_items::Items;
use std::alloc::{AllocError, Global};
use stepper_accesses::scopes::bear;
use stepper_exits::exits::{add_both, add_numbers};
use stepper_expressions::stepper::Stepper;
use stepper_held::stack::Stack;
use stepper_jumps::queues::queue_from;
use stepper_work::work::{Effect, State, Work};

/// The numbers of bases.
pub fn numbers(alloc: Global, bases: &[BaseId]) -> Result<Items<u32>, AllocError>
    ensures { IfOk result (λ all. all ≡ map base_number bases.now) }
{
    let mut all = Items::new(alloc);
    add_numbers(&mut all, bases)?;
    Ok(all)
}

/// The numbers of bases and of others behind them.
pub fn both_numbers(
    alloc: Global,
    formals: &[BaseId],
    locals: &[BaseId],
) -> Result<Items<u32>, AllocError>
    ensures { IfOk result (λ all. all ≡ map base_number formals.now ++ map base_number locals.now) }
{
    let mut all = Items::new(alloc);
    add_both(&mut all, formals, locals)?;
    Ok(all)
}

/// The statements of a block, and its mark.
fn push_block<'p>(
    control: &mut Stack<Work<'p>>,
    locals: &'p Items<BaseId>,
    stmts: &'p Items<Stmt>,
) -> Result<(), AllocError>
    ensures { OnOk result (control_of control.new ≡ machine.queued (listed (map stmt_of stmts.now)) (machine.Close (map base_number locals.now) (listed (map stmt_of stmts.now)) ∷ control_of control.old)) }
{
    control.push(Work::Close(locals, stmts))?;
    queue_from(control, stmts, 0)
}

/// The objects of a block are born, and its statements follow.
pub fn enter_block<'p>(
    stepper: &Stepper<'p>,
    locals: &'p Items<BaseId>,
    stmts: &'p Items<Stmt>,
    state: &mut State<'p>,
) -> Result<Effect, AllocError>
    ensures { IfOk result (HasEffect (program_of stepper.now.program.now) (layout_of stepper.now.layout) (machine.Do (Block (map base_number locals.now) (listed (map stmt_of stmts.now)))) state.old state.new) }
{
    push_block(&mut state.control, locals, stmts)?;
    let born = numbers(stepper.alloc, locals.as_slice())?;
    bear(
        stepper.alloc,
        &stepper.layout,
        &mut state.memory,
        born.as_slice(),
    )?;
    Ok(Effect::GoesOn)
}

/// The end of a block: its objects die.
pub fn close<'p>(
    stepper: &Stepper<'p>,
    locals: &'p Items<BaseId>,
    stmts: &'p Items<Stmt>,
    state: &mut State<'p>,
) -> Result<Effect, AllocError>
    ensures { IfOk result (HasEffect (program_of stepper.now.program.now) (layout_of stepper.now.layout) (machine.Close (map base_number locals.now) (listed (map stmt_of stmts.now))) state.old state.new) }
{
    let dying = numbers(stepper.alloc, locals.as_slice())?;
    state.memory.kill(dying.as_slice())?;
    Ok(Effect::GoesOn)
}

/// The end of a function's scope: its formals and the objects of its body die.
pub fn close_function<'p>(
    stepper: &Stepper<'p>,
    formals: &'p Items<BaseId>,
    locals: &'p Items<BaseId>,
    state: &mut State<'p>,
) -> Result<Effect, AllocError>
    ensures { IfOk result (HasEffect (program_of stepper.now.program.now) (layout_of stepper.now.layout) (machine.Close (map base_number formals.now ++ map base_number locals.now) Done) state.old state.new) }
{
    let dying = both_numbers(stepper.alloc, formals.as_slice(), locals.as_slice())?;
    state.memory.kill(dying.as_slice())?;
    Ok(Effect::GoesOn)
}

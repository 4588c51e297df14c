//! Items of work before other work, the first one first.

ghost use Rattle.std.specs.Prelude.{◌≡◌, ◌∷◌, map, OnOk};
ghost use Rattle.c_machine.specs.Unfolding as plain;
ghost use Rattle.c_typed_expr.specs.Views.{expr_of, listed};
ghost use Rattle.stepper_work.specs.Views.{work_of, control_of};

use c_typed_expr::expr::TExpr;
use sqlite_items::Items;
use std::alloc::AllocError;
use stepper_held::stack::Stack;
use stepper_shapes::operand::Operand;
use stepper_work::work::Work;

pub fn push_two<'p>(
    control: &mut Stack<Work<'p>>,
    first: Work<'p>,
    second: Work<'p>,
) -> Result<(), AllocError>
    ensures { OnOk result (control_of control.new ≡ work_of first.entry ∷ work_of second.entry ∷ control_of control.old) }
{
    control.push(second)?;
    control.push(first)
}

pub fn push_three<'p>(
    control: &mut Stack<Work<'p>>,
    first: Work<'p>,
    second: Work<'p>,
    third: Work<'p>,
) -> Result<(), AllocError>
    ensures { OnOk result (control_of control.new ≡ work_of first.entry ∷ work_of second.entry ∷ work_of third.entry ∷ control_of control.old) }
{
    control.push(third)?;
    push_two(control, first, second)
}

/// The evaluations of a call's arguments, in order.
#[tactic(auto, using(crate::proofs::Lists::argument_before))]
pub fn push_arguments<'p>(
    control: &mut Stack<Work<'p>>,
    arguments: &'p Items<TExpr>,
) -> Result<(), AllocError>
    ensures { OnOk result (control_of control.new ≡ plain.arguments_work (listed (map expr_of arguments.now)) (control_of control.old)) }
{
    let mut next = arguments.len();
    while next > 0 {
        next -= 1;
        control.push(Work::Evaluate(Operand::Listed(arguments, next)))?;
    }
    Ok(())
}

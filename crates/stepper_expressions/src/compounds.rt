//! Compound assignments, `++` and `--` (C11 6.5.16.2, 6.5.3.1, 6.5.2.4).

ghost use Rattle.std.specs.Prelude.{◌≡◌, Some, OnOk};
ghost use Rattle.c_machine.specs.Unfolding as plain;
ghost use Rattle.c_program.specs.Views.{program_of};
ghost use Rattle.stepper_shapes.specs.Views.{implied_of, place_of, operand_of};
ghost use Rattle.stepper_work.specs.Views.{control_of};

use crate::cells::{fetch_work, operator_work};
use crate::pushes::{push_three, push_two};
use c_memory::scalar::Scalar;
use c_program::program::TypedProgram;
use std::alloc::AllocError;
use stepper_held::stack::Stack;
use stepper_shapes::expressions::scalar_of;
use stepper_shapes::operand::{Change, ImpliedType, Place};
use stepper_work::work::Work;

fn push_scalar_compound<'p>(
    program: &TypedProgram,
    control: &mut Stack<Work<'p>>,
    scalar: Scalar,
    c: Change<'p>,
) -> Result<(), AllocError>
    ensures { OnOk result (control_of control.new ≡ plain.compound_by (program_of program.now) (Some scalar) c.entry.operator (implied_of c.entry.ctype) (implied_of c.entry.left) (implied_of c.entry.right) (place_of c.entry.place) (operand_of c.entry.operand) (control_of control.old)) }
{
    let operator = operator_work(c.operator, c.left, c.right);
    push_two(control, Work::Change(c.ctype), Work::Store(scalar))?;
    push_three(
        control,
        Work::Change(c.left),
        Work::Evaluate(c.operand),
        operator,
    )?;
    let fetch = fetch_work(program, c.place, scalar);
    push_three(control, Work::Locate(c.place), Work::Again, fetch)
}

/// The place is found once: loaded, combined with the operand, converted back, stored.
pub fn push_compound<'p>(
    program: &TypedProgram,
    control: &mut Stack<Work<'p>>,
    c: Change<'p>,
) -> Result<(), AllocError>
    ensures { OnOk result (control_of control.new ≡ plain.compound_work (program_of program.now) c.entry.operator (implied_of c.entry.ctype) (implied_of c.entry.left) (implied_of c.entry.right) (place_of c.entry.place) (operand_of c.entry.operand) (control_of control.old)) }
{
    match scalar_of(c.ctype) {
        None => control.push(Work::Evaluate(c.operand)),
        Some(scalar) => push_scalar_compound(program, control, scalar, c),
    }
}

fn push_scalar_step<'p>(
    program: &TypedProgram,
    control: &mut Stack<Work<'p>>,
    scalar: Scalar,
    up: bool,
    behind: bool,
    t: ImpliedType<'p>,
    place: Place<'p>,
) -> Result<(), AllocError>
    ensures { OnOk result (control_of control.new ≡ plain.stepped_by (program_of program.now) (Some scalar) up behind (implied_of t.entry) (place_of place.entry) (control_of control.old)) }
{
    if behind {
        control.push(Work::Drop)?;
    }
    push_two(control, Work::Increase(up, t), Work::Store(scalar))?;
    if behind {
        control.push(Work::Tuck)?;
    }
    let fetch = fetch_work(program, place, scalar);
    push_three(control, Work::Locate(place), Work::Again, fetch)
}

/// `++`, `up`, and `--`, `behind` its operand or before it.
pub fn push_step<'p>(
    program: &TypedProgram,
    control: &mut Stack<Work<'p>>,
    up: bool,
    behind: bool,
    t: ImpliedType<'p>,
    place: Place<'p>,
) -> Result<(), AllocError>
    ensures { OnOk result (control_of control.new ≡ plain.step_work (program_of program.now) up behind (implied_of t.entry) (place_of place.entry) (control_of control.old)) }
{
    match scalar_of(t) {
        None => control.push(Work::Locate(place)),
        Some(scalar) => push_scalar_step(program, control, scalar, up, behind, t, place),
    }
}

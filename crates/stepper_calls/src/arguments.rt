//! Arguments of calls.

ghost use Rattle.std.specs.Prelude.{◌≡◌, [], suc, map, IfOk};
ghost use Rattle.c_machine.specs.Parts as parts;
ghost use Rattle.stepper_values.specs.Views.{held_of};
ghost use Rattle.stepper_calls.specs.Arguments.{argument_result_of, arguments_result_of, split_of, call_of};

use c_base::kind::Kind;
use sqlite_items::Items;
use std::alloc::{AllocError, Global};
use stepper_accesses::scopes::Argument;
use stepper_held::stack::Stack;
use stepper_values::value::Held;

fn argument(held: Held) -> Result<Argument, Kind>
    ensures { argument_result_of result ≡ parts.argument (held_of held) }
{
    match held {
        Held::Usable(value) => Ok(Argument::Whole(value)),
        Held::Unusable(kind) => Err(kind),
        Held::Cells(cells) => Ok(Argument::Parts(cells)),
        Held::Absent => Err(Kind::Initialization),
        Held::Part(_) => Err(Kind::Initialization),
    }
}

/// The arguments, used in order, or the kind with which the first of them stops that may not be used.
pub fn use_arguments(
    alloc: Global,
    mut held: Stack<Held>,
) -> Result<Result<Items<Argument>, Kind>, AllocError>
    ensures { IfOk result (λ all. arguments_result_of all ≡ parts.used_arguments (map held_of held)) }
{
    let mut used = Items::new(alloc);
    while let Some(next) = held.pop() {
        match argument(next) {
            Ok(a) => used.push(a)?,
            Err(kind) => return Ok(Err(kind)),
        }
    }
    Ok(Ok(used))
}

/// Takes off so many of what is held last, and puts them before others, so that what was held first stands first.
fn split(held: &mut Stack<Held>, count: usize, last: &mut Stack<Held>) -> Result<bool, AllocError>
    ensures { IfOk result (λ enough. split_of enough last.new held.new ≡ parts.split_held count (map held_of last.old) (map held_of held.old)) }
{
    let mut left = count;
    while left > 0 {
        left -= 1;
        match held.pop() {
            None => return Ok(false),
            Some(next) => last.push(next)?,
        }
    }
    Ok(true)
}

/// Takes off the arguments of a call, so many, and the function below them; none where less is held.
#[tactic(auto, using(crate::proofs::Splitting::split_more))]
pub fn take_call(
    held: &mut Stack<Held>,
    count: usize,
    arguments: &mut Stack<Held>,
) -> Result<Option<Held>, AllocError>
    requires { arguments.old ≡ [] }
    ensures { IfOk result (λ f. call_of f arguments.new held.new ≡ parts.split_held (suc count) [] (map held_of held.old)) }
{
    if !split(held, count, arguments)? {
        return Ok(None);
    }
    Ok(held.pop())
}

//! Functions with bodies, by their bases.

ghost use Rattle.std.specs.Prelude.{◌≡◌, map, IfOk};
ghost use Rattle.c_program.specs.Syntax.{base_at, function_at};
ghost use Rattle.c_program.specs.Views.{program_of, base_of, result_in, result_at};
ghost use Rattle.c_program.specs.Views as views;
ghost use Rattle.c_types.specs.Compatible.{signature_of};
ghost use Rattle.c_types.specs.Views.{composites_of, type_of};
ghost use Rattle.stepper_work.specs.Views.{result_of};
ghost use Rattle.stepper_calls.specs.Functions.{functions_of, found_of};

use c_base::integer::Machine;
use c_memory::scalar::Scalar;
use c_program::program::{Block, Function, TypedProgram};
use c_types::ctype::{CType, Composites};
use std::alloc::AllocError;
use stepper_types::bases::base_in;
use stepper_types::sizes::size_within;
use stepper_work::work::ResultType;

/// A function and its body.
#[derive(Clone, Copy, Drop)]
pub struct Defined<'p> {
    pub function: &'p Function,
    pub body: &'p Block,
}

/// The first of the functions that has a body and is this base.
fn find_in<'p>(program: &TypedProgram, functions: &'p [Function], base: u32) -> Option<Defined<'p>>
    ensures { found_of program.now result ≡ function_at (functions_of program.now functions.now) base }
{
    for function in functions {
        if let Some(body) = &function.body {
            if function.base.0 == base {
                return Some(Defined { function, body });
            }
        }
    }
    None
}

/// The function with a body that the base is.
pub fn find_function<'p>(program: &'p TypedProgram, base: u32) -> Option<Defined<'p>>
    ensures { found_of program.now result ≡ function_at (program_of program.now).functions base }
{
    find_in(program, program.functions.as_slice(), base)
}

/// What a call has that gives the type.
fn result_with(
    composites: &Composites,
    machine: Machine,
    t: &CType,
) -> Result<ResultType, AllocError>
    ensures { IfOk result (λ r. result_of r ≡ result_in (composites_of composites.now) machine (type_of t.now)) }
{
    match t {
        CType::Void => Ok(ResultType::Void),
        CType::Int(kind) => Ok(ResultType::Returns(Scalar::Integer(*kind))),
        CType::Ptr(_) => Ok(ResultType::Returns(Scalar::Pointer)),
        CType::Array(_, _) => { Ok(ResultType::ReturnsCells(size_within(composites, machine, t)?)) }
        CType::Comp(_) => Ok(ResultType::ReturnsCells(size_within(composites, machine, t)?)),
        CType::Func(_) => Ok(ResultType::ReturnsCells(0)),
    }
}

fn result_by(composites: &Composites, machine: Machine, t: &CType) -> Result<ResultType, AllocError>
    ensures { IfOk result (λ r. result_of r ≡ views.result_by (composites_of composites.now) machine (signature_of (type_of t.now))) }
{
    match t {
        CType::Func(f) => result_with(composites, machine, &f.get().result),
        CType::Void => Ok(ResultType::Void),
        CType::Int(_) => Ok(ResultType::Void),
        CType::Ptr(_) => Ok(ResultType::Void),
        CType::Array(_, _) => Ok(ResultType::Void),
        CType::Comp(_) => Ok(ResultType::Void),
    }
}

/// What a call of the function at a base has.
pub fn result_type(program: &TypedProgram, base: u32) -> Result<ResultType, AllocError>
    ensures { IfOk result (λ r. result_of r ≡ result_at (composites_of program.now.comps) program.now.machine (base_at (map base_of program.now.bases) base)) }
{
    match base_in(program, base) {
        None => Ok(ResultType::Void),
        Some(b) => result_by(&program.comps, program.machine, &b.ctype),
    }
}

//! C's operators on values, which carry their bases along (C11 6.3.1, 6.5).

ghost use Rattle.std.specs.Prelude.{◌≡◌, IfOk};
ghost use Rattle.c_memory.specs.Operations as operations;
ghost use Rattle.c_pointers.specs.Conversions as conversions;
ghost use Rattle.stepper_values.specs.Views.{bases_of, value_of, value_result_of};

use crate::number::{address_number, computed, computed_one, converted, is_comparison};
use crate::value::Value;
use c_base::integer::{IntKind, Machine};
use c_base::kind::Kind;
use c_base::operators::{BinOp, UnOp};
use c_memory::scalar::Scalar;
use sqlite_items::Items;
use std::alloc::{AllocError, Global};

/// The bases from whose addresses a result was made.
pub fn bases_after(
    alloc: Global,
    op: BinOp,
    mut a: Items<u32>,
    b: Items<u32>,
) -> Result<Items<u32>, AllocError>
    ensures { IfOk result (λ bases. bases_of bases ≡ operations.provenance_after op (bases_of a)
        (bases_of b)) }
{
    if is_comparison(op) {
        return Ok(Items::new(alloc));
    }
    a.append(b)?;
    Ok(a)
}

/// What an operator gives on two values in an integer type, or the kind of the undefined step.
pub fn applied(
    alloc: Global,
    op: BinOp,
    kind: IntKind,
    machine: Machine,
    a: Value,
    b: Value,
) -> Result<Result<Value, Kind>, AllocError>
    ensures { IfOk result (λ value. value_result_of value ≡ operations.applied_to op kind machine (value_of a) (value_of b)) }
{
    match computed(op, kind, machine, a.number, b.number) {
        Ok(number) => {
            let bases = bases_after(alloc, op, a.bases, b.bases)?;
            Ok(Ok(Value { number, bases }))
        }
        Err(kind) => Ok(Err(kind)),
    }
}

fn bases_behind(alloc: Global, op: UnOp, bases: Items<u32>) -> Items<u32>
    ensures { bases_of result ≡ conversions.provenance_behind op (bases_of bases) }
{
    match op {
        UnOp::Neg | UnOp::Compl => bases,
        UnOp::Not => Items::new(alloc),
    }
}

/// What `-`, `!` or `~` gives, or the kind of the undefined step.
pub fn applied_to_one(
    alloc: Global,
    op: UnOp,
    kind: IntKind,
    machine: Machine,
    value: Value,
) -> Result<Value, Kind>
    ensures { value_result_of result ≡ conversions.applied_to_one op kind machine (value_of value) }
{
    match computed_one(op, kind, machine, value.number) {
        Ok(number) => Ok(Value {
            number,
            bases: bases_behind(alloc, op, value.bases),
        }),
        Err(kind) => Err(kind),
    }
}

fn bases_in(alloc: Global, kind: IntKind, bases: Items<u32>) -> Items<u32>
    ensures { bases_of result ≡ conversions.provenance_in kind (bases_of bases) }
{
    if kind == IntKind::Bool {
        return Items::new(alloc);
    }
    bases
}

/// The value converted to an integer type (C11 6.3.1.2, 6.3.1.3, 6.3.2.3p6).
pub fn converted_value(alloc: Global, kind: IntKind, machine: Machine, value: Value) -> Value
    ensures { value_of result ≡ conversions.converted_value kind machine (value_of value) }
{
    let number = converted(kind, machine, value.number);
    Value {
        number,
        bases: bases_in(alloc, kind, value.bases),
    }
}

/// The value converted to a scalar type.
pub fn converted_to(alloc: Global, scalar: Scalar, machine: Machine, value: Value) -> Value
    ensures { value_of result ≡ conversions.converted_to scalar machine (value_of value) }
{
    match scalar {
        Scalar::Integer(kind) => converted_value(alloc, kind, machine, value),
        Scalar::Pointer => {
            let number = address_number(machine, value.number);
            Value {
                number,
                bases: value.bases,
            }
        }
    }
}

//! Conversions by types.
ghost use Rattle.std.specs.Prelude.{◌≡◌, ◌↔◌, true, IfOk, Some};
ghost use Rattle.c_base.specs.declared.integer.Machine.{Machine as PlainMachine};
ghost use Rattle.c_memory.specs.declared.scalar.Scalar.{Scalar as PlainScalar};
ghost use Rattle.c_memory.specs.Layouts.{Layout};
ghost use Rattle.c_memory.specs.Values.{Value};
ghost use Rattle.c_pointers.specs.Conversions.{converted_to};
ghost use Rattle.c_types.specs.Types.{scalar_of};
ghost use Rattle.c_types.specs.Views.{type_of};
ghost use Rattle.avalue_base.specs.Meaning.{Means};
ghost use Rattle.avalue_base.specs.Singles.{is_single_value};
ghost use Rattle.aops.specs.Soles.{keeps_addresses};
ghost use Rattle.aops_convert.specs.ByType.{typed_value};

use aops::converted;
use avalue_values::{AVal, Mem};
use c_base::integer::Machine;
use c_memory::scalar::Scalar;
use c_types::ctype::CType;
use std::alloc::Global;

/// The scalar type, if it is one (C11 6.2.5p21).
pub fn scalar_of(ctype: &CType) -> Option<Scalar>
    ensures { result ≡ scalar_of (type_of ctype.now) }
{
    match ctype {
        CType::Int(kind) => Some(Scalar::Integer(*kind)),
        CType::Ptr(_) => Some(Scalar::Pointer),
        CType::Void => None,
        CType::Array(_, _) => None,
        CType::Comp(_) => None,
        CType::Func(_) => None,
    }
}

/// The values, converted to a scalar type; for another type as they are. A conversion is always defined. Of one number, and of one address in a type
/// that holds pointers, there is the one result alone.
pub fn abs_convert(alloc: Global, to: &CType, m: Machine, a: &AVal) -> Mem<AVal>
    ensures value { IfOk result (λ v. v ≡ typed_value (scalar_of (type_of to.now)) m a.now) }
    ensures holds { IfOk result (λ v. (s : PlainScalar) (l : Layout) (x : Value) → scalar_of (type_of to.now) ≡ Some s → l.machine ≡ m →
        Means l a.now x → Means l v (converted_to s m x)) }
    ensures sole { IfOk result (λ v. (s : PlainScalar) (l : Layout) (x z : Value) → scalar_of (type_of to.now) ≡ Some s → l.machine ≡ m →
        is_single_value a.now ≡ true → keeps_addresses s m a.now ≡ true → Means l a.now x → Means l v z ↔ (z ≡ converted_to s m x)) }
{
    match scalar_of(to) {
        None => a.duplicate(alloc),
        Some(scalar) => converted(alloc, scalar, m, a),
    }
}

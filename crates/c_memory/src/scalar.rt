//! Scalar types.

use c_base::integer::IntKind;

/// A scalar type (C11 6.2.5p21): an integer type, or a pointer to anything.
#[derive(Clone, Copy, Debug, PartialEq, Eq)]
pub enum Scalar {
    Integer(IntKind),
    Pointer,
}

//! Compatible types (C11 6.2.7).
ghost use Rattle.std.specs.Prelude.{◌≡◌, ◌==◌, None, Some, MatchOption};
ghost use Rattle.c_types.specs.Compatible as plain;
ghost use Rattle.c_types.specs.Views.{type_of, types_of, function_type_of};

use crate::ctype::{CType, FuncType};
use c_base::integer::IntKind;

fn kind_number(kind: IntKind) -> u32
    ensures { result ≡ plain.kind_number kind }
{
    match kind {
        IntKind::Bool => 0,
        IntKind::Char => 1,
        IntKind::SChar => 2,
        IntKind::UChar => 3,
        IntKind::Short => 4,
        IntKind::UShort => 5,
        IntKind::Int => 6,
        IntKind::UInt => 7,
        IntKind::Long => 8,
        IntKind::ULong => 9,
        IntKind::LLong => 10,
        IntKind::ULLong => 11,
    }
}

fn same_kind(a: IntKind, b: IntKind) -> bool
    ensures { result ≡ (plain.kind_number a == plain.kind_number b) }
{
    kind_number(a) == kind_number(b)
}

fn same_bound(a: u64, b: u64) -> bool
    ensures { result ≡ plain.same_bound a b }
{
    a == b || a == 0 || b == 0
}

fn same_truth(a: bool, b: bool) -> bool
    ensures { result ≡ plain.same_truth a b }
{
    a == b
}

impl CType {
    fn is_void(&self) -> bool
        ensures { result ≡ plain.is_void (type_of self.now) }
    {
        match self {
            CType::Void => true,
            CType::Int(_) => false,
            CType::Ptr(_) => false,
            CType::Array(_, _) => false,
            CType::Comp(_) => false,
            CType::Func(_) => false,
        }
    }

    fn has_kind(&self, kind: IntKind) -> bool
        ensures { result ≡ plain.has_kind kind (type_of self.now) }
    {
        match self {
            CType::Int(other) => same_kind(kind, *other),
            CType::Void => false,
            CType::Ptr(_) => false,
            CType::Array(_, _) => false,
            CType::Comp(_) => false,
            CType::Func(_) => false,
        }
    }

    fn has_number(&self, number: u32) -> bool
        ensures { result ≡ plain.has_number number (type_of self.now) }
    {
        match self {
            CType::Comp(other) => number == *other,
            CType::Void => false,
            CType::Int(_) => false,
            CType::Ptr(_) => false,
            CType::Array(_, _) => false,
            CType::Func(_) => false,
        }
    }

    /// What a pointer points to; none where the type is no pointer.
    pub fn target(&self) -> Option<&CType>
        ensures { MatchOption result (plain.target_of (type_of self.now) ≡ None) (λ t. plain.target_of (type_of self.now) ≡ Some (type_of t.now)) }
    {
        match self {
            CType::Ptr(to) => Some(to.get()),
            CType::Void => None,
            CType::Int(_) => None,
            CType::Array(_, _) => None,
            CType::Comp(_) => None,
            CType::Func(_) => None,
        }
    }

    /// What the elements of an array are, and how many; none where the type is no array.
    pub fn elements(&self) -> Option<(&CType, u64)>
        ensures { MatchOption result (plain.elements_of (type_of self.now) ≡ None) (λ t. plain.elements_of (type_of self.now) ≡ Some (type_of t.0.now, t.1)) }
    {
        match self {
            CType::Array(of, count) => Some((of.get(), *count)),
            CType::Void => None,
            CType::Int(_) => None,
            CType::Ptr(_) => None,
            CType::Comp(_) => None,
            CType::Func(_) => None,
        }
    }

    /// The type as that of a function; none where it is another.
    pub fn signature(&self) -> Option<&FuncType>
        ensures { MatchOption result (plain.signature_of (type_of self.now) ≡ None) (λ t. type_of self.now ≡ function_type_of t.now) }
    {
        match self {
            CType::Func(func) => Some(func.get()),
            CType::Void => None,
            CType::Int(_) => None,
            CType::Ptr(_) => None,
            CType::Array(_, _) => None,
            CType::Comp(_) => None,
        }
    }
}

#[cycle(comparing)]
fn compatible_functions(a: &FuncType, b: &FuncType) -> bool
    ensures { result ≡ plain.is_compatible (function_type_of a.now) (function_type_of b.now) }
{
    if !a.result.is_compatible(&b.result) {
        return false;
    }
    if !compatible_lists(a.params.as_slice(), b.params.as_slice()) {
        return false;
    }
    same_truth(a.variadic, b.variadic)
}

#[cycle(comparing)]
fn compatible_lists(a: &[CType], b: &[CType]) -> bool
    ensures { result ≡ plain.are_compatible (types_of a.now) (types_of b.now) }
{
    let mut at = 0;
    while at < a.len() {
        if at >= b.len() {
            return false;
        }
        if !a[at].is_compatible(&b[at]) {
            return false;
        }
        at += 1;
    }
    if at < b.len() {
        return false;
    }
    true
}

impl CType {
    /// Whether the types are compatible, where neither has qualifiers (C11 6.2.7p1).
    #[cycle(comparing)]
    pub fn is_compatible(&self, other: &CType) -> bool
        ensures { result ≡ plain.is_compatible (type_of self.now) (type_of other.now) }
    {
        match self {
            CType::Void => other.is_void(),
            CType::Int(kind) => other.has_kind(*kind),
            CType::Ptr(to) => match other.target() {
                Some(other) => to.get().is_compatible(other),
                None => false,
            },
            CType::Array(of, count) => match other.elements() {
                Some((element, bound)) => of.get().is_compatible(element)
                    && same_bound(*count, bound),
                None => false,
            },
            CType::Comp(number) => other.has_number(*number),
            CType::Func(func) => match other.signature() {
                Some(other) => compatible_functions(func.get(), other),
                None => false,
            },
        }
    }
}

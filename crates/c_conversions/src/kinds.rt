//! Integer types of operands and constants.
ghost use Rattle.std.specs.Prelude.{◌≡◌};
ghost use Rattle.c_base.specs.Integers as integers;
ghost use Rattle.c_conversions.specs.Kinds as plain;

use c_base::format::format_of;
use c_base::integer::{IntKind, Machine};
use c_base::token::{IntegerConstant, Length, Radix};

fn rank(kind: IntKind) -> u32
    ensures { result ≡ plain.rank kind }
{
    match kind {
        IntKind::Bool => 0,
        IntKind::Char | IntKind::SChar | IntKind::UChar => 1,
        IntKind::Short | IntKind::UShort => 2,
        IntKind::Int | IntKind::UInt => 3,
        IntKind::Long | IntKind::ULong => 4,
        IntKind::LLong | IntKind::ULLong => 5,
    }
}

fn is_signed(machine: Machine, kind: IntKind) -> bool
    ensures { result ≡ integers.is_signed kind }
{
    format_of(kind, machine).signed
}

fn least(machine: Machine, kind: IntKind) -> i128
    ensures { result ≡ integers.least kind machine }
{
    format_of(kind, machine).least()
}

fn greatest(machine: Machine, kind: IntKind) -> i128
    ensures { result ≡ integers.greatest kind machine }
{
    format_of(kind, machine).greatest()
}

fn is_held_by(machine: Machine, kind: IntKind, other: IntKind) -> bool
    ensures { result ≡ plain.is_held_by machine kind other }
{
    let low = least(machine, other) <= least(machine, kind);
    let high = greatest(machine, kind) <= greatest(machine, other);
    low && high
}

/// The type of an operand of this type after the integer promotions (C11 6.3.1.1p2).
pub fn promoted(machine: Machine, kind: IntKind) -> IntKind
    ensures { result ≡ plain.promoted machine kind }
{
    if rank(kind) >= rank(IntKind::Int) {
        return kind;
    }
    if is_held_by(machine, kind, IntKind::Int) {
        return IntKind::Int;
    }
    IntKind::UInt
}

fn unsigned_of(kind: IntKind) -> IntKind
    ensures { result ≡ plain.unsigned_of kind }
{
    match kind {
        IntKind::Bool => IntKind::Bool,
        IntKind::Char | IntKind::SChar | IntKind::UChar => IntKind::UChar,
        IntKind::Short | IntKind::UShort => IntKind::UShort,
        IntKind::Int | IntKind::UInt => IntKind::UInt,
        IntKind::Long | IntKind::ULong => IntKind::ULong,
        IntKind::LLong | IntKind::ULLong => IntKind::ULLong,
    }
}

fn higher(a: IntKind, b: IntKind) -> IntKind
    ensures { result ≡ plain.higher a b }
{
    if rank(a) < rank(b) { b } else { a }
}

fn mixed(machine: Machine, unsigned: IntKind, signed: IntKind) -> IntKind
    ensures { result ≡ plain.mixed machine unsigned signed }
{
    if rank(signed) <= rank(unsigned) {
        return unsigned;
    }
    if is_held_by(machine, unsigned, signed) {
        return signed;
    }
    unsigned_of(signed)
}

/// The type that two operands of these types are converted to (C11 6.3.1.8p1).
pub fn common(machine: Machine, a: IntKind, b: IntKind) -> IntKind
    ensures { result ≡ plain.common machine a b }
{
    let left = promoted(machine, a);
    let right = promoted(machine, b);
    match (is_signed(machine, left), is_signed(machine, right)) {
        (true, true) => higher(left, right),
        (false, false) => higher(left, right),
        (true, false) => mixed(machine, right, left),
        (false, true) => mixed(machine, left, right),
    }
}

fn is_decimal(radix: Radix) -> bool
    ensures { result ≡ plain.is_decimal radix }
{
    match radix {
        Radix::Decimal => true,
        Radix::Octal | Radix::Hexadecimal => false,
    }
}

fn least_rank(length: Length) -> u32
    ensures { result ≡ plain.least_rank length }
{
    match length {
        Length::Plain => 3,
        Length::Long => 4,
        Length::LongLong => 5,
    }
}

fn is_offered(machine: Machine, c: IntegerConstant, kind: IntKind) -> bool
    ensures { result ≡ plain.is_offered c kind }
{
    let signed = is_signed(machine, kind);
    if signed && c.unsigned {
        return false;
    }
    if !signed && !c.unsigned && is_decimal(c.radix) {
        return false;
    }
    least_rank(c.length) <= rank(kind)
}

fn suits(machine: Machine, c: IntegerConstant, kind: IntKind) -> bool
    ensures { result ≡ plain.suits machine c kind }
{
    if !is_offered(machine, c, kind) {
        return false;
    }
    c.value <= greatest(machine, kind) as u128
}

fn first_suiting(machine: Machine, c: IntegerConstant, kinds: &[IntKind]) -> Option<IntKind>
    ensures { result ≡ plain.first_suiting machine c kinds.now }
{
    for kind in kinds {
        if suits(machine, c, *kind) {
            return Some(*kind);
        }
    }
    None
}

/// The type of an integer constant, or none where no type can hold it (C11 6.4.4.1p5 and p6).
pub fn kind_of_constant(machine: Machine, c: IntegerConstant) -> Option<IntKind>
    ensures { result ≡ plain.kind_of_constant machine c }
{
    let kinds = [
        IntKind::Int,
        IntKind::UInt,
        IntKind::Long,
        IntKind::ULong,
        IntKind::LLong,
        IntKind::ULLong,
    ];
    first_suiting(machine, c, &kinds)
}

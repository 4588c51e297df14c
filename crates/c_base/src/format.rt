//! How a type keeps its numbers.

ghost use Rattle.std.specs.Prelude.{◌≡◌, ◌<◌, ◌≤◌, ◌^◌, ◌-◌, pos, ◌≤ℤ◌};
ghost use Rattle.c_base.specs.Integers as integers;
ghost use Rattle.c_base.specs.Wide.{IsOperand};

use crate::integer::{IntKind, Machine};

/// An integer type of a machine: with or without a sign, in `width` bits.
#[derive(Clone, Copy)]
pub struct Format {
    pub kind: IntKind,
    pub machine: Machine,
    pub signed: bool,
    pub width: u32,
    ghost sign: { signed ≡ integers.is_signed kind },
    ghost bits: { width ≡ integers.width_of kind machine },
    ghost some: { 0 < width },
    ghost room: { width ≤ 64 },
}

/// How the machine keeps the numbers of a type.
pub fn format_of(kind: IntKind, machine: Machine) -> Format
    ensures kind { result.kind ≡ kind }
    ensures machine { result.machine ≡ machine }
{
    match machine {
        Machine::Lp64 => {
            let (signed, width) = match kind {
                IntKind::Bool => (false, 1),
                IntKind::Char | IntKind::SChar => (true, 8),
                IntKind::UChar => (false, 8),
                IntKind::Short => (true, 16),
                IntKind::UShort => (false, 16),
                IntKind::Int => (true, 32),
                IntKind::UInt => (false, 32),
                IntKind::Long | IntKind::LLong => (true, 64),
                IntKind::ULong | IntKind::ULLong => (false, 64),
            };
            Format {
                kind,
                machine,
                signed,
                width,
            }
        }
    }
}

/// 2 to the `exponent`.
pub fn power(exponent: u32) -> u128
    requires { exponent ≤ 64 }
    ensures value { result ≡ 2 ^ exponent }
    ensures some { 0 < result }
    ensures small { result ≤ 2 ^ 64 }
{
    1 << exponent
}

impl Format {
    /// The least number of the type.
    pub fn least(self) -> i128
        ensures value { result ≡ integers.least_of self.signed self.width }
        ensures below { result ≤ℤ pos 0 }
        ensures within { IsOperand result }
    {
        if self.signed {
            -(power(self.width - 1) as i128)
        } else {
            0
        }
    }

    /// The greatest number of the type.
    pub fn greatest(self) -> i128
        ensures value { result ≡ integers.greatest_of self.signed self.width }
        ensures above { pos 0 ≤ℤ result }
        ensures within { IsOperand result }
    {
        if self.signed {
            power(self.width - 1) as i128 - 1
        } else {
            power(self.width) as i128 - 1
        }
    }
}

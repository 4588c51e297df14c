//! What returns hand on.

ghost use Rattle.std.specs.Prelude.{◌≡◌, IfOk};
ghost use Rattle.c_machine.specs.Machine as machine;
ghost use Rattle.stepper_values.specs.Views.{held_of, held_result_of};

use c_base::kind::Kind;
use std::alloc::{AllocError, Global};
use stepper_values::value::{Held, is_touched, withered};

/// What was made from the address of an object that dies in the return can't be used behind it (C11 6.2.4p2).
pub fn handed(alloc: Global, held: Held, dying: &[u32]) -> Result<Held, AllocError>
    ensures { IfOk result (λ after. held_of after ≡ machine.handed dying.now (held_of held)) }
{
    match held {
        Held::Usable(value) => {
            if is_touched(value.bases.as_slice(), dying) {
                Ok(Held::Unusable(Kind::DanglingPointer))
            } else {
                Ok(Held::Usable(value))
            }
        }
        Held::Unusable(kind) => Ok(Held::Unusable(kind)),
        Held::Cells(cells) => Ok(Held::Cells(withered(alloc, dying, cells.as_slice())?)),
        Held::Absent => Ok(Held::Absent),
        Held::Part(cells) => Ok(Held::Part(cells)),
    }
}

/// A `return` uses a scalar, and hands on bits with their flags (C11 6.8.6.4p3).
pub fn delivered(held: Held) -> Result<Held, Kind>
    ensures { held_result_of result ≡ machine.delivered (held_of held) }
{
    match held {
        Held::Unusable(kind) => Err(kind),
        Held::Usable(value) => Ok(Held::Usable(value)),
        Held::Cells(cells) => Ok(Held::Cells(cells)),
        Held::Absent => Ok(Held::Absent),
        Held::Part(cells) => Ok(Held::Part(cells)),
    }
}

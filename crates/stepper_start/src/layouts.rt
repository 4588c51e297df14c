//! Layouts.

ghost use Rattle.std.specs.Prelude.{◌≡◌, ◌≤◌, ◌^◌, IfOk};
ghost use Rattle.c_memory.specs.Layouts as layouts;
ghost use Rattle.c_program.specs.Views.{program_of};
ghost use Rattle.stepper_start.specs.Starting.{Packs};

use c_base::integer::Machine;
use c_program::program::TypedProgram;
use sqlite_items::Items;
use std::alloc::{AllocError, Global};
use stepper_values::layout::{Layout, Object};

fn last_address(machine: Machine) -> u64
    ensures value { result ≡ layouts.last_address machine }
    ensures small { result ≤ 2 ^ 47 }
{
    match machine {
        Machine::Lp64 => 0x8000_0000_0000,
    }
}

/// A size that a run can have in memory; any other is answered as want of memory.
fn narrow(size: u64) -> Result<u32, AllocError>
    ensures { IfOk result (λ n. n ≡ size) }
{
    if size > u32::MAX as u64 {
        return Err(AllocError);
    }
    Ok(size as u32)
}

/// The bases one behind the other from address 1 on, if they have room.
pub fn packed(alloc: Global, program: &TypedProgram) -> Result<Option<Layout>, AllocError>
    ensures { IfOk result (Packs (program_of program.now)) }
{
    if program.bases.len() > u32::MAX as usize {
        return Err(AllocError);
    }
    let last = last_address(program.machine);
    let mut objects = Items::new(alloc);
    let mut address = 1u64;
    for base in program.bases.as_slice() {
        let size = narrow(base.size)?;
        let end = address + size as u64;
        if end > last {
            return Ok(None);
        }
        objects.push(Object {
            address,
            size,
            readonly: base.readonly,
        })?;
        address = end;
    }
    Ok(Some(Layout {
        machine: program.machine,
        objects,
    }))
}

//! Deaths of objects, which cost what they name.

ghost use Rattle.std.specs.Prelude.{◌≡◌, ◌+◌, ◌<◌, ◌≤◌, ◌^◌, ℕ, List, [], ◌∷◌, Option, length, OnOk};
ghost use Rattle.std.specs.List.{AllByRecursion};
ghost use Rattle.c_memory.specs.Memories as memories;
ghost use Rattle.stepper_memory.specs.declared.stored.Stored.{Stored};
ghost use Rattle.stepper_memory.specs.Views.{memory_of, AllBefore};
ghost use Rattle.stepper_memory.specs.Putting.{cleared};

use crate::stored::Stored;
use sqlite_items::Items;
use std::alloc::AllocError;

/// Room for the base, which hasn't died.
fn grow_deaths(deaths: &mut Items<u64>, base: u32) -> Result<(), AllocError>
    ensures room { OnOk result (base < length deaths.new) }
    ensures same { (table : List (Option (List Stored))) → memory_of deaths.new table ≡ memory_of deaths.old table }
    ensures times { (now : ℕ) → AllByRecursion (λ d. d ≤ now) deaths.old → AllByRecursion (λ d. d ≤ now) deaths.new }
{
    while deaths.len() <= base as usize {
        deaths.push(0)?;
    }
    Ok(())
}

/// The base doesn't live any more.
fn clear(table: &mut Vec<Option<Items<Stored>>>, base: u32)
    ensures { table.new.items ≡ cleared table.old.items base }
{
    if (base as usize) < table.len() {
        table[base as usize] = None;
    }
}

/// The object dies, later than all that was written.
fn kill(
    table: &mut Vec<Option<Items<Stored>>>,
    deaths: &mut Items<u64>,
    before: u64,
    base: u32,
) -> Result<(), AllocError>
    requires room { before + 1 < 2 ^ 64 }
    requires older { AllBefore before table.old.items }
    requires times { AllByRecursion (λ d. d ≤ before + 1) deaths.old }
    ensures done { OnOk result (memory_of deaths.new table.new.items ≡ memories.died (base ∷ []) (memory_of deaths.old table.old.items)) }
    ensures older { AllBefore before table.new.items }
    ensures times { AllByRecursion (λ d. d ≤ before + 1) deaths.new }
{
    grow_deaths(deaths, base)?;
    clear(table, base);
    deaths.set(base as usize, before + 1);
    Ok(())
}

/// The objects die, later than all that was written.
pub fn kill_all(
    table: &mut Vec<Option<Items<Stored>>>,
    deaths: &mut Items<u64>,
    before: u64,
    bases: &[u32],
) -> Result<(), AllocError>
    requires room { before + 1 < 2 ^ 64 }
    requires older { AllBefore before table.old.items }
    requires times { AllByRecursion (λ d. d ≤ before + 1) deaths.old }
    ensures done { OnOk result (memory_of deaths.new table.new.items ≡ memories.died bases.now (memory_of deaths.old table.old.items)) }
    ensures older { AllBefore before table.new.items }
    ensures times { AllByRecursion (λ d. d ≤ before + 1) deaths.new }
{
    for base in bases {
        kill(table, deaths, before, *base)?;
    }
    Ok(())
}

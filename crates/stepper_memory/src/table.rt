//! The bits of all bases.

ghost use Rattle.std.specs.Prelude.{◌≡◌, ◌<◌, ◌≤◌, ◌^◌, ℕ, List, [], ◌∷◌, Option, None, Some, map, length, slice_get, slice_set, unwrap_or, replicate, ◌*◌, IfOk, OnOk};
ghost use Rattle.std.specs.List.{AllByRecursion};
ghost use Rattle.c_memory.specs.Memories as memories;
ghost use Rattle.c_memory.specs.Values as values;
ghost use Rattle.stepper_values.specs.Views.{cell_of};
ghost use Rattle.stepper_memory.specs.Views.{memory_of, AllBefore, IsBefore};
ghost use Rattle.stepper_memory.specs.Putting.{bits_at};

use crate::cells::{unwritten, write_cells};
use crate::stored::Stored;
use sqlite_items::{Items, at};
use std::alloc::{AllocError, Global};
use std::mem;
use stepper_values::value::Cell;

/// By base; none where the base doesn't live.
pub type Table = Vec<Option<Items<Stored>>>;

/// The bits of the base; none where it doesn't live.
pub fn bits(table: &[Option<Items<Stored>>], base: u32) -> &[Stored]
    ensures { result.now ≡ bits_at table.now base }
{
    match at(table, base as usize) {
        Some(Some(bits)) => bits.as_slice(),
        Some(None) => &[],
        None => &[],
    }
}

/// Room for the base.
fn grow(table: &mut Vec<Option<Items<Stored>>>, base: u32) -> Result<(), AllocError>
    ensures room { OnOk result (base < length table.new.items) }
    ensures same { (deaths : List ℕ) → memory_of deaths table.new.items ≡ memory_of deaths table.old.items }
    ensures times { (now : ℕ) → AllBefore now table.old.items → AllBefore now table.new.items }
{
    while table.len() <= base as usize {
        table.push(None)?;
    }
    Ok(())
}

/// Takes the bits of the base, if it lives.
fn take(alloc: Global, table: &mut Vec<Option<Items<Stored>>>, base: u32) -> Items<Stored>
    requires { base < length table.old.items }
    ensures cells { result ≡ bits_at table.old.items base }
    ensures rest { table.new.items ≡ slice_set table.old.items base None }
{
    match mem::replace(&mut table[base as usize], None) {
        Some(cells) => cells,
        None => Items::new(alloc),
    }
}

/// Writes bits over those of the base from bit `first` on.
pub fn write_base(
    alloc: Global,
    now: u64,
    table: &mut Vec<Option<Items<Stored>>>,
    base: u32,
    first: u128,
    new: &[Cell],
) -> Result<(), AllocError>
    requires { first ≤ 2 ^ 80 }
    ensures done { OnOk result ((deaths : List ℕ) → AllByRecursion (λ d. d ≤ now) deaths → memory_of deaths table.new.items ≡ memories.with_base (memory_of deaths table.old.items) base (Some (memories.overwritten (unwrap_or (memory_of deaths table.old.items base) []) first (map cell_of new.now)))) }
    ensures times { AllBefore now table.old.items → AllBefore now table.new.items }
{
    grow(table, base)?;
    let mut cells = take(alloc, table, base);
    let done = write_cells(alloc, now, &mut cells, first, new);
    table[base as usize] = Some(cells);
    done
}

/// The object is born, not written yet.
pub fn bear(
    alloc: Global,
    now: u64,
    table: &mut Vec<Option<Items<Stored>>>,
    base: u32,
    bytes: u32,
) -> Result<(), AllocError>
    ensures done { OnOk result ((deaths : List ℕ) → memory_of deaths table.new.items ≡ memories.with_base (memory_of deaths table.old.items) base (Some (replicate (8 * bytes) values.Uninit))) }
    ensures times { AllBefore now table.old.items → AllBefore now table.new.items }
{
    grow(table, base)?;
    let cells = unwritten(alloc, now, bytes)?;
    table[base as usize] = Some(cells);
    Ok(())
}

/// The object has these bits alone.
pub fn place_base(
    alloc: Global,
    now: u64,
    table: &mut Vec<Option<Items<Stored>>>,
    base: u32,
    new: &[Cell],
) -> Result<(), AllocError>
    ensures done { OnOk result ((deaths : List ℕ) → AllByRecursion (λ d. d ≤ now) deaths → memory_of deaths table.new.items ≡ memories.with_base (memory_of deaths table.old.items) base (Some (map cell_of new.now))) }
    ensures times { AllBefore now table.old.items → AllBefore now table.new.items }
{
    let mut cells = Items::new(alloc);
    write_cells(alloc, now, &mut cells, 0, new)?;
    grow(table, base)?;
    table[base as usize] = Some(cells);
    Ok(())
}

//! Bits one behind the other: reading and writing some of them.

ghost use Rattle.std.specs.Prelude.{◌≡◌, ◌*◌, ◌<◌, ◌≤◌, ◌^◌, ℕ, List, map, replicate, IfOk, OnOk};
ghost use Rattle.std.specs.List.{AllByRecursion};
ghost use Rattle.c_memory.specs.Memories as memories;
ghost use Rattle.c_memory.specs.Values as values;
ghost use Rattle.stepper_values.specs.Views.{cell_of};
ghost use Rattle.stepper_memory.specs.Views.{death_of, is_stale, seen, IsBefore};
ghost use Rattle.stepper_memory.specs.Putting.{put_at};

use crate::stored::Stored;
use sqlite_items::Items;
use std::alloc::{AllocError, Global};
use stepper_values::value::Cell;

fn death_of(deaths: &[u64], base: u32) -> u64
    ensures { result ≡ death_of deaths.now base }
{
    match deaths.get(base as usize) {
        Some(time) => *time,
        None => 0,
    }
}

/// One of the bases has died since.
fn is_stale(deaths: &[u64], since: u64, bases: &[u32]) -> bool
    ensures { result ≡ is_stale deaths.now since bases.now }
{
    bases.iter().any(|base| since < death_of(deaths, *base))
}

/// What a bit is by now.
fn seen(alloc: Global, deaths: &[u64], stored: &Stored) -> Result<Cell, AllocError>
    ensures { IfOk result (λ cell. cell_of cell ≡ seen deaths.now stored.now) }
{
    match &stored.cell {
        Cell::Uninit => Ok(Cell::Uninit),
        Cell::Dead => Ok(Cell::Dead),
        Cell::Bit(bit, bases, piece) => {
            if is_stale(deaths, stored.since, bases.as_slice()) {
                Ok(Cell::Dead)
            } else {
                let own = Items::from_slice(alloc, bases.as_slice())?;
                Ok(Cell::Bit(*bit, own, *piece))
            }
        }
    }
}

/// What bits are by now.
pub fn seen_all(alloc: Global, deaths: &[u64], cells: &[Stored]) -> Result<Items<Cell>, AllocError>
    ensures { IfOk result (λ made. map cell_of made ≡ map (seen deaths.now) cells.now) }
{
    let mut made = Items::new(alloc);
    for stored in cells {
        made.push(seen(alloc, deaths, stored)?)?;
    }
    Ok(made)
}

/// Bits that were not written since their object was born.
pub fn unwritten(alloc: Global, now: u64, bytes: u32) -> Result<Items<Stored>, AllocError>
    ensures cells { IfOk result (λ made. (deaths : List ℕ) → map (seen deaths) made ≡ replicate (8 * bytes) values.Uninit) }
    ensures times { IfOk result (AllByRecursion (IsBefore now)) }
{
    let mut made = Items::new(alloc);
    for _ in 0..8 * bytes as u64 {
        made.push(Stored {
            cell: Cell::Uninit,
            since: now,
        })?;
    }
    Ok(made)
}

/// Puts a bit in the place of another, or behind all of them.
fn put(cells: &mut Items<Stored>, at: u128, stored: Stored) -> Result<(), AllocError>
    ensures done { OnOk result (cells.new ≡ put_at cells.old at stored) }
    ensures times { (now : ℕ) → IsBefore now stored → AllByRecursion (IsBefore now) cells.old → AllByRecursion (IsBefore now) cells.new }
{
    if at < cells.len() as u128 {
        cells.set(at as usize, stored);
        Ok(())
    } else {
        cells.push(stored)
    }
}

fn fresh(alloc: Global, now: u64, cell: &Cell) -> Result<Stored, AllocError>
    ensures { IfOk result (λ stored. stored ≡ record { cell = cell.now; since = now }) }
{
    let cell = cell.duplicate(alloc)?;
    Ok(Stored { cell, since: now })
}

/// Writes bits over those from bit `first` on, and behind all of them where they end earlier.
pub fn write_cells(
    alloc: Global,
    now: u64,
    cells: &mut Items<Stored>,
    first: u128,
    new: &[Cell],
) -> Result<(), AllocError>
    requires { first ≤ 2 ^ 80 }
    ensures done { OnOk result ((deaths : List ℕ) → AllByRecursion (λ d. d ≤ now) deaths → map (seen deaths) cells.new ≡ memories.overwritten (map (seen deaths) cells.old) first (map cell_of new.now)) }
    ensures times { AllByRecursion (IsBefore now) cells.old → AllByRecursion (IsBefore now) cells.new }
{
    let mut at = first;
    for cell in new {
        put(cells, at, fresh(alloc, now, cell)?)?;
        at += 1;
    }
    Ok(())
}

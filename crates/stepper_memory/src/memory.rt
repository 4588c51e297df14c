//! Memories.

ghost use Rattle.std.specs.Prelude.{◌≡◌, [], ◌∷◌, ◌≤◌, ◌^◌, ◌*◌, None, Some, map, replicate, unwrap_or, is_some, IfOk, OnOk};
ghost use Rattle.c_memory.specs.Memories as memories;
ghost use Rattle.c_memory.specs.Values as values;
ghost use Rattle.stepper_values.specs.Views.{cell_of};
ghost use Rattle.stepper_memory.specs.Views.{plain};

use crate::cells::seen_all;
use crate::deaths::kill_all;
use crate::stored::Stored;
use crate::table::{bear, bits, place_base, write_base};
use sqlite_items::Items;
use std::alloc::{AllocError, Global};
use std::marker::Model;
use stepper_values::value::{Cell, back, front};

/// The bits of each live base. Contracts see it by `plain`, the function from bases to their bits.
#[derive(Drop)]
pub struct Memory {
    table: Vec<Option<Items<Stored>>>,
    deaths: Items<u64>,
    clock: u64,
}

impl Model for Memory {
    ghost use Rattle.stepper_memory.specs.Views.{Contents, IsTimely};

    ghost Value = { Contents };

    ghost view = { λ m. (m.deaths, m.table.items) };

    ghost invariant = { λ m. IsTimely m.clock m.deaths m.table.items };
}

impl Memory {
    /// No base lives.
    pub fn new(alloc: Global) -> Memory
        ensures { plain result ≡ (λ base. None) }
    {
        Memory {
            table: Vec::new(alloc),
            deaths: Items::new(alloc),
            clock: 0,
        }
    }

    /// Whether the base lives.
    pub fn lives(&self, base: u32) -> bool
        ensures { result ≡ is_some (plain self.now base) }
    {
        match self.table.get(base as usize) {
            Some(Some(_)) => true,
            Some(None) => false,
            None => false,
        }
    }

    /// So many bits of the base from bit `first` on, as far as there are any.
    pub fn read(
        &self,
        alloc: Global,
        base: u32,
        first: u128,
        count: u128,
    ) -> Result<Items<Cell>, AllocError>
        ensures { IfOk result (λ cells. map cell_of cells ≡ memories.cells_at (plain self.now) base first count) }
    {
        let part = front(back(bits(&self.table, base), first), count);
        seen_all(alloc, self.deaths.as_slice(), part)
    }

    /// Writes bits over those of the base from bit `first` on.
    pub fn write(
        &mut self,
        alloc: Global,
        base: u32,
        first: u128,
        new: &[Cell],
    ) -> Result<(), AllocError>
        requires { first ≤ 2 ^ 80 }
        ensures { OnOk result (plain self.new ≡ memories.with_base (plain self.old) base (Some (memories.overwritten (unwrap_or (plain self.old base) []) first (map cell_of new.now)))) }
    {
        write_base(alloc, self.clock, &mut self.table, base, first, new)
    }

    /// The base lives, and has these bits alone.
    pub fn place(&mut self, alloc: Global, base: u32, new: &[Cell]) -> Result<(), AllocError>
        ensures { OnOk result (plain self.new ≡ memories.with_base (plain self.old) base (Some (map cell_of new.now))) }
    {
        place_base(alloc, self.clock, &mut self.table, base, new)
    }

    /// The base lives from now on, in so many bytes that aren't written yet.
    pub fn bear(&mut self, alloc: Global, base: u32, bytes: u32) -> Result<(), AllocError>
        ensures { OnOk result (plain self.new ≡ memories.with_base (plain self.old) base (Some (replicate (8 * bytes) values.Uninit))) }
    {
        bear(alloc, self.clock, &mut self.table, base, bytes)
    }

    /// The bases die (C11 6.2.4p2).
    pub fn kill(&mut self, bases: &[u32]) -> Result<(), AllocError>
        ensures { OnOk result (plain self.new ≡ memories.died bases.now (plain self.old)) }
    {
        let before = self.clock;
        match before.checked_add(1) {
            None => Err(AllocError),
            Some(later) => {
                self.clock = later;
                kill_all(&mut self.table, &mut self.deaths, before, bases)
            }
        }
    }
}

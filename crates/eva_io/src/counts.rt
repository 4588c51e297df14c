ghost use Rattle.std.specs.Prelude.{◌≡◌, ◌≢◌, ℕ, ◌≤◌, List, [], OnOk, IsSome};
ghost use Rattle.eva_io.specs.Memory.{count_of, next_count, place_of};

use c_base::name::Name;
use std::alloc::{AllocError, Global};

/// A count for each name that was seen, 0 for every other name.
#[derive(Drop)]
pub(crate) struct Counts {
    pub(crate) entries: Vec<(Name, u64)>,
}

impl Counts {
    pub(crate) fn new(alloc: Global) -> Counts
        ensures { result.entries.items ≡ [] }
    {
        Counts {
            entries: Vec::new(alloc),
        }
    }

    fn place(&self, name: &Name) -> Option<usize>
        ensures { result ≡ place_of self.now.entries.items name.now }
    {
        self.entries
            .iter()
            .position(|entry| entry.0.as_bytes() == name.as_bytes())
    }

    pub(crate) fn count(&self, name: &Name) -> u64
        ensures { result ≡ count_of self.now.entries.items name.now }
    {
        match self.place(name) {
            Some(at) => self.entries[at].1,
            None => 0,
        }
    }

    /// Makes room for the count of `name`, so that it can rise without memory.
    pub(crate) fn admit(&mut self, alloc: Global, name: &Name) -> Result<(), AllocError>
        ensures admitted { OnOk result (IsSome (place_of self.new.entries.items name.now)) }
        ensures kept { (other : List ℕ) →
            count_of self.new.entries.items other ≡ count_of self.old.entries.items other }
    {
        if self.place(name).is_none() {
            self.entries.push((name.duplicate(alloc)?, 0))?;
        }
        Ok(())
    }

    /// Raises the count of `name`, which was admitted; at its last value it stays.
    pub(crate) fn raise(&mut self, name: &Name)
        requires { IsSome (place_of self.old.entries.items name.now) }
        ensures raised { count_of self.new.entries.items name.now
            ≡ next_count (count_of self.old.entries.items name.now) }
        ensures others { (other : List ℕ) → other ≢ name.now →
            count_of self.new.entries.items other ≡ count_of self.old.entries.items other }
        ensures grows { (other : List ℕ) →
            count_of self.old.entries.items other ≤ count_of self.new.entries.items other }
    {
        if let Some(at) = self.place(name) {
            let entry = &mut self.entries[at];
            entry.1 = entry.1.saturating_add(1);
        }
    }
}

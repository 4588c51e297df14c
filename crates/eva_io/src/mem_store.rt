ghost use Rattle.std.specs.Prelude.{◌≡◌, ◌≢◌, ℕ, ◌+◌, ◌≤◌, List, [], map, find, reverse, Some, false};
ghost use Rattle.eva_io.specs.Memory.{content_of, count_of, is_listed, is_named, next_count, file_of, LoadAnswers};
ghost use Rattle.eva_io.specs.Outside.{LoadCounts};
ghost use Rattle.std.specs.Option.{option_copied};

use crate::calls::Calls;
use crate::counts::Counts;
use crate::store::{LoadFault, Store};
use c_base::name::Name;
use std::alloc::Global;
use std::marker::Model;

/// A store that keeps its files in memory, and tells them.
///
/// Of entries with one name the last counts. A load fails where the call's number, from 1, was
/// listed, and where the name isn't held.
#[derive(Drop)]
pub struct MemStore {
    alloc: Global,
    files: Vec<(Name, Vec<u8>)>,
    calls: Calls,
    faults: Counts,
}

impl Model for MemStore {
    ghost use Rattle.std.specs.Prelude.{map};
    ghost use Rattle.eva_io.specs.Memory.{Files, file_of};

    ghost Value = { Files };

    ghost view = { λ store. record {
      files = map file_of store.files.items;
      failing = store.calls.failing.items;
      calls = store.calls.made;
      faults = store.faults.entries.items;
    } };
}

impl MemStore {
    /// A store of these files; `failing` has the numbers of the calls of `load` that fail, in any
    /// order.
    pub fn new(alloc: Global, files: Vec<(Name, Vec<u8>)>, failing: Vec<u64>) -> MemStore
        ensures { result ≡ record {
          files = map file_of files.items;
          failing = failing.items;
          calls = 0;
          faults = [];
        } }
    {
        MemStore {
            alloc,
            files,
            calls: Calls { failing, made: 0 },
            faults: Counts::new(alloc),
        }
    }
}

fn last_entry<'a>(files: &'a [(Name, Vec<u8>)], name: &Name) -> Option<&'a (Name, Vec<u8>)>
    ensures { option_copied result ≡ find (is_named name.now) (reverse files.now) }
{
    files
        .iter()
        .rev()
        .find(|entry| entry.0.as_bytes() == name.as_bytes())
}

fn short_copy(alloc: Global, content: &[u8], most: u64) -> Result<Vec<u8>, LoadFault>
    ensures { LoadAnswers result false (Some content.now) most }
{
    if content.len() as u64 > most {
        return Err(LoadFault::TooLong);
    }
    match Vec::from_slice(alloc, content) {
        Ok(bytes) => Ok(bytes),
        Err(_) => Err(LoadFault::Memory),
    }
}

impl Store for MemStore {
    ghost told = { λ store name. Some (content_of store.files name) };

    ghost faults_at = { λ store name. count_of store.faults name };

    /// Fails exactly where this call is listed or the name isn't held, unless memory is wanting.
    fn load(&mut self, alloc: Global, name: &Name, most: u64) -> Result<Vec<u8>, LoadFault>
        ensures answer { LoadAnswers result (is_listed self.old.failing (self.old.calls + 1))
            (content_of self.old.files name.now) most }
        ensures counted { LoadCounts result
            (count_of self.old.faults name.now) (count_of self.new.faults name.now) }
        ensures others { (other : List ℕ) → other ≢ name.now →
            count_of self.new.faults other ≡ count_of self.old.faults other }
        ensures grows { (other : List ℕ) →
            count_of self.old.faults other ≤ count_of self.new.faults other }
        ensures calls { self.new.calls ≡ next_count self.old.calls }
        ensures files { self.new.files ≡ self.old.files }
        ensures failing { self.new.failing ≡ self.old.failing }
    {
        let fails = self.calls.next_fails();
        if self.faults.admit(self.alloc, name).is_err() {
            return Err(LoadFault::Memory);
        }
        match last_entry(self.files.as_slice(), name) {
            Some(entry) if !fails => short_copy(alloc, entry.1.as_slice(), most),
            _ => {
                self.faults.raise(name);
                Err(LoadFault::Failed)
            }
        }
    }

    fn faults(&self, name: &Name) -> u64 {
        self.faults.count(name)
    }
}

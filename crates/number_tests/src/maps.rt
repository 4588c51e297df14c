//! The persistent map.
ghost use Rattle.std.specs.Prelude.{max, unwrap_or};
ghost use Rattle.std.specs.Option.{option_map};

use ptree::{Mem, Merger, PTree, set_and_get};
use std::alloc::Global;
use std::test::Fail;

/// Keeps the keys of the first map, with the greater value where both have one.
struct Greater;

impl Merger<u64> for Greater {
    ghost merged = { λ _ _ a b. option_map (λ x. max x (unwrap_or b 0)) a };

    fn merge(
        &self,
        _alloc: Global,
        _key: u64,
        a: Option<&u64>,
        b: Option<&u64>,
    ) -> Mem<Option<u64>> {
        match a {
            None => Ok(None),
            Some(a) => match b {
                None => Ok(Some(*a)),
                Some(b) => Ok(Some((*a).max(*b))),
            },
        }
    }
}

/// A key and its value.
#[derive(Clone, Copy)]
struct Entry {
    key: u64,
    value: u64,
}

const ONE: Entry = Entry { key: 1, value: 10 };

const FIVE: Entry = Entry { key: 5, value: 50 };

const NINE: Entry = Entry { key: 9, value: 90 };

const LAST: Entry = Entry {
    key: u64::MAX,
    value: 7,
};

fn map_of(alloc: Global, entries: &[Entry]) -> Mem<PTree<u64>> {
    let mut map = PTree::new();
    for entry in entries {
        map = map.set(alloc, entry.key, entry.value)?;
    }
    Ok(map)
}

/// The walk from a key on meets these entries alone.
fn has_entries(map: &PTree<u64>, from: u64, entries: &[Entry]) -> bool {
    let mut count = 0;
    for (key, value) in map.walk(from) {
        match entries.get(count) {
            None => return false,
            Some(entry) => {
                if entry.key != key || entry.value != *value {
                    return false;
                }
                count += 1;
            }
        }
    }
    count == entries.len()
}

fn is_value(found: Option<&u64>, value: u64) -> bool {
    match found {
        None => false,
        Some(n) => *n == value,
    }
}

fn is_entry(found: Option<(u64, &u64)>, entry: Entry) -> bool {
    match found {
        None => false,
        Some((key, value)) => key == entry.key && *value == entry.value,
    }
}

#[test]
fn lookups(rt: HostRuntime) -> Result<(), Fail> {
    let map = map_of(rt.alloc(), &[FIVE, LAST, ONE, NINE])?;
    assert!(rt; is_value(map.get(9), 90));
    assert!(rt; map.get(8).is_none());
    assert!(rt; is_entry(map.at_or_before(8), FIVE));
    assert!(rt; map.at_or_before(0).is_none());
    assert!(rt; is_entry(map.at_or_after(6), NINE));
    assert!(rt; has_entries(&map, 2, &[FIVE, NINE, LAST]));
    Ok(())
}

#[test]
fn old_maps_stay(rt: HostRuntime) -> Result<(), Fail> {
    let old = map_of(rt.alloc(), &[ONE, NINE])?;
    let shared = old.share()?;
    let more = old.set(rt.alloc(), 5, 50)?;
    let fewer = more.remove(rt.alloc(), 1)?;
    assert!(rt; has_entries(&more, 0, &[ONE, FIVE, NINE]));
    assert!(rt; has_entries(&fewer, 0, &[FIVE, NINE]));
    assert!(rt; has_entries(&shared, 0, &[ONE, NINE]));
    Ok(())
}

#[test]
fn a_new_key(rt: HostRuntime) -> Result<(), Fail> {
    let (new, old) = set_and_get(&PTree::new(), rt.alloc(), 5, 60)?;
    assert!(rt; is_value(new.as_ref(), 60));
    assert!(rt; old.is_none());
    Ok(())
}

#[test]
fn merges(rt: HostRuntime) -> Result<(), Fail> {
    let first = map_of(rt.alloc(), &[ONE, FIVE, NINE])?;
    let sixty = Entry { key: 5, value: 60 };
    let eighty = Entry { key: 9, value: 80 };
    let high = Entry {
        key: 1 << 40,
        value: 1,
    };
    let second = map_of(rt.alloc(), &[sixty, eighty, high])?;
    let merged = first.merge(rt.alloc(), &second, &Greater)?;
    assert!(rt; has_entries(&merged, 0, &[ONE, sixty, NINE]));
    Ok(())
}

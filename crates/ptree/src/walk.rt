//! The walk over a map in the order of its keys.
ghost use Rattle.std.specs.Prelude.{◌≡◌};
ghost use Rattle.std.specs.Iterator.{YieldsFirstBy, item_count};
ghost use Rattle.ptree.specs.Entries as map;

use crate::PTree;
use std::marker::Model;

/// The entries of a map from a key on, in ascending order of the keys, seen as the list of those that are left.
/// It keeps no memory: each step finds its entry anew, by a path of at most 64 forks.
#[derive(Drop)]
pub struct Walk<'a, V> {
    tree: &'a PTree<V>,
    /// The least key that was not passed, if there is one.
    from: Option<u64>,
}

impl<'a, V> Model for Walk<'a, V> {
    ghost use Rattle.std.specs.Prelude.{ℕ, List};

    ghost Value = { List (ℕ × V) };

    ghost use Rattle.ptree.specs.Entries.{entries_left};

    ghost view = { λ w. entries_left w.tree.now w.from };
}

impl<V> PTree<V> {
    /// A walk over the entries whose keys are not below the given one.
    pub fn walk(&self, from: u64) -> Walk<'_, V>
        ensures { result ≡ map.entries_from self.now from }
    {
        Walk {
            tree: self,
            from: Some(from),
        }
    }
}

impl<'a, V> Iterator for Walk<'a, V> {
    type Item = (u64, &'a V);

    ghost next_gives = { YieldsFirstBy (λ entry. (entry.0, entry.1.now)) (λ rest. rest) };

    ghost remaining = { item_count (λ rest. rest) };

    fn next(&mut self) -> Option<(u64, &'a V)> {
        let tree = self.tree;
        match self.from {
            None => None,
            Some(from) => match tree.at_or_after(from) {
                None => {
                    self.from = None;
                    None
                }
                Some((key, value)) => {
                    if key == u64::MAX {
                        self.from = None;
                        return Some((key, value));
                    }
                    self.from = Some(key + 1);
                    Some((key, value))
                }
            },
        }
    }
}

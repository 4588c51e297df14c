//! Persistent maps from `u64`, as trees by the bits of the keys
//! (C. Okasaki and A. Gill, Fast Mergeable Integer Maps, 1998).
#![tactic(auto)]

ghost use Rattle.std.specs.Prelude.{◌≡◌, ℕ, [], IfOk, Some, None, if◌then◌else◌, nat_eq};
ghost use Rattle.std.specs.Option.{option_copied};
ghost use Rattle.ptree.specs.Entries as map;
ghost use Rattle.ptree.specs.Node.{part_entries, IsPart};

mod change;
mod merge;
mod node;
mod walk;

pub use merge::Merger;
use node::Node;
use std::alloc::{AllocError, Global};
use std::marker::Model;
use std::rc::Rc;
pub use walk::Walk;

/// What a call gives that may run out of memory.
pub type Mem<T> = Result<T, AllocError>;

/// A finite map from `u64`, seen as the list of its entries in ascending order of the keys.
///
/// It is a tree by the bits of the keys, of at most 64 forks on a path. A call makes a new map and leaves the old one
/// as it is. `set` and `remove` share all nodes with the old map but those on one path. `merge` asks the merger at each
/// key of both maps.
#[derive(Drop)]
pub struct PTree<V> {
    root: Option<Rc<Node<V>>>,
}

impl<V> Model for PTree<V> {
    ghost use Rattle.std.specs.Prelude.{List, ℕ};

    ghost Value = { List (ℕ × V) };

    ghost use Rattle.ptree.specs.Node.{root_entries, IsRoot};

    ghost view = { λ t. root_entries t.root };

    ghost invariant = { λ t. IsRoot t.root };
}

impl<V> PTree<V> {
    /// The map with no entry.
    pub fn new() -> PTree<V>
        ensures { result ≡ [] }
    {
        PTree { root: None }
    }

    /// The value at the key.
    pub fn get(&self, key: u64) -> Option<&V>
        ensures value { option_copied result ≡ map.get self.now key }
        ensures map { map.IsMap self.now }
    {
        match &self.root {
            None => None,
            Some(node) => node.get(key),
        }
    }

    /// The entry of the greatest key that is not above the given one.
    pub fn at_or_before(&self, key: u64) -> Option<(u64, &V)>
        ensures value { map.copied result ≡ map.at_or_before self.now key }
        ensures greatest { map.IsGreatestUpTo self.now key (map.copied result) }
        ensures map { map.IsMap self.now }
    {
        match &self.root {
            None => None,
            Some(node) => node.at_or_before(key),
        }
    }

    /// The entry of the least key that is not below the given one.
    pub fn at_or_after(&self, key: u64) -> Option<(u64, &V)>
        ensures value { map.copied result ≡ map.at_or_after self.now key }
        ensures least { map.IsLeastFrom self.now key (map.copied result) }
        ensures map { map.IsMap self.now }
    {
        match &self.root {
            None => None,
            Some(node) => node.at_or_after(key),
        }
    }
}

impl<V> PTree<V> {
    /// The tree, if there is an entry.
    fn part(&self) -> Option<&Node<V>>
        ensures entries { part_entries result ≡ self.now }
        ensures part { IsPart result }
        ensures map { map.IsMap self.now }
    {
        match &self.root {
            None => None,
            Some(node) => Some(node),
        }
    }
}

impl<V: Drop> PTree<V> {
    /// The same map, by sharing its nodes. Fails where the count of the owners is full.
    pub fn share(&self) -> Mem<PTree<V>>
        ensures { IfOk result (λ t. t ≡ self.now) }
    {
        match &self.root {
            None => Ok(PTree { root: None }),
            Some(node) => Ok(PTree {
                root: Some(node.clone()?),
            }),
        }
    }

    /// The map with the value at the key. Fails where there is no memory.
    pub fn set(&self, alloc: Global, key: u64, value: V) -> Mem<PTree<V>>
        ensures value { IfOk result (λ t. t ≡ map.set self.now key value) }
        ensures lookup { IfOk result (λ t. (k : ℕ) → map.get t k
            ≡ (if nat_eq key k then Some value else map.get self.now k)) }
        ensures map { IfOk result (λ t. map.IsMap t) }
    {
        match &self.root {
            None => Ok(PTree {
                root: Some(Node::leaf(alloc, key, value)?),
            }),
            Some(node) => Ok(PTree {
                root: Some(Node::set(node, alloc, key, value)?),
            }),
        }
    }

    /// The map without the key. Fails where there is no memory.
    pub fn remove(&self, alloc: Global, key: u64) -> Mem<PTree<V>>
        ensures value { IfOk result (λ t. t ≡ map.remove self.now key) }
        ensures lookup { IfOk result (λ t. (k : ℕ) → map.get t k
            ≡ (if nat_eq key k then None else map.get self.now k)) }
        ensures map { IfOk result (λ t. map.IsMap t) }
    {
        match &self.root {
            None => Ok(PTree { root: None }),
            Some(node) => Ok(PTree {
                root: Node::remove(node, alloc, key)?,
            }),
        }
    }

    /// The map that has at each key what the merger answers there. Fails where there is no memory, or the merger fails.
    pub fn merge<F: Merger<V>>(&self, alloc: Global, other: &PTree<V>, merger: &F) -> Mem<PTree<V>>
        ensures value { IfOk result (λ t. t ≡ map.merged (F.merged merger.now) self.now other.now) }
        ensures lookup { IfOk result (λ t. (k : ℕ) → map.get t k
            ≡ map.answer_at (F.merged merger.now) k (map.get self.now k) (map.get other.now k)) }
        ensures map { IfOk result (λ t. map.IsMap t) }
    {
        Ok(PTree {
            root: Node::merge(self.part(), other.part(), alloc, merger)?,
        })
    }
}

/// Sets a key that the map lacks, and asks the new map and the old one for it. Fails where there is no memory.
pub fn set_and_get<V: Copy>(
    old: &PTree<V>,
    alloc: Global,
    key: u64,
    value: V,
) -> Mem<(Option<V>, Option<V>)>
    requires { map.get old.now key ≡ None }
    ensures new_map { IfOk result (λ found. found.0 ≡ Some value) }
    ensures old_map { IfOk result (λ found. found.1 ≡ None) }
{
    let new = old.set(alloc, key, value)?;
    Ok((new.get(key).copied(), old.get(key).copied()))
}

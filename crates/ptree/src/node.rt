//! The nodes of a tree, what they answer, and how they are put together.
ghost use Rattle.std.specs.Prelude.{◌≡◌, ◌<◌, ◌++◌, IfOk};
ghost use Rattle.std.specs.Option.{option_copied};
ghost use Rattle.ptree.specs.Entries as map;
ghost use Rattle.ptree.specs.Node.{entries, IsTree, IsFork, Branches, AreApart, root_entries, IsRoot};

use crate::Mem;
use std::alloc::Global;
use std::rc::Rc;

/// A tree by the bits of the keys, the highest bit that tells two keys apart first.
#[derive(Drop)]
pub(crate) enum Node<V> {
    Leaf {
        key: u64,
        value: V,
    },
    /// Its keys agree above the bit `bit`, which is clear on the left and set on the right.
    /// `middle` is the least number that agrees with them and has the bit set.
    Fork {
        bit: u32,
        middle: u64,
        left: Rc<Node<V>>,
        right: Rc<Node<V>>,
    },
}

impl<V> Node<V> {
    pub(crate) fn get(&self, key: u64) -> Option<&V>
        requires { IsTree self.now }
        ensures { option_copied result ≡ map.get (entries self.now) key }
    {
        match self {
            Node::Leaf { key: own, value } => { if *own == key { Some(value) } else { None } }
            Node::Fork {
                middle,
                left,
                right,
                ..
            } => {
                if key < *middle {
                    left.get(key)
                } else {
                    right.get(key)
                }
            }
        }
    }

    pub(crate) fn at_or_before(&self, key: u64) -> Option<(u64, &V)>
        requires { IsTree self.now }
        ensures { map.copied result ≡ map.at_or_before (entries self.now) key }
    {
        match self {
            Node::Leaf { key: own, value } => {
                if *own <= key {
                    Some((*own, value))
                } else {
                    None
                }
            }
            Node::Fork {
                middle,
                left,
                right,
                ..
            } => {
                if key < *middle {
                    return left.at_or_before(key);
                }
                match right.at_or_before(key) {
                    Some(found) => Some(found),
                    None => left.at_or_before(key),
                }
            }
        }
    }

    pub(crate) fn at_or_after(&self, key: u64) -> Option<(u64, &V)>
        requires { IsTree self.now }
        ensures { map.copied result ≡ map.at_or_after (entries self.now) key }
    {
        match self {
            Node::Leaf { key: own, value } => {
                if key <= *own {
                    Some((*own, value))
                } else {
                    None
                }
            }
            Node::Fork {
                middle,
                left,
                right,
                ..
            } => {
                if *middle <= key {
                    return right.at_or_after(key);
                }
                match left.at_or_after(key) {
                    Some(found) => Some(found),
                    None => right.at_or_after(key),
                }
            }
        }
    }
}

impl<V: Drop> Node<V> {
    pub(crate) fn leaf(alloc: Global, key: u64, value: V) -> Mem<Rc<Node<V>>>
        ensures { IfOk result (λ n. n.value ≡ Node.Leaf key value) }
    {
        Ok(Rc::new(alloc, Node::Leaf { key, value })?)
    }

    pub(crate) fn fork(
        alloc: Global,
        bit: u32,
        middle: u64,
        left: Rc<Node<V>>,
        right: Rc<Node<V>>,
    ) -> Mem<Rc<Node<V>>>
        requires fork { IsFork bit middle (entries left.value) (entries right.value) }
        requires left { IsTree left.value }
        requires right { IsTree right.value }
        ensures entries { IfOk result (λ n. entries n.value
            ≡ entries left.value ++ entries right.value) }
        ensures tree { IfOk result (λ n. IsTree n.value) }
    {
        Ok(Rc::new(
            alloc,
            Node::Fork {
                bit,
                middle,
                left,
                right,
            },
        )?)
    }

    /// The fork of two sides, or the one that is there.
    pub(crate) fn fork_of(
        alloc: Global,
        bit: u32,
        middle: u64,
        left: Option<Rc<Node<V>>>,
        right: Option<Rc<Node<V>>>,
    ) -> Mem<Option<Rc<Node<V>>>>
        requires fork { IsFork bit middle (root_entries left) (root_entries right) }
        requires left { IsRoot left }
        requires right { IsRoot right }
        ensures entries { IfOk result (λ r. root_entries r
            ≡ root_entries left ++ root_entries right) }
        ensures tree { IfOk result (λ r. IsRoot r) }
    {
        match (left, right) {
            (Some(left), Some(right)) => Ok(Some(Node::fork(alloc, bit, middle, left, right)?)),
            (Some(left), None) => Ok(Some(left)),
            (None, right) => Ok(right),
        }
    }

    /// The tree of the keys of both. Those of `left` agree with `low` above some bits, and those of `right` with `high`.
    pub(crate) fn join(
        alloc: Global,
        low: u64,
        left: Rc<Node<V>>,
        high: u64,
        right: Rc<Node<V>>,
    ) -> Mem<Rc<Node<V>>>
        requires order { low < high }
        requires apart { AreApart low high (entries left.value) (entries right.value) }
        requires left { IsTree left.value }
        requires right { IsTree right.value }
        ensures entries { IfOk result (λ n. entries n.value
            ≡ entries left.value ++ entries right.value) }
        ensures tree { IfOk result (λ n. IsTree n.value) }
    {
        let bit = branch_bit(low, high);
        let middle = (high >> bit) << bit;
        Node::fork(alloc, bit, middle, left, right)
    }
}

/// The highest bit in which the numbers differ.
fn branch_bit(low: u64, high: u64) -> u32
    requires { low < high }
    ensures { Branches result low high }
{
    let mut a = low;
    let mut b = high;
    let mut bit = 0;
    while a / 2 != b / 2 {
        a /= 2;
        b /= 2;
        bit += 1;
    }
    bit
}

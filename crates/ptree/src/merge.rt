//! The merge of two trees.
ghost use Rattle.std.specs.Prelude.{◌≡◌, ◌≢◌, ℕ, ◌+◌, ◌/◌, ◌^◌, ◌≤◌, ◌<◌, ◌++◌, [], IfOk, MatchBool, Option};
ghost use Rattle.std.specs.Option.{option_copied};
ghost use Rattle.ptree.specs.Entries as map;
ghost use Rattle.ptree.specs.Node.{entries, IsTree, IsFork, AreApart, root_entries, IsRoot, top, depth, label, LiesIn, Meets, part_entries, IsPart, part_top};

use crate::Mem;
use crate::node::Node;
use std::alloc::Global;
use std::rc::Rc;

/// What a merge of two maps puts at a key.
pub trait Merger<V> {
    ghost merged: { Self → ℕ → Option V → Option V → Option V };

    /// The value at a key that has `a` in the first map and `b` in the second, if there is to be one.
    /// Asked only where one of the maps has the key. Fails where there is no memory.
    fn merge(&self, alloc: Global, key: u64, a: Option<&V>, b: Option<&V>) -> Mem<Option<V>>
        ensures { IfOk result (λ r. r
            ≡ merged self.now key (option_copied a.entry) (option_copied b.entry)) };
}

/// How two trees lie to one another.
pub(crate) enum Meeting {
    /// Their keys differ above the bits in which the keys of each differ.
    Apart,
    /// Both have one key, and it is the same.
    OneKey,
    /// All keys agree with `middle` above the bit `bit`, and one tree is the fork there.
    Block { bit: u32, middle: u64 },
}

impl<V> Node<V> {
    /// One more than the highest bit in which its keys differ.
    fn top(&self) -> u32
        requires { IsTree self.now }
        ensures value { result ≡ top self.now }
        ensures bound { result ≤ 64 }
        ensures depth { depth self.now ≤ result }
    {
        match self {
            Node::Leaf { .. } => 0,
            Node::Fork { bit, .. } => *bit + 1,
        }
    }

    /// A number with which its keys agree from the bit `top` on.
    fn label(&self) -> u64
        ensures { result ≡ label self.now }
    {
        match self {
            Node::Leaf { key, .. } => *key,
            Node::Fork { middle, .. } => *middle,
        }
    }

    fn meet(a: &Node<V>, b: &Node<V>) -> Meeting
        requires first { IsTree a.now }
        requires second { IsTree b.now }
        ensures { Meets a.now b.now result }
    {
        let first = a.top();
        let second = b.top();
        let bits = first.max(second);
        if differ_above(a.label(), b.label(), bits) {
            return Meeting::Apart;
        }
        if bits == 0 {
            return Meeting::OneKey;
        }
        let bit = bits - 1;
        if first < second {
            return Meeting::Block {
                bit,
                middle: b.label(),
            };
        }
        Meeting::Block {
            bit,
            middle: a.label(),
        }
    }

    /// What the tree has below the middle and from there on.
    fn sides(&self, bit: u32, middle: u64) -> (Option<&Node<V>>, Option<&Node<V>>)
        requires tree { IsTree self.now }
        requires block { LiesIn bit middle self.now }
        ensures entries { entries self.now ≡ part_entries result.0 ++ part_entries result.1 }
        ensures fork { IsFork bit middle (part_entries result.0) (part_entries result.1) }
        ensures low { IsPart result.0 }
        ensures high { IsPart result.1 }
        ensures low_top { part_top result.0 ≤ bit }
        ensures high_top { part_top result.1 ≤ bit }
    {
        match self {
            Node::Leaf { key, .. } => {
                if *key < middle {
                    return (Some(self), None);
                }
                (None, Some(self))
            }
            Node::Fork {
                bit: own,
                middle: label,
                left,
                right,
            } => {
                if *own == bit {
                    return (Some(left), Some(right));
                }
                if *label < middle {
                    return (Some(self), None);
                }
                (None, Some(self))
            }
        }
    }
}

impl<V: Drop> Node<V> {
    fn leaf_of(alloc: Global, key: u64, value: Option<V>) -> Mem<Option<Rc<Node<V>>>>
        ensures entries { IfOk result (λ r. root_entries r ≡ map.set_some [] key value) }
        ensures tree { IfOk result (λ r. IsRoot r) }
    {
        match value {
            None => Ok(None),
            Some(value) => Ok(Some(Node::leaf(alloc, key, value)?)),
        }
    }

    /// The join of two trees, or the one that is there.
    fn join_of(
        alloc: Global,
        low: u64,
        left: Option<Rc<Node<V>>>,
        high: u64,
        right: Option<Rc<Node<V>>>,
    ) -> Mem<Option<Rc<Node<V>>>>
        requires order { low < high }
        requires apart { AreApart low high (root_entries left) (root_entries right) }
        requires left { IsRoot left }
        requires right { IsRoot right }
        ensures entries { IfOk result (λ r. root_entries r
            ≡ root_entries left ++ root_entries right) }
        ensures tree { IfOk result (λ r. IsRoot r) }
    {
        match (left, right) {
            (Some(left), Some(right)) => Ok(Some(Node::join(alloc, low, left, high, right)?)),
            (Some(left), None) => Ok(Some(left)),
            (None, right) => Ok(right),
        }
    }

    /// The merge with a second map that has none of the keys.
    fn merge_first<F: Merger<V>>(&self, alloc: Global, f: &F) -> Mem<Option<Rc<Node<V>>>>
        requires { IsTree self.now }
        ensures entries { IfOk result (λ r. root_entries r
            ≡ map.merged (F.merged f.now) (entries self.now) []) }
        ensures tree { IfOk result (λ r. IsRoot r) }
    {
        match self {
            Node::Leaf { key, value } => {
                let merged = f.merge(alloc, *key, Some(value), nothing(value))?;
                Node::leaf_of(alloc, *key, merged)
            }
            Node::Fork {
                bit,
                middle,
                left,
                right,
            } => {
                let low = left.merge_first(alloc, f)?;
                let high = right.merge_first(alloc, f)?;
                Node::fork_of(alloc, *bit, *middle, low, high)
            }
        }
    }

    /// The merge with a first map that has none of the keys.
    fn merge_second<F: Merger<V>>(&self, alloc: Global, f: &F) -> Mem<Option<Rc<Node<V>>>>
        requires { IsTree self.now }
        ensures entries { IfOk result (λ r. root_entries r
            ≡ map.merged (F.merged f.now) [] (entries self.now)) }
        ensures tree { IfOk result (λ r. IsRoot r) }
    {
        match self {
            Node::Leaf { key, value } => {
                let merged = f.merge(alloc, *key, nothing(value), Some(value))?;
                Node::leaf_of(alloc, *key, merged)
            }
            Node::Fork {
                bit,
                middle,
                left,
                right,
            } => {
                let low = left.merge_second(alloc, f)?;
                let high = right.merge_second(alloc, f)?;
                Node::fork_of(alloc, *bit, *middle, low, high)
            }
        }
    }

    fn merge_apart<F: Merger<V>>(
        a: &Node<V>,
        b: &Node<V>,
        alloc: Global,
        f: &F,
    ) -> Mem<Option<Rc<Node<V>>>>
        requires first { IsTree a.now }
        requires second { IsTree b.now }
        requires apart { Meets a.now b.now Meeting.Apart }
        ensures entries { IfOk result (λ r. root_entries r
            ≡ map.merged (F.merged f.now) (entries a.now) (entries b.now)) }
        ensures tree { IfOk result (λ r. IsRoot r) }
    {
        let first = a.merge_first(alloc, f)?;
        let second = b.merge_second(alloc, f)?;
        let own = a.label();
        let other = b.label();
        if own < other {
            return Node::join_of(alloc, own, first, other, second);
        }
        Node::join_of(alloc, other, second, own, first)
    }

    fn merge_key<F: Merger<V>>(
        a: &Node<V>,
        b: &Node<V>,
        alloc: Global,
        f: &F,
    ) -> Mem<Option<Rc<Node<V>>>>
        requires first { IsTree a.now }
        requires second { IsTree b.now }
        requires same { Meets a.now b.now Meeting.OneKey }
        ensures entries { IfOk result (λ r. root_entries r
            ≡ map.merged (F.merged f.now) (entries a.now) (entries b.now)) }
        ensures tree { IfOk result (λ r. IsRoot r) }
    {
        let key = a.label();
        let merged = f.merge(alloc, key, a.get(key), b.get(key))?;
        Node::leaf_of(alloc, key, merged)
    }

    /// The merge of what there is of two trees.
    // A node that both have is merged like any other: no clause of `Rc::ptr_eq` says that the values are one.
    pub(crate) fn merge<F: Merger<V>>(
        a: Option<&Node<V>>,
        b: Option<&Node<V>>,
        alloc: Global,
        f: &F,
    ) -> Mem<Option<Rc<Node<V>>>>
        requires first { IsPart a }
        requires second { IsPart b }
        ensures entries { IfOk result (λ r. root_entries r
            ≡ map.merged (F.merged f.now) (part_entries a.entry) (part_entries b.entry)) }
        ensures tree { IfOk result (λ r. IsRoot r) }
    {
        match (a, b) {
            (None, None) => Ok(None),
            (Some(a), None) => a.merge_first(alloc, f),
            (None, Some(b)) => b.merge_second(alloc, f),
            (Some(a), Some(b)) => match Node::meet(a, b) {
                Meeting::Apart => Node::merge_apart(a, b, alloc, f),
                Meeting::OneKey => Node::merge_key(a, b, alloc, f),
                Meeting::Block { bit, middle } => {
                    let (a_low, a_high) = a.sides(bit, middle);
                    let (b_low, b_high) = b.sides(bit, middle);
                    let low = Node::merge(a_low, b_low, alloc, f)?;
                    let high = Node::merge(a_high, b_high, alloc, f)?;
                    Node::fork_of(alloc, bit, middle, low, high)
                }
            },
        }
    }
}

/// No value, for as long as the other map's is borrowed.
fn nothing<V>(_other: &V) -> Option<&V>
    ensures { result ≡ None }
{
    None
}

/// Whether the numbers differ in a bit from `bits` on.
fn differ_above(a: u64, b: u64, bits: u32) -> bool
    requires { bits ≤ 64 }
    ensures { MatchBool result (a / 2 ^ bits ≢ b / 2 ^ bits) (a / 2 ^ bits ≡ b / 2 ^ bits) }
{
    if bits == 64 {
        return false;
    }
    a >> bits != b >> bits
}

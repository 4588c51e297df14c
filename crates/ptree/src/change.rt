//! Trees with one key more or less.
ghost use Rattle.std.specs.Prelude.{◌≡◌, ◌++◌, IfOk};
ghost use Rattle.ptree.specs.Entries as map;
ghost use Rattle.ptree.specs.Node.{entries, IsTree, IsFork, IsForeign, root_entries, IsRoot};

use crate::Mem;
use crate::node::Node;
use std::alloc::Global;
use std::rc::Rc;

impl<V: Drop> Node<V> {
    /// The tree with the value at the key.
    pub(crate) fn set(this: &Rc<Node<V>>, alloc: Global, key: u64, value: V) -> Mem<Rc<Node<V>>>
        requires { IsTree this.now.value }
        ensures entries { IfOk result (λ n. entries n.value
            ≡ map.set (entries this.now.value) key value) }
        ensures tree { IfOk result (λ n. IsTree n.value) }
    {
        match this.as_ref() {
            Node::Leaf { key: own, .. } => {
                if *own == key {
                    return Node::leaf(alloc, key, value);
                }
                Node::beside(this, alloc, *own, key, value)
            }
            Node::Fork {
                bit,
                middle,
                left,
                right,
            } => {
                if (key >> *bit) / 2 != (*middle >> *bit) / 2 {
                    return Node::beside(this, alloc, *middle, key, value);
                }
                if key < *middle {
                    let left = Node::set(left, alloc, key, value)?;
                    Node::with_left(alloc, *bit, *middle, left, right)
                } else {
                    let right = Node::set(right, alloc, key, value)?;
                    Node::with_right(alloc, *bit, *middle, left, right)
                }
            }
        }
    }

    /// The tree with a key that leaves `label` at a bit above those in which the keys of the tree differ.
    fn beside(this: &Rc<Node<V>>, alloc: Global, label: u64, key: u64, value: V) -> Mem<Rc<Node<V>>>
        requires tree { IsTree this.now.value }
        requires foreign { IsForeign label key (entries this.now.value) }
        ensures entries { IfOk result (λ n. entries n.value
            ≡ map.set (entries this.now.value) key value) }
        ensures tree { IfOk result (λ n. IsTree n.value) }
    {
        let leaf = Node::leaf(alloc, key, value)?;
        if key < label {
            Node::join(alloc, key, leaf, label, this.clone()?)
        } else {
            Node::join(alloc, label, this.clone()?, key, leaf)
        }
    }

    /// The fork with another left side.
    fn with_left(
        alloc: Global,
        bit: u32,
        middle: u64,
        left: Rc<Node<V>>,
        right: &Rc<Node<V>>,
    ) -> Mem<Rc<Node<V>>>
        requires fork { IsFork bit middle (entries left.value) (entries right.now.value) }
        requires left { IsTree left.value }
        requires right { IsTree right.now.value }
        ensures entries { IfOk result (λ n. entries n.value
            ≡ entries left.value ++ entries right.now.value) }
        ensures tree { IfOk result (λ n. IsTree n.value) }
    {
        Node::fork(alloc, bit, middle, left, right.clone()?)
    }

    /// The fork with another right side.
    fn with_right(
        alloc: Global,
        bit: u32,
        middle: u64,
        left: &Rc<Node<V>>,
        right: Rc<Node<V>>,
    ) -> Mem<Rc<Node<V>>>
        requires fork { IsFork bit middle (entries left.now.value) (entries right.value) }
        requires left { IsTree left.now.value }
        requires right { IsTree right.value }
        ensures entries { IfOk result (λ n. entries n.value
            ≡ entries left.now.value ++ entries right.value) }
        ensures tree { IfOk result (λ n. IsTree n.value) }
    {
        Node::fork(alloc, bit, middle, left.clone()?, right)
    }

    /// The fork of its right side and what there is on the left.
    fn beside_right(
        alloc: Global,
        bit: u32,
        middle: u64,
        left: Option<Rc<Node<V>>>,
        right: &Rc<Node<V>>,
    ) -> Mem<Option<Rc<Node<V>>>>
        requires fork { IsFork bit middle (root_entries left) (entries right.now.value) }
        requires left { IsRoot left }
        requires right { IsTree right.now.value }
        ensures entries { IfOk result (λ r. root_entries r
            ≡ root_entries left ++ entries right.now.value) }
        ensures tree { IfOk result (λ r. IsRoot r) }
    {
        Node::fork_of(alloc, bit, middle, left, Some(right.clone()?))
    }

    /// The fork of its left side and what there is on the right.
    fn beside_left(
        alloc: Global,
        bit: u32,
        middle: u64,
        left: &Rc<Node<V>>,
        right: Option<Rc<Node<V>>>,
    ) -> Mem<Option<Rc<Node<V>>>>
        requires fork { IsFork bit middle (entries left.now.value) (root_entries right) }
        requires left { IsTree left.now.value }
        requires right { IsRoot right }
        ensures entries { IfOk result (λ r. root_entries r
            ≡ entries left.now.value ++ root_entries right) }
        ensures tree { IfOk result (λ r. IsRoot r) }
    {
        Node::fork_of(alloc, bit, middle, Some(left.clone()?), right)
    }

    /// The tree without the key, or nothing where it has no other one.
    pub(crate) fn remove(this: &Rc<Node<V>>, alloc: Global, key: u64) -> Mem<Option<Rc<Node<V>>>>
        requires { IsTree this.now.value }
        ensures entries { IfOk result (λ r. root_entries r
            ≡ map.remove (entries this.now.value) key) }
        ensures tree { IfOk result (λ r. IsRoot r) }
    {
        match this.as_ref() {
            Node::Leaf { key: own, .. } => {
                if *own == key {
                    return Ok(None);
                }
                Ok(Some(this.clone()?))
            }
            Node::Fork {
                bit,
                middle,
                left,
                right,
            } => {
                if key < *middle {
                    let left = Node::remove(left, alloc, key)?;
                    Node::beside_right(alloc, *bit, *middle, left, right)
                } else {
                    let right = Node::remove(right, alloc, key)?;
                    Node::beside_left(alloc, *bit, *middle, left, right)
                }
            }
        }
    }
}

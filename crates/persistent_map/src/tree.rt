//! The tree beneath a map.

ghost use Rattle.std.specs.Prelude.{◌≡◌, ◌≤◌, ◌<◌, ◌^◌, [], ◌∷◌, ◌++◌, length, IfOk, OnOk, OnErr, MatchOption};
ghost use Rattle.std.specs.Option.{option_copied, option_map, option_map_or};
ghost use Rattle.std.specs.FinMap.{find};
ghost use Rattle.std.specs.Arc.{arc_value};
ghost use Rattle.persistent_map.specs.Entries.{entries_of_node};
ghost use Rattle.persistent_map.specs.After.{is_after, after, first_of, entry_of};
ghost use Rattle.persistent_map.specs.Order.{Rise, WasFound, IsPut, IsWithout, IsThere};

use crate::node::Node;
use std::alloc::{AllocError, Global};
use std::cmp::Ordering;
use std::marker::Model;
use std::sync::Arc;

/// Entries in the order of their keys: a weight-balanced tree, whose nodes other trees may share.
#[cycle(tree)]
#[derive(Drop)]
pub(crate) struct Tree<K, V> {
    pub(crate) link: Link<K, V>,
}

/// Nothing, or a node with how many entries stand in it and below it. The number stands beside the pointer, so that
/// balancing reads no node but those that it changes.
#[cycle(tree)]
#[derive(Drop)]
pub(crate) enum Link<K, V> {
    Leaf,
    Fork(u32, Arc<Node<K, V>>),
}

impl<K, V> Model for Tree<K, V> {
    ghost use Rattle.std.specs.Prelude.{List, length};

    ghost Value = { List (K × V) };

    ghost use Rattle.persistent_map.specs.Entries.{entries_of};

    ghost view = { λ t. entries_of t.link };

    ghost size = { length };

    ghost use Rattle.std.proofs.Common.{arith, length-append};

    ghost size_decreases = { λ a h. Prim.grind (arith, length-append) };
}

impl<K, V> Tree<K, V> {
    /// The tree with no entry, which takes no memory.
    pub(crate) fn new() -> Tree<K, V>
        ensures { result ≡ [] }
    {
        Tree { link: Link::Leaf }
    }

    /// How many entries there are, or the greatest number that fits.
    pub(crate) fn weight(&self) -> u32 {
        match self.link {
            Link::Leaf => 0,
            Link::Fork(weight, _) => weight,
        }
    }

    /// The node on top.
    pub(crate) fn node(&self) -> Option<&Node<K, V>>
        ensures { MatchOption result (self.now ≡ []) (λ node. self.now ≡ entries_of_node node.now) }
    {
        match &self.link {
            Link::Leaf => None,
            Link::Fork(_, node) => Some(node),
        }
    }

    /// The same tree again, which shares its nodes.
    pub(crate) fn try_clone(&self) -> Result<Tree<K, V>, AllocError>
        ensures { IfOk result (λ tree. tree ≡ self.now) }
    {
        match &self.link {
            Link::Leaf => Ok(Tree::new()),
            Link::Fork(weight, node) => Ok(Tree {
                link: Link::Fork(*weight, Arc::try_clone(node)?),
            }),
        }
    }

    /// How many entries stand on the longest way down. Takes time in proportion to the number of entries.
    pub(crate) fn depth(&self) -> usize
        ensures most { result ≤ length self.now }
        ensures least { length self.now < 2 ^ 64 → length self.now < 2 ^ result }
    {
        match &self.link {
            Link::Leaf => 0,
            Link::Fork(_, node) => {
                let below = node.left.depth().max(node.right.depth());
                below.saturating_add(1)
            }
        }
    }

    /// Whether the left of the top node is so heavy beside its right that one rotation of its parent to the left
    /// would not balance them.
    pub(crate) fn leans_left(&self) -> bool {
        match &self.link {
            Link::Leaf => false,
            Link::Fork(_, node) => is_heavy(&node.left, &node.right),
        }
    }

    /// The same of the right, and of a rotation to the right.
    pub(crate) fn leans_right(&self) -> bool {
        match &self.link {
            Link::Leaf => false,
            Link::Fork(_, node) => is_heavy(&node.right, &node.left),
        }
    }
}

fn is_heavy<K, V>(inner: &Tree<K, V>, outer: &Tree<K, V>) -> bool {
    u64::from(inner.weight()) + 1 >= 2 * (u64::from(outer.weight()) + 1)
}

impl<K: Copy, V: Drop> Tree<K, V> {
    /// A tree with this node on top. Err where there is no memory for it.
    pub(crate) fn fork(alloc: Global, node: Node<K, V>) -> Result<Tree<K, V>, AllocError>
        ensures { IfOk result (λ tree. tree ≡ entries_of_node node) }
    {
        let weight = node.weight();
        let node = Arc::new(alloc, node)?;
        Ok(Tree {
            link: Link::Fork(weight, node),
        })
    }

    /// Copies the top node where another tree shares it, so that it can be changed in place.
    pub(crate) fn own(&mut self, alloc: Global) -> Result<(), AllocError>
        ensures { self.new ≡ self.old }
    {
        if let Link::Fork(_, node) = &mut self.link {
            if Arc::strong_count(node) != 1 {
                let copy = node.try_clone()?;
                *node = Arc::new(alloc, copy)?;
            }
        }
        Ok(())
    }

    /// The first entry, and a tree of the others. Copies the nodes on the way to it.
    fn split_first(&self, alloc: Global) -> Result<Option<(K, Arc<V>, Tree<K, V>)>, AllocError>
        ensures { IfOk result (λ split.
            MatchOption split (self.now ≡ []) (λ s. self.now ≡ (s.0, arc_value s.1) ∷ s.2)) }
    {
        let Link::Fork(_, node) = &self.link else {
            return Ok(None);
        };
        match node.left.split_first(alloc)? {
            None => {
                let value = Arc::try_clone(&node.value)?;
                Ok(Some((node.key, value, node.right.try_clone()?)))
            }
            Some((key, value, rest)) => {
                let node = node.with_left(rest)?;
                Ok(Some((key, value, Tree::fork_balanced(alloc, node)?)))
            }
        }
    }

    /// The entries on the left and then those on the right, in a tree of which they are the two sides of a node.
    pub(crate) fn join(
        alloc: Global,
        left: &Tree<K, V>,
        right: &Tree<K, V>,
    ) -> Result<Tree<K, V>, AllocError>
        ensures { IfOk result (λ tree. tree ≡ left.now ++ right.now) }
    {
        match right.split_first(alloc)? {
            None => left.try_clone(),
            Some((key, value, right)) => {
                let left = left.try_clone()?;
                Tree::fork_balanced(
                    alloc,
                    Node {
                        left,
                        key,
                        value,
                        right,
                    },
                )
            }
        }
    }

    fn fork_balanced(alloc: Global, mut node: Node<K, V>) -> Result<Tree<K, V>, AllocError>
        ensures { IfOk result (λ tree. tree ≡ entries_of_node node) }
    {
        node.balance(alloc);
        Tree::fork(alloc, node)
    }
}

impl<K: Copy + Ord, V> Tree<K, V> {
    /// The value of the key.
    pub(crate) fn get(&self, key: &K) -> Option<&V>
        ensures { Rise K.cmp self.now → option_copied result ≡ find K.cmp key.now self.now }
    {
        let mut tree = self;
        while let Some(node) = tree.node() {
            match key.cmp(&node.key) {
                Ordering::Less => tree = &node.left,
                Ordering::Equal => return Some(&node.value),
                Ordering::Greater => tree = &node.right,
            }
        }
        None
    }

    /// The node of the first entry whose key comes after the last one, where there is such an entry. Each key does
    /// where there is no last one.
    pub(crate) fn first_after(&self, last: &Option<K>) -> Option<&Node<K, V>>
        ensures { Rise K.cmp self.now →
            option_map (λ node. entry_of node.now) result ≡ first_of (after K.cmp last.now self.now) }
    {
        let mut tree = self;
        let mut found = None;
        while let Some(node) = tree.node() {
            if is_after(last, &node.key) {
                found = Some(node);
                tree = &node.left;
            } else {
                tree = &node.right;
            }
        }
        found
    }
}

/// Whether the key comes after the last one. Each does where there is no last one.
fn is_after<K: Ord>(last: &Option<K>, key: &K) -> bool
    ensures { result ≡ is_after K.cmp last.now key.now }
{
    match last {
        None => true,
        Some(last) => last.cmp(key).is_lt(),
    }
}

impl<K: Copy + Ord, V: Drop> Tree<K, V> {
    /// Gives the key this value, and answers the one that it had. Changes the nodes that are this tree's own in place,
    /// and copies those that it shares. Err where there is no memory for the copies.
    #[cycle(insert)]
    pub(crate) fn insert(
        &mut self,
        alloc: Global,
        key: &K,
        value: Arc<V>,
    ) -> Result<Option<Arc<V>>, AllocError>
        ensures found { IfOk result (WasFound K.cmp key.now self.old) }
        ensures ok { OnOk result (IsPut K.cmp key.now (arc_value value) self.old self.new) }
        ensures err { OnErr result (self.new ≡ self.old) }
    {
        if let Link::Fork(weight, node) = &mut self.link {
            if let Some(node) = Arc::get_mut(node) {
                let old = node.insert(alloc, key, value)?;
                *weight = node.weight();
                return Ok(old);
            }
        }
        let (tree, old) = self.with(alloc, key, value)?;
        *self = tree;
        Ok(old)
    }

    /// A tree in which the key has this value, over copies of the nodes on the way to it, and the value that it had.
    #[cycle(insert)]
    fn with(
        &self,
        alloc: Global,
        key: &K,
        value: Arc<V>,
    ) -> Result<(Tree<K, V>, Option<Arc<V>>), AllocError>
        ensures found { IfOk result (λ made. WasFound K.cmp key.now self.now made.1) }
        ensures tree { IfOk result (λ made. IsPut K.cmp key.now (arc_value value) self.now made.0) }
    {
        match &self.link {
            Link::Leaf => {
                let tree = Tree::fork(alloc, Node::single(*key, value))?;
                Ok((tree, None))
            }
            Link::Fork(_, node) => {
                let mut copy = node.try_clone()?;
                let old = copy.insert(alloc, key, value)?;
                let tree = Tree::fork(alloc, copy)?;
                Ok((tree, old))
            }
        }
    }

    /// Takes the key out, and answers the value that it had. Changes the nodes that are this tree's own in place, and
    /// copies those that it shares. Err where there is no memory for the copies, and only where the key is there.
    #[cycle(remove)]
    pub(crate) fn remove(&mut self, alloc: Global, key: &K) -> Result<Option<Arc<V>>, AllocError>
        ensures found { IfOk result (WasFound K.cmp key.now self.old) }
        ensures ok { OnOk result (IsWithout K.cmp key.now self.old self.new) }
        ensures err { OnErr result (self.new ≡ self.old) }
        ensures there { OnErr result (IsThere K.cmp key.now self.old) }
    {
        if let Link::Fork(weight, node) = &mut self.link {
            if let Some(node) = Arc::get_mut(node) {
                let order = key.cmp(&node.key);
                if order.is_ne() {
                    let old = node.remove_beside(alloc, key, order)?;
                    *weight = node.weight();
                    return Ok(old);
                }
            }
        }
        match self.without(alloc, key)? {
            None => Ok(None),
            Some((tree, old)) => {
                *self = tree;
                Ok(Some(old))
            }
        }
    }

    /// A tree without the key, over copies of the nodes on the way to it, and the value that it had. None where there
    /// is no such key, and then nothing was copied.
    fn without(&self, alloc: Global, key: &K) -> Result<Option<(Tree<K, V>, Arc<V>)>, AllocError>
        ensures found { IfOk result (λ made. WasFound K.cmp key.now self.now (option_map (λ m. m.1) made)) }
        ensures tree { IfOk result (λ made.
            IsWithout K.cmp key.now self.now (option_map_or (λ m. m.0) made self.now)) }
        ensures there { OnErr result (IsThere K.cmp key.now self.now) }
    {
        let Link::Fork(_, node) = &self.link else {
            return Ok(None);
        };
        match key.cmp(&node.key) {
            Ordering::Less => match node.left.without(alloc, key)? {
                None => Ok(None),
                Some((left, old)) => {
                    let tree = Tree::fork_balanced(alloc, node.with_left(left)?)?;
                    Ok(Some((tree, old)))
                }
            },
            Ordering::Equal => {
                let old = Arc::try_clone(&node.value)?;
                let tree = Tree::join(alloc, &node.left, &node.right)?;
                Ok(Some((tree, old)))
            }
            Ordering::Greater => match node.right.without(alloc, key)? {
                None => Ok(None),
                Some((right, old)) => {
                    let tree = Tree::fork_balanced(alloc, node.with_right(right)?)?;
                    Ok(Some((tree, old)))
                }
            },
        }
    }
}

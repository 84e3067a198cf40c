//! A node of the tree beneath a map, and how it is kept in balance.

ghost use Rattle.std.specs.Prelude.{◌≡◌, [], ◌∷◌, IfOk, OnOk, OnErr};
ghost use Rattle.std.specs.Arc.{arc_value};
ghost use Rattle.persistent_map.specs.Entries.{entries_of_node};
ghost use Rattle.persistent_map.specs.Order.{WasFound, IsPut, IsWithout, IsThere, IsBeside};

use crate::tree::{Link, Tree};
use std::alloc::{AllocError, Global};
use std::cmp::Ordering;
use std::mem;
use std::sync::Arc;

/// An entry between those with lesser keys and those with greater ones.
#[cycle(tree)]
#[derive(Drop)]
pub(crate) struct Node<K, V> {
    // The children stand beside the beginning of the key, which is what a look-up reads.
    pub(crate) left: Tree<K, V>,
    pub(crate) right: Tree<K, V>,
    pub(crate) key: K,
    pub(crate) value: Arc<V>,
}

impl<K, V> Node<K, V> {
    pub(crate) fn single(key: K, value: Arc<V>) -> Node<K, V>
        ensures { entries_of_node result ≡ (key, arc_value value) ∷ [] }
    {
        Node {
            left: Tree::new(),
            key,
            value,
            right: Tree::new(),
        }
    }

    /// How many entries there are, or the greatest number that fits.
    pub(crate) fn weight(&self) -> u32 {
        self.left
            .weight()
            .saturating_add(self.right.weight())
            .saturating_add(1)
    }
}

impl<K: Copy, V> Node<K, V> {
    /// The same node again, over the same children.
    pub(crate) fn try_clone(&self) -> Result<Node<K, V>, AllocError>
    where
        V: Drop,
        ensures entries { IfOk result (λ node. entries_of_node node ≡ entries_of_node self.now) }
        ensures key { IfOk result (λ node. node.key ≡ self.now.key) }
    {
        self.with_left(self.left.try_clone()?)
    }

    /// The same entry and right child, with another left one.
    pub(crate) fn with_left(&self, left: Tree<K, V>) -> Result<Node<K, V>, AllocError>
    where
        V: Drop,
        ensures entries { IfOk result (λ node.
            entries_of_node node ≡ entries_of_node (record self.now { left = left })) }
        ensures key { IfOk result (λ node. node.key ≡ self.now.key) }
    {
        let value = Arc::try_clone(&self.value)?;
        let right = self.right.try_clone()?;
        Ok(Node {
            left,
            key: self.key,
            value,
            right,
        })
    }

    /// The same entry and left child, with another right one.
    pub(crate) fn with_right(&self, right: Tree<K, V>) -> Result<Node<K, V>, AllocError>
    where
        V: Drop,
        ensures { IfOk result (λ node.
            entries_of_node node ≡ entries_of_node (record self.now { right = right })) }
    {
        let value = Arc::try_clone(&self.value)?;
        let left = self.left.try_clone()?;
        Ok(Node {
            left,
            key: self.key,
            value,
            right,
        })
    }
}

impl<K: Copy, V: Drop> Node<K, V> {
    /// Puts the right child on top of this node. Where there is none, or it is shared and there is no memory to copy
    /// it, nothing changes.
    fn rotate_left(&mut self, alloc: Global)
        ensures { entries_of_node self.new ≡ entries_of_node self.old }
    {
        if self.right.own(alloc).is_err() {
            return;
        }
        if let Link::Fork(weight, child) = &mut self.right.link {
            if let Some(child) = Arc::get_mut(child) {
                mem::swap(&mut self.key, &mut child.key);
                mem::swap(&mut self.value, &mut child.value);
                mem::swap(&mut child.left, &mut child.right);
                mem::swap(&mut self.left, &mut child.left);
                *weight = child.weight();
                mem::swap(&mut self.right, &mut self.left);
            }
        }
    }

    /// Puts the left child on top of this node, likewise.
    fn rotate_right(&mut self, alloc: Global)
        ensures { entries_of_node self.new ≡ entries_of_node self.old }
    {
        if self.left.own(alloc).is_err() {
            return;
        }
        if let Link::Fork(weight, child) = &mut self.left.link {
            if let Some(child) = Arc::get_mut(child) {
                mem::swap(&mut self.key, &mut child.key);
                mem::swap(&mut self.value, &mut child.value);
                mem::swap(&mut child.left, &mut child.right);
                mem::swap(&mut self.right, &mut child.right);
                *weight = child.weight();
                mem::swap(&mut self.left, &mut self.right);
            }
        }
    }

    /// Puts the left of the right child on top of that child.
    fn raise_left_of_right(&mut self, alloc: Global)
        ensures { entries_of_node self.new ≡ entries_of_node self.old }
    {
        if self.right.own(alloc).is_err() {
            return;
        }
        if let Link::Fork(_, child) = &mut self.right.link {
            if let Some(child) = Arc::get_mut(child) {
                child.rotate_right(alloc);
            }
        }
    }

    /// Puts the right of the left child on top of that child.
    fn raise_right_of_left(&mut self, alloc: Global)
        ensures { entries_of_node self.new ≡ entries_of_node self.old }
    {
        if self.left.own(alloc).is_err() {
            return;
        }
        if let Link::Fork(_, child) = &mut self.left.link {
            if let Some(child) = Arc::get_mut(child) {
                child.rotate_left(alloc);
            }
        }
    }

    /// Rotates the node where one side became more than three times as heavy as the other.
    pub(crate) fn balance(&mut self, alloc: Global)
        ensures { entries_of_node self.new ≡ entries_of_node self.old }
    {
        let left = u64::from(self.left.weight()) + 1;
        let right = u64::from(self.right.weight()) + 1;
        if right > 3 * left {
            if self.right.leans_left() {
                self.raise_left_of_right(alloc);
            }
            self.rotate_left(alloc);
        } else if left > 3 * right {
            if self.left.leans_right() {
                self.raise_right_of_left(alloc);
            }
            self.rotate_right(alloc);
        }
    }
}

impl<K: Copy + Ord, V: Drop> Node<K, V> {
    /// Gives the key this value, and answers the one that it had.
    #[cycle(insert)]
    pub(crate) fn insert(
        &mut self,
        alloc: Global,
        key: &K,
        value: Arc<V>,
    ) -> Result<Option<Arc<V>>, AllocError>
        ensures found { IfOk result (WasFound K.cmp key.now (entries_of_node self.old)) }
        ensures ok { OnOk result
            (IsPut K.cmp key.now (arc_value value) (entries_of_node self.old) (entries_of_node self.new)) }
        ensures err { OnErr result (entries_of_node self.new ≡ entries_of_node self.old) }
    {
        match key.cmp(&self.key) {
            Ordering::Less => {
                let old = self.left.insert(alloc, key, value)?;
                self.balance(alloc);
                Ok(old)
            }
            Ordering::Equal => Ok(Some(mem::replace(&mut self.value, value))),
            Ordering::Greater => {
                let old = self.right.insert(alloc, key, value)?;
                self.balance(alloc);
                Ok(old)
            }
        }
    }

    /// Takes the key out on its side of the node's own, and answers the value that it had. Err only where it is there.
    #[cycle(remove)]
    pub(crate) fn remove_beside(
        &mut self,
        alloc: Global,
        key: &K,
        order: Ordering,
    ) -> Result<Option<Arc<V>>, AllocError>
        ensures found { IsBeside K.cmp order key.now self.old.key
            → IfOk result (WasFound K.cmp key.now (entries_of_node self.old)) }
        ensures ok { IsBeside K.cmp order key.now self.old.key
            → OnOk result (IsWithout K.cmp key.now (entries_of_node self.old) (entries_of_node self.new)) }
        ensures err { OnErr result (entries_of_node self.new ≡ entries_of_node self.old) }
        ensures there { IsBeside K.cmp order key.now self.old.key
            → OnErr result (IsThere K.cmp key.now (entries_of_node self.old)) }
    {
        let old = match order {
            Ordering::Less => self.left.remove(alloc, key)?,
            _ => self.right.remove(alloc, key)?,
        };
        self.balance(alloc);
        Ok(old)
    }
}

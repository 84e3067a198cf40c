//! The entries of a map in order.

ghost use Rattle.std.specs.Prelude.{◌≡◌};
ghost use Rattle.persistent_map.specs.Order.{Rise};

use crate::tree::Tree;
use std::marker::Model;

/// The entries of a map that are still to come, in the order of their keys. It finds each by the key of the one before
/// it, in time in proportion to the logarithm of the map's length, and takes no memory.
#[derive(Drop)]
pub struct Iter<'a, K: Copy + Ord, V> {
    tree: &'a Tree<K, V>,
    /// The key of the entry that came last.
    last: Option<K>,
}

impl<'a, K: Copy + Ord, V> Model for Iter<'a, K, V> {
    ghost use Rattle.std.specs.Prelude.{List};
    ghost use Rattle.persistent_map.specs.After.{after};
    ghost use Rattle.persistent_map.specs.Order.{Rise};

    ghost Value = { List (K × V) };

    ghost view = { λ i. after K.cmp i.last i.tree.now };

    ghost invariant = { λ i. Rise K.cmp i.tree.now };
}

impl<'a, K: Copy + Ord, V> Iter<'a, K, V> {
    pub(crate) fn new(tree: &'a Tree<K, V>) -> Iter<'a, K, V>
        requires { Rise K.cmp tree.now }
        ensures { result ≡ tree.now }
    {
        Iter { tree, last: None }
    }
}

impl<'a, K: Copy + Ord, V> Iterator for Iter<'a, K, V> {
    ghost use Rattle.std.specs.Iterator.{YieldsFirstBy, item_count};
    ghost use Rattle.std.specs.Map.Iter.{deref_pair};

    type Item = (&'a K, &'a V);

    ghost next_gives = { YieldsFirstBy deref_pair (λ entries. entries) };

    ghost remaining = { item_count (λ entries. entries) };

    /// The next entry, or None where no more is to come.
    fn next(&mut self) -> Option<(&'a K, &'a V)> {
        let node = self.tree.first_after(&self.last)?;
        self.last = Some(node.key);
        Some((&node.key, &node.value))
    }
}

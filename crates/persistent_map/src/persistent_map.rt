//! The map.

ghost use Rattle.std.specs.Prelude.{◌≡◌, ◌↔◌, ◌≤◌, ◌<◌, ◌^◌, [], length, IsTrue, IsSome, IfOk, OnOk, OnErr};
ghost use Rattle.std.specs.Option.{option_copied, option_map};
ghost use Rattle.std.specs.FinMap.{find, put};
ghost use Rattle.std.specs.Arc.{arc_value};
ghost use Rattle.persistent_map.specs.Order.{Rise, without};

use crate::iter::Iter;
use crate::tree::Tree;
use std::alloc::{AllocError, Global};
use std::marker::Model;
use std::sync::Arc;

/// A map from keys to shared values, in the order of the keys. Copies of it share their nodes, and threads may share
/// copies. In contracts it is the list of its entries, of which the keys rise.
#[derive(Drop)]
pub struct PersistentMap<K: Copy + Ord, V> {
    alloc: Global,
    tree: Tree<K, V>,
    len: usize,
}

impl<K: Copy + Ord, V> Model for PersistentMap<K, V> {
    ghost use Rattle.std.specs.Prelude.{◌≡◌, List, length};
    ghost use Rattle.persistent_map.specs.Order.{Rise};

    ghost Value = { List (K × V) };

    ghost view = { λ m. m.tree };

    ghost invariant = { λ m. Rise K.cmp m.tree × (m.len ≡ length m.tree) };
}

impl<K: Copy + Ord, V> PersistentMap<K, V> {
    /// A map with no entry. Takes no memory.
    pub fn new(alloc: Global) -> PersistentMap<K, V>
        ensures empty { result ≡ [] }
        ensures rise { Rise K.cmp result }
    {
        PersistentMap {
            alloc,
            tree: Tree::new(),
            len: 0,
        }
    }

    /// How many entries the map has, in constant time.
    pub fn len(&self) -> usize
        ensures len { result ≡ length self.now }
        ensures rise { Rise K.cmp self.now }
    {
        self.len
    }

    /// Whether the map has no entry, in constant time.
    pub fn is_empty(&self) -> bool
        ensures empty { IsTrue result ↔ (self.now ≡ []) }
        ensures rise { Rise K.cmp self.now }
    {
        self.len == 0
    }

    /// How many entries stand on the longest way down the tree: a measure of what a look-up costs, which the clauses
    /// bound from above by the length, and from below by its binary logarithm, alone. In practice it stays below twice
    /// that. Meets each entry.
    pub fn depth(&self) -> usize
        ensures most { result ≤ length self.now }
        ensures least { length self.now < 2 ^ result }
        ensures rise { Rise K.cmp self.now }
    {
        // The length is below 2^64, and so the depth fits 64 bits, too.
        let _len = self.len;
        self.tree.depth()
    }

    /// The same map again, in constant time and with no memory: the two share all their nodes until one is changed.
    /// Err where 2^63 maps share them already.
    pub fn try_clone(&self) -> Result<PersistentMap<K, V>, AllocError>
        ensures same { IfOk result (λ map. map ≡ self.now) }
        ensures rise { Rise K.cmp self.now }
    {
        let tree = self.tree.try_clone()?;
        Ok(PersistentMap {
            alloc: self.alloc,
            tree,
            len: self.len,
        })
    }

    /// The entries in the order of their keys. Takes no memory; each step takes time in proportion to the logarithm of
    /// the length.
    pub fn iter(&self) -> Iter<'_, K, V>
        ensures entries { result ≡ self.now }
        ensures rise { Rise K.cmp self.now }
    {
        Iter::new(&self.tree)
    }

    /// The value of this key. Takes time in proportion to the logarithm of the length, and no memory.
    pub fn get(&self, key: &K) -> Option<&V>
        ensures value { option_copied result ≡ find K.cmp key.now self.now }
        ensures rise { Rise K.cmp self.now }
    {
        self.tree.get(key)
    }
}

impl<K: Copy + Ord, V: Drop> PersistentMap<K, V> {
    /// Gives the key this value, and answers the value that it had. An equal key that is there stays. Takes time in
    /// proportion to the logarithm of the length, and memory for one node where the key is new, and for a copy of
    /// each node on the way that another map shares. Err where there is none: the map is as it was.
    pub fn insert(&mut self, key: K, value: Arc<V>) -> Result<Option<Arc<V>>, AllocError>
        ensures found { IfOk result (λ old. option_map arc_value old ≡ find K.cmp key self.old) }
        ensures ok { OnOk result (self.new ≡ put K.cmp key (arc_value value) self.old) }
        ensures err { OnErr result (self.new ≡ self.old) }
        ensures rose { Rise K.cmp self.old }
        ensures rise { Rise K.cmp self.new }
    {
        // No memory holds so many entries that their number has no place.
        let Some(more) = self.len.checked_add(1) else {
            return Err(AllocError);
        };
        let old = self.tree.insert(self.alloc, &key, value)?;
        if old.is_none() {
            self.len = more;
        }
        Ok(old)
    }

    /// Takes the key out, and answers the value that it had, or None where it was not there. Takes time in proportion
    /// to the logarithm of the length, and memory for a copy of each node on the way that another map shares, and of
    /// those from the key to the next one. Err where there is none, which is never so where the key is not there: the
    /// map is as it was.
    pub fn remove(&mut self, key: &K) -> Result<Option<Arc<V>>, AllocError>
        ensures found { IfOk result (λ old. option_map arc_value old ≡ find K.cmp key.now self.old) }
        ensures ok { OnOk result (self.new ≡ without K.cmp key.now self.old) }
        ensures err { OnErr result (self.new ≡ self.old) }
        ensures there { OnErr result (IsSome (find K.cmp key.now self.old)) }
        ensures rose { Rise K.cmp self.old }
        ensures rise { Rise K.cmp self.new }
    {
        let old = self.tree.remove(self.alloc, key)?;
        if old.is_some() {
            self.len -= 1;
        }
        Ok(old)
    }
}

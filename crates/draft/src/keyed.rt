//! Items each of which has a key of its own.

ghost use Rattle.std.specs.Prelude.{◌≡◌, [], ◌∷◌, ◌++◌, ◌||◌, false, OnOk, OnErr};
ghost use Rattle.std.specs.Ordering.{is_eq};
ghost use Rattle.std.specs.BTreeSet.{contains};

use std::alloc::{AllocError, Global};
use std::collections::BTreeSet;

/// Items in the order in which they came, and the keys that they have.
#[derive(Drop)]
pub struct Keyed<K: Ord, T> {
    pub items: Vec<T>,
    pub keys: BTreeSet<K>,
}

impl<K: Ord + Drop, T: Drop> Keyed<K, T> {
    /// No items.
    pub fn new(alloc: Global) -> Keyed<K, T>
        ensures items { result.items.items ≡ [] }
        ensures keys { (key : K) → contains K.cmp result.keys key ≡ false }
    {
        Keyed {
            items: Vec::new(alloc),
            keys: BTreeSet::new(alloc),
        }
    }

    /// Whether an item has the key. Logarithmic in the items.
    pub fn has(&self, key: &K) -> bool
        ensures { result ≡ contains K.cmp self.now.keys key.now }
    {
        self.keys.contains(key)
    }

    /// Adds an item with its key. Err where memory runs out: items and keys are as they were. Logarithmic in the items.
    pub fn add(&mut self, key: K, item: T) -> Result<(), AllocError>
        ensures items { OnOk result (self.new.items.items ≡ self.old.items.items ++ item ∷ []) }
        ensures keys { OnOk result ((other : K) → contains K.cmp self.new.keys other ≡
            is_eq (K.cmp key other) || contains K.cmp self.old.keys other) }
        ensures same_items { OnErr result (self.new.items.items ≡ self.old.items.items) }
        ensures same_keys { OnErr result ((other : K) → contains K.cmp self.new.keys other ≡
            contains K.cmp self.old.keys other) }
    {
        self.items.push(item)?;
        if self.keys.insert(key).is_err() {
            self.items.pop();
            return Err(AllocError);
        }
        Ok(())
    }

    /// The items, in the order in which they came.
    pub fn into_items(self) -> Vec<T>
        ensures { result.items ≡ self.items.items }
    {
        self.items
    }
}

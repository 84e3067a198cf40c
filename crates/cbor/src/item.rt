//! Items as a tree (RFC 8949, section 3.1).

ghost use Rattle.std.specs.Prelude.{◌≡◌, ◌<◌, ◌^◌, length};
ghost use Rattle.std.specs.Iterator.Adapters.{IterYieldsInOrder, IterYieldsInReverse};
ghost use Rattle.std.specs.Slice.Iter.{iter_rest};
ghost use Rattle.cbor.specs.declared.item.Item.{Item};
ghost use Rattle.cbor.specs.declared.item.Entry.{Entry};
ghost use Rattle.cbor.specs.Tree.{members_of, entries_of};

use std::marker::Model;
use std::slice;

/// An item: a number, bytes, or what items are in.
#[cycle(items)]
#[derive(Debug, Drop)]
pub enum Item {
    /// The number itself, 0 to 2^64 - 1.
    Unsigned(u64),
    /// The `n` of -1 - n, 0 to 2^64 - 1.
    Negative(u64),
    Bytes(Vec<u8>),
    Array(Items),
    Map(Entries),
    Null,
}

/// The members of an array, in order.
#[cycle(items)]
#[derive(Debug, Drop)]
pub struct Items {
    members: Vec<Item>,
}

/// A key of a map, and its value.
#[cycle(items)]
#[derive(Debug, Drop)]
pub struct Entry {
    pub key: Item,
    pub value: Item,
}

/// The entries of a map, in order.
#[cycle(items)]
#[derive(Debug, Drop)]
pub struct Entries {
    entries: Vec<Entry>,
}

impl Model for Items {
    ghost use Rattle.model.specs.Cbor as cbor;
    ghost use Rattle.model.specs.Codes.{coded_items};

    ghost Value = { cbor.Items };

    ghost coded = { coded_items };

    ghost use Rattle.cbor.specs.Tree.{members_of};

    ghost view = { λ a. members_of a.members.items };

    ghost size = { cbor.items_nesting };

    ghost use Rattle.cbor.specs.TreeFalls.{members_fall};

    ghost size_decreases = { λ a h. members_fall a.members.items };
}

impl Model for Entries {
    ghost use Rattle.model.specs.Cbor as cbor;
    ghost use Rattle.model.specs.Codes.{coded_pairs};

    ghost Value = { cbor.Pairs };

    ghost coded = { coded_pairs };

    ghost use Rattle.cbor.specs.Tree.{entries_of};

    ghost view = { λ a. entries_of a.entries.items };

    ghost size = { cbor.pairs_nesting };

    ghost use Rattle.cbor.specs.TreeFalls.{entries_fall};

    ghost size_decreases = { λ a h. entries_fall a.entries.items };
}

impl Items {
    /// The array of these members, which may nest to any depth. To drop, to show, to copy and to write an item recurses
    /// down its nesting, so that a very deep one may run out of stack. Only items that nest at most 64 deep have a
    /// text: what is read never nests deeper.
    pub fn from_vec(members: Vec<Item>) -> Items
        ensures { result ≡ members_of members.items }
    {
        Items { members }
    }

    /// The members, in order.
    pub fn as_slice(&self) -> &[Item]
        ensures { members_of result.now ≡ self.now }
    {
        &self.members
    }

    /// The members one after the other, in order.
    pub fn iter(&self) -> slice::Iter<'_, Item>
        ensures rest { members_of (iter_rest result) ≡ self.now }
        ensures bound { length (iter_rest result) < 2 ^ 64 }
        ensures runs { IterYieldsInOrder Item }
        ensures runs_back { IterYieldsInReverse Item }
    {
        self.members.iter()
    }
}

impl Entries {
    /// The map of these entries, in this order, whether their keys rise or not. It may nest to any depth, as
    /// [`Items::from_vec`] says.
    pub fn from_vec(entries: Vec<Entry>) -> Entries
        ensures { result ≡ entries_of entries.items }
    {
        Entries { entries }
    }

    /// The entries, in order.
    pub fn as_slice(&self) -> &[Entry]
        ensures { entries_of result.now ≡ self.now }
    {
        &self.entries
    }

    /// The entries one after the other, in order.
    pub fn iter(&self) -> slice::Iter<'_, Entry>
        ensures rest { entries_of (iter_rest result) ≡ self.now }
        ensures bound { length (iter_rest result) < 2 ^ 64 }
        ensures runs { IterYieldsInOrder Entry }
        ensures runs_back { IterYieldsInReverse Entry }
    {
        self.entries.iter()
    }
}

impl<'a> IntoIterator for &'a Items {
    type Item = &'a Item;

    type IntoIter = slice::Iter<'a, Item>;

    ghost into_iter_gives = { λ items it. (members_of (iter_rest it) ≡ items.now) × (length (iter_rest it) < 2 ^ 64)
        × IterYieldsInOrder Item × IterYieldsInReverse Item };

    fn into_iter(self) -> slice::Iter<'a, Item> {
        self.iter()
    }
}

impl<'a> IntoIterator for &'a Entries {
    type Item = &'a Entry;

    type IntoIter = slice::Iter<'a, Entry>;

    ghost into_iter_gives = { λ entries it. (entries_of (iter_rest it) ≡ entries.now) × (length (iter_rest it) < 2 ^ 64)
        × IterYieldsInOrder Entry × IterYieldsInReverse Entry };

    fn into_iter(self) -> slice::Iter<'a, Entry> {
        self.iter()
    }
}

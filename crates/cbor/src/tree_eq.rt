//! Whether items are the same, with all that is in them.

ghost use Rattle.std.specs.Prelude.{◌≡◌, ◌↔◌, IsTrue};
ghost use Rattle.std.specs.Cmp.{partial_equiv_from_equiv};
ghost use Rattle.cbor.specs.Tree.{item_of, members_of, entries_of};
ghost use Rattle.cbor.specs.Same.{items_eq, pairs_eq, same_item, same_entry};
ghost use Rattle.cbor.specs.SameLaws.{same_item_laws, same_members_laws, same_entry_laws, same_entries_laws};

use crate::item::{Entries, Entry, Item, Items};

#[cycle(comparing)]
fn same_members(members: &[Item], others: &[Item]) -> bool
    ensures { result ≡ items_eq (members_of members.now) (members_of others.now) }
{
    if members.len() != others.len() {
        return false;
    }
    for (member, other) in members.iter().zip(others) {
        if !same_item(member, other) {
            return false;
        }
    }
    true
}

#[cycle(comparing)]
fn same_entries(entries: &[Entry], others: &[Entry]) -> bool
    ensures { result ≡ pairs_eq (entries_of entries.now) (entries_of others.now) }
{
    if entries.len() != others.len() {
        return false;
    }
    for (entry, other) in entries.iter().zip(others) {
        if !same_entry(entry, other) {
            return false;
        }
    }
    true
}

#[cycle(comparing)]
fn same_entry(entry: &Entry, other: &Entry) -> bool
    ensures { result ≡ same_entry entry.now other.now }
{
    same_item(&entry.key, &other.key) && same_item(&entry.value, &other.value)
}

#[cycle(comparing)]
fn same_item(item: &Item, other: &Item) -> bool
    ensures { result ≡ same_item item.now other.now }
{
    match (item, other) {
        (Item::Unsigned(m), Item::Unsigned(n)) => m == n,
        (Item::Negative(m), Item::Negative(n)) => m == n,
        (Item::Bytes(bytes), Item::Bytes(others)) => bytes == others,
        (Item::Array(members), Item::Array(others)) => {
            same_members(members.as_slice(), others.as_slice())
        }
        (Item::Map(entries), Item::Map(others)) => {
            same_entries(entries.as_slice(), others.as_slice())
        }
        (Item::Null, Item::Null) => true,
        _ => false,
    }
}

impl PartialEq for Item {
    ghost eq = { same_item };

    ghost laws = { partial_equiv_from_equiv same_item_laws };

    /// Whether the two are the same item, with all that is in them: they have the same text, where they have one.
    /// Linear in the lesser of the two, and takes no memory. Recurses down the nesting.
    fn eq(&self, other: &Item) -> bool
        ensures exact { result ≡ same_item self.now other.now }
        ensures same { IsTrue result ↔ (item_of self.now ≡ item_of other.now) }
    {
        same_item(self, other)
    }
}

impl Eq for Item {
    ghost laws = { same_item_laws };
}

impl PartialEq for Items {
    ghost eq = { items_eq };

    ghost laws = { partial_equiv_from_equiv same_members_laws };

    /// Whether the two have the same members in the same order. Linear in the lesser of the two, and takes no memory.
    fn eq(&self, other: &Items) -> bool
        ensures exact { result ≡ items_eq self.now other.now }
        ensures same { IsTrue result ↔ (self.now ≡ other.now) }
    {
        same_members(self.as_slice(), other.as_slice())
    }
}

impl Eq for Items {
    ghost laws = { same_members_laws };
}

impl PartialEq for Entry {
    ghost eq = { same_entry };

    ghost laws = { partial_equiv_from_equiv same_entry_laws };

    /// Whether the two have the same key and the same value. Linear in the lesser of the two, and takes no memory.
    fn eq(&self, other: &Entry) -> bool
        ensures exact { result ≡ same_entry self.now other.now }
        ensures same { IsTrue result ↔ ((item_of self.now.key ≡ item_of other.now.key)
            × (item_of self.now.value ≡ item_of other.now.value)) }
    {
        same_entry(self, other)
    }
}

impl Eq for Entry {
    ghost laws = { same_entry_laws };
}

impl PartialEq for Entries {
    ghost eq = { pairs_eq };

    ghost laws = { partial_equiv_from_equiv same_entries_laws };

    /// Whether the two have the same entries in the same order. Linear in the lesser of the two, and takes no memory.
    fn eq(&self, other: &Entries) -> bool
        ensures exact { result ≡ pairs_eq self.now other.now }
        ensures same { IsTrue result ↔ (self.now ≡ other.now) }
    {
        same_entries(self.as_slice(), other.as_slice())
    }
}

impl Eq for Entries {
    ghost laws = { same_entries_laws };
}

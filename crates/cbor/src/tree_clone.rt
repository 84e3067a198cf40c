//! Copies of items with all that is in them.

ghost use Rattle.std.specs.Prelude.{◌≡◌, IfOk};
ghost use Rattle.cbor.specs.Tree.{item_of, members_of, entries_of};

use crate::item::{Entries, Entry, Item, Items};
use std::alloc::{AllocError, Global};

#[cycle(cloning)]
fn clone_members(alloc: Global, members: &[Item]) -> Result<Items, AllocError>
    ensures { IfOk result (λ copies. copies ≡ members_of members.now) }
{
    let mut copies = Vec::new(alloc);
    for member in members {
        copies.push(clone_item(alloc, member)?)?;
    }
    Ok(Items::from_vec(copies))
}

#[cycle(cloning)]
fn clone_entries(alloc: Global, entries: &[Entry]) -> Result<Entries, AllocError>
    ensures { IfOk result (λ copies. copies ≡ entries_of entries.now) }
{
    let mut copies = Vec::new(alloc);
    for entry in entries {
        let key = clone_item(alloc, &entry.key)?;
        let value = clone_item(alloc, &entry.value)?;
        copies.push(Entry { key, value })?;
    }
    Ok(Entries::from_vec(copies))
}

#[cycle(cloning)]
fn clone_item(alloc: Global, item: &Item) -> Result<Item, AllocError>
    ensures { IfOk result (λ copy. item_of copy ≡ item_of item.now) }
{
    match item {
        Item::Unsigned(n) => Ok(Item::Unsigned(*n)),
        Item::Negative(n) => Ok(Item::Negative(*n)),
        Item::Bytes(bytes) => Ok(Item::Bytes(Vec::from_slice(alloc, bytes)?)),
        Item::Array(members) => Ok(Item::Array(clone_members(alloc, members.as_slice())?)),
        Item::Map(entries) => Ok(Item::Map(clone_entries(alloc, entries.as_slice())?)),
        Item::Null => Ok(Item::Null),
    }
}

impl Item {
    /// The same item once more. Err where memory runs out.
    pub fn try_clone(&self, alloc: Global) -> Result<Item, AllocError>
        ensures { IfOk result (λ copy. item_of copy ≡ item_of self.now) }
    {
        clone_item(alloc, self)
    }
}

//! Writing items with all that is in them, each in its one deterministic form, in time linear in the bytes
//! that are written.

ghost use Rattle.std.specs.Prelude.{◌≡◌, ◌++◌, OnOk, IfOk};
ghost use Rattle.model.specs.Cbor.{text_of, items_text, pairs_text, HasText, Spells};
ghost use Rattle.cbor.specs.Tree.{item_of, members_of, entries_of};

use crate::item::{Entry, Item};
use crate::writer;
use std::alloc::{AllocError, Global};

/// The members, one after the other.
#[cycle(writing)]
fn write_members(out: &mut Vec<u8>, members: &[Item]) -> Result<(), AllocError>
    ensures { OnOk result (out.new.items ≡ out.old.items ++ items_text (members_of members.now)) }
{
    for member in members {
        write_item(out, member)?;
    }
    Ok(())
}

/// The entries, one after the other, each its key and then its value.
#[cycle(writing)]
fn write_entries(out: &mut Vec<u8>, entries: &[Entry]) -> Result<(), AllocError>
    ensures { OnOk result (out.new.items ≡ out.old.items ++ pairs_text (entries_of entries.now)) }
{
    for entry in entries {
        write_item(out, &entry.key)?;
        write_item(out, &entry.value)?;
    }
    Ok(())
}

/// The item, at the end of the bytes.
#[cycle(writing)]
fn write_item(out: &mut Vec<u8>, item: &Item) -> Result<(), AllocError>
    ensures { OnOk result (out.new.items ≡ out.old.items ++ text_of (item_of item.now)) }
{
    match item {
        Item::Unsigned(n) => writer::write_unsigned(out, *n),
        Item::Negative(n) => writer::write_negative(out, *n),
        Item::Bytes(bytes) => writer::write_byte_string(out, bytes),
        Item::Array(members) => {
            let members = members.as_slice();
            writer::write_array(out, members.len() as u64)?;
            write_members(out, members)
        }
        Item::Map(entries) => {
            let entries = entries.as_slice();
            writer::write_map(out, entries.len() as u64)?;
            write_entries(out, entries)
        }
        Item::Null => writer::write_null(out),
    }
}

/// The text of an item that has one: whose keys rise, and which nests at most 64 deep (RFC 8949, section
/// 4.2.1). Err where memory runs out.
pub fn encode(alloc: Global, item: &Item) -> Result<Vec<u8>, AllocError>
    requires { HasText (item_of item.now) }
    ensures { IfOk result (λ v. Spells (item_of item.now) v.items) }
{
    let mut out = Vec::new(alloc);
    write_item(&mut out, item)?;
    Ok(out)
}

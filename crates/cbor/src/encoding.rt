//! Writing items and arrays of them (RFC 8949, section 4.2.1).

ghost use Rattle.std.specs.Prelude.{◌≡◌, ◌<◌, ◌≤◌, ◌+◌, ◌++◌, length, map, OnOk, OnErr, vec_len, vec_capacity};
ghost use Rattle.model.specs.Cbor.{Item, text_of, items_of, items_text, array_of};
ghost use Rattle.cbor.specs.Texts.{Keeps};

use crate::writer;
use std::alloc::AllocError;

/// What has a text.
pub trait Encode {
    /// The item whose text it is.
    ghost item_of: { Self → Item };

    /// Writes the text at the end of the bytes, in time linear in it. Err where memory runs out, which it does not
    /// where the vector has room for the text: the bytes stay as they were.
    fn write(&self, out: &mut Vec<u8>) -> Result<(), AllocError>
        ensures ok { OnOk result (out.new.items ≡ out.old.items ++ text_of (item_of self.now)) }
        ensures err { OnErr result (out.new.items ≡ out.old.items) }
        ensures full { OnErr result (vec_capacity out.old < vec_len out.old + length (text_of (item_of self.now))) }
        ensures capacity { vec_capacity out.old ≤ vec_capacity out.new };
}

/// The texts of the items, one after the other. At Err the first of them may stand there.
fn write_items<T: Encode>(out: &mut Vec<u8>, items: &[T]) -> Result<(), AllocError>
    ensures ok { OnOk result (out.new.items ≡ out.old.items ++ items_text (items_of (map T.item_of items.now))) }
    ensures keeps { Keeps out.old.items out.new.items }
    ensures full { OnErr result (vec_capacity out.old < length out.old.items +
        length (items_text (items_of (map T.item_of items.now)))) }
    ensures capacity { vec_capacity out.old ≤ vec_capacity out.new }
{
    for item in items {
        item.write(out)?;
    }
    Ok(())
}

/// The head of the array of the items, and their texts. At Err a part of that may stand there.
fn write_parts<T: Encode>(out: &mut Vec<u8>, items: &[T]) -> Result<(), AllocError>
    ensures ok { OnOk result (out.new.items ≡ out.old.items ++ text_of (array_of (map T.item_of items.now))) }
    ensures keeps { Keeps out.old.items out.new.items }
    ensures full { OnErr result (vec_capacity out.old < length out.old.items +
        length (text_of (array_of (map T.item_of items.now)))) }
    ensures capacity { vec_capacity out.old ≤ vec_capacity out.new }
{
    writer::write_array(out, items.len() as u64)?;
    write_items(out, items)
}

/// Writes the array of the items, in order (RFC 8949, sections 3.1 and 4.2.1), in time linear in the text. Err where
/// memory runs out, which it does not where the vector has room for the text: the bytes stay as they were.
pub fn write_list_array<T: Encode>(out: &mut Vec<u8>, items: &[T]) -> Result<(), AllocError>
    ensures ok { OnOk result (out.new.items ≡ out.old.items ++ text_of (array_of (map T.item_of items.now))) }
    ensures err { OnErr result (out.new.items ≡ out.old.items) }
    ensures full { OnErr result (vec_capacity out.old < length out.old.items +
        length (text_of (array_of (map T.item_of items.now)))) }
    ensures capacity { vec_capacity out.old ≤ vec_capacity out.new }
{
    let start = out.len();
    let written = write_parts(out, items);
    if written.is_err() {
        out.truncate(start);
    }
    written
}

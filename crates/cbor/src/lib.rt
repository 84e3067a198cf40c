//! Deterministic CBOR (RFC 8949, sections 3 and 4.2.1): readers and writers of its parts, with no tree of
//! items between the bytes and the values, and items as trees.
#![tactic(auto)]

mod argument;
mod encoding;
mod fault;
mod fields;
mod item;
mod major;
mod reader;
mod shapes;
mod tree_clone;
mod tree_eq;
mod tree_reader;
mod tree_writer;
mod writer;

pub use encoding::{Encode, write_list_array};
pub use fault::CborFault;
pub use fields::{field_key, optional_unsigned_field, unsigned_field};
pub use item::{Entries, Entry, Item, Items};
pub use reader::{array, byte_string, fixed, map, negative, null, unsigned};
pub use shapes::{
    Decode, DecodeEntry, bounded, entries, entries_of_map, list, list_array, members, nonempty_map,
    rising, short,
};
pub use tree_reader::{decode, read};
pub use tree_writer::encode;
pub use writer::{
    head_size, write_array, write_byte_string, write_map, write_negative, write_null,
    write_unsigned,
};

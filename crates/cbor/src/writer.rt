//! Writers: each puts one part at the end of a vector of bytes, in the shortest form. Where memory runs
//! out the bytes stay as they were, and no writer fails where the vector has room. The cost is that of
//! appending: constant for a head, and the length of a byte string.

ghost use Rattle.std.specs.Prelude.{◌≡◌, ◌<◌, ◌≤◌, ◌+◌, ◌++◌, ℕ, length, OnOk, OnErr, vec_len, vec_capacity};
ghost use Rattle.model.specs.Cbor as cbor;
ghost use Rattle.cbor.specs.Major.{major_number};

use crate::major::{Major, NULL};
use std::alloc::AllocError;

/// The head of this major type with the argument `n`.
#[tactic(auto, unfolding(model::specs::Cbor::head))]
fn write_head(out: &mut Vec<u8>, major: Major, n: u64) -> Result<(), AllocError>
    ensures ok { OnOk result (out.new.items ≡ out.old.items ++ cbor.head (major_number major) n) }
    ensures err { OnErr result (out.new.items ≡ out.old.items) }
    ensures full { OnErr result (vec_capacity out.old < vec_len out.old + length (cbor.head (major_number major) n)) }
    ensures capacity { vec_capacity out.old ≤ vec_capacity out.new }
{
    let first = 32 * major as u8;
    if n < 24 {
        out.extend_from_slice(&[first + n as u8])
    } else if n < 1 << 8 {
        out.extend_from_slice(&[first + 24, n as u8])
    } else if n < 1 << 16 {
        let [b1, b0] = (n as u16).to_be_bytes();
        out.extend_from_slice(&[first + 25, b1, b0])
    } else if n < 1 << 32 {
        let [b3, b2, b1, b0] = (n as u32).to_be_bytes();
        out.extend_from_slice(&[first + 26, b3, b2, b1, b0])
    } else {
        let [b7, b6, b5, b4, b3, b2, b1, b0] = n.to_be_bytes();
        out.extend_from_slice(&[first + 27, b7, b6, b5, b4, b3, b2, b1, b0])
    }
}

/// How many bytes the head of an item has whose argument is `n` (RFC 8949, sections 3 and 4.2.1): 1, 2, 3, 5 or 9,
/// whatever its major type. Takes no memory.
#[tactic(auto, unfolding(model::specs::Cbor::head))]
pub fn head_size(n: u64) -> u64
    ensures { (major : ℕ) → length (cbor.head major n) ≡ result }
{
    if n < 24 {
        1
    } else if n < 1 << 8 {
        2
    } else if n < 1 << 16 {
        3
    } else if n < 1 << 32 {
        5
    } else {
        9
    }
}

/// Writes the unsigned number `n` (RFC 8949, sections 3.1 and 4.2.1). Err where memory runs out.
pub fn write_unsigned(out: &mut Vec<u8>, n: u64) -> Result<(), AllocError>
    ensures ok { OnOk result (out.new.items ≡ out.old.items ++ cbor.head 0 n) }
    ensures err { OnErr result (out.new.items ≡ out.old.items) }
    ensures full { OnErr result (vec_capacity out.old < vec_len out.old + length (cbor.head 0 n)) }
    ensures capacity { vec_capacity out.old ≤ vec_capacity out.new }
{
    write_head(out, Major::Unsigned, n)
}

/// Writes the negative number -1 - `n` (RFC 8949, sections 3.1 and 4.2.1). Err where memory runs out.
pub fn write_negative(out: &mut Vec<u8>, n: u64) -> Result<(), AllocError>
    ensures ok { OnOk result (out.new.items ≡ out.old.items ++ cbor.head 1 n) }
    ensures err { OnErr result (out.new.items ≡ out.old.items) }
    ensures full { OnErr result (vec_capacity out.old < vec_len out.old + length (cbor.head 1 n)) }
    ensures capacity { vec_capacity out.old ≤ vec_capacity out.new }
{
    write_head(out, Major::Negative, n)
}

/// Writes the byte string (RFC 8949, sections 3.1 and 4.2.1). Err where memory runs out.
pub fn write_byte_string(out: &mut Vec<u8>, bytes: &[u8]) -> Result<(), AllocError>
    ensures ok { OnOk result (out.new.items ≡ out.old.items ++ (cbor.head 2 (length bytes.now) ++ bytes.now)) }
    ensures err { OnErr result (out.new.items ≡ out.old.items) }
    ensures full { OnErr result (vec_capacity out.old < vec_len out.old + length (cbor.head 2 (length bytes.now) ++
        bytes.now)) }
    ensures capacity { vec_capacity out.old ≤ vec_capacity out.new }
{
    let start = out.len();
    write_head(out, Major::Bytes, bytes.len() as u64)?;
    let written = out.extend_from_slice(bytes);
    if written.is_err() {
        out.truncate(start);
    }
    written
}

/// Writes the head of an array of `count` members, which the caller writes after it (RFC 8949, sections
/// 3.1 and 4.2.1). Err where memory runs out.
pub fn write_array(out: &mut Vec<u8>, count: u64) -> Result<(), AllocError>
    ensures ok { OnOk result (out.new.items ≡ out.old.items ++ cbor.head 4 count) }
    ensures err { OnErr result (out.new.items ≡ out.old.items) }
    ensures full { OnErr result (vec_capacity out.old < vec_len out.old + length (cbor.head 4 count)) }
    ensures capacity { vec_capacity out.old ≤ vec_capacity out.new }
{
    write_head(out, Major::Array, count)
}

/// Writes the head of a map of `count` entries, whose keys and values the caller writes after it, keys in
/// ascending bytewise order (RFC 8949, sections 3.1 and 4.2.1). Err where memory runs out.
pub fn write_map(out: &mut Vec<u8>, count: u64) -> Result<(), AllocError>
    ensures ok { OnOk result (out.new.items ≡ out.old.items ++ cbor.head 5 count) }
    ensures err { OnErr result (out.new.items ≡ out.old.items) }
    ensures full { OnErr result (vec_capacity out.old < vec_len out.old + length (cbor.head 5 count)) }
    ensures capacity { vec_capacity out.old ≤ vec_capacity out.new }
{
    write_head(out, Major::Map, count)
}

/// Writes null (RFC 8949, section 3.3). Err where memory runs out.
pub fn write_null(out: &mut Vec<u8>) -> Result<(), AllocError>
    ensures ok { OnOk result (out.new.items ≡ out.old.items ++ cbor.head 7 22) }
    ensures err { OnErr result (out.new.items ≡ out.old.items) }
    ensures full { OnErr result (vec_capacity out.old < vec_len out.old + length (cbor.head 7 22)) }
    ensures capacity { vec_capacity out.old ≤ vec_capacity out.new }
{
    write_head(out, Major::Simple, NULL)
}

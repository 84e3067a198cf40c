//! The text of a block with an empty body (RFC 8949, section 4.2.1).

ghost use Rattle.std.specs.Prelude.{◌≡◌, ◌≤◌, [], ◌++◌, length, option_map, OnOk, IfOk, IfErr};
ghost use Rattle.model.specs.Cbor.{text_of};
ghost use Rattle.model.specs.Block.{SpellsBlock, item_of_previous, item_of_header, item_of_block, body_hash_of};
ghost use Rattle.model.specs.Block.{empty_block};
ghost use Rattle.block.specs.View.{bytes_of, header_of};
ghost use Rattle.block.specs.Written.{IsWriteFault};

use crate::fault::WriteFault;
use crate::header::{Header, NUMBER_LIMIT};
use ident::{BlockHash, BodyHash};
use std::alloc::{AllocError, Global};

/// The largest size of the text of a block with an empty body, in bytes.
const LARGEST_TEXT: usize = 89;

/// The text of the empty array.
const EMPTY_BODY: [u8; 1] = [0x80];

/// The hash of the body that holds no transaction: the SHA-256 digest (FIPS 180-4) of the byte 80. A
/// header that names it makes a block that is read again.
pub fn empty_body_hash() -> BodyHash
    ensures { result.bytes ≡ body_hash_of [] }
{
    BodyHash::of_body(&EMPTY_BODY)
}

fn write_previous(out: &mut Vec<u8>, previous: Option<BlockHash>) -> Result<(), AllocError>
    ensures { OnOk result (out.new.items ≡ out.old.items ++ text_of (item_of_previous (option_map bytes_of previous))) }
{
    match previous {
        Some(hash) => cbor::write_byte_string(out, hash.as_bytes().as_slice()),
        None => cbor::write_null(out),
    }
}

pub fn write_header(out: &mut Vec<u8>, header: &Header) -> Result<(), AllocError>
    ensures { OnOk result (out.new.items ≡ out.old.items ++ text_of (item_of_header (header_of header.now))) }
{
    cbor::write_array(out, 4)?;
    cbor::write_unsigned(out, header.number)?;
    cbor::write_unsigned(out, header.slot)?;
    write_previous(out, header.previous)?;
    cbor::write_byte_string(out, header.body_hash.as_bytes().as_slice())
}

fn empty_block_text(alloc: Global, header: &Header) -> Result<Vec<u8>, AllocError>
    ensures { IfOk result (λ text. text.items ≡ text_of (item_of_block (empty_block (header_of header.now)))) }
{
    let mut out = Vec::with_capacity(alloc, LARGEST_TEXT)?;
    cbor::write_array(&mut out, 2)?;
    write_header(&mut out, header)?;
    cbor::write_array(&mut out, 0)?;
    Ok(out)
}

/// The text of the block with this header that holds no transaction (RFC 8949, section 4.2.1), at most 89
/// bytes. OutOfRange where the number or the slot is 2^63 or more, OutOfMemory where its one allocation
/// fails. Whether the header names the hash of the empty body is not looked at.
pub fn write_empty(alloc: Global, header: &Header) -> Result<Vec<u8>, WriteFault>
    ensures ok { IfOk result (λ text. SpellsBlock (empty_block (header_of header.now)) text.items) }
    ensures size { IfOk result (λ text. length text.items ≤ 89) }
    ensures fault { IfErr result (λ e. IsWriteFault (header_of header.now) e) }
{
    if header.number >= NUMBER_LIMIT {
        return Err(WriteFault::OutOfRange);
    }
    if header.slot >= NUMBER_LIMIT {
        return Err(WriteFault::OutOfRange);
    }
    let text = empty_block_text(alloc, header)?;
    Ok(text)
}

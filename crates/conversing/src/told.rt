//! What replies tell of the chain.

ghost use Rattle.std.specs.Prelude.{◌≡◌, ◌++◌, OnOk};
ghost use Rattle.conversing.specs.Parts.{block_text, point_text, tip_text};

use crate::block_point::BlockPoint;
use crate::numbers::put_number;
use crate::texts::put_hex;
use std::alloc::{AllocError, Global};

/// Where a chain ends: its last block's number, slot and hash; 0, 0 and 32 zero bytes where it has no block.
#[derive(Clone, Copy, Debug, PartialEq, Eq)]
pub struct ChainTip {
    pub number: u64,
    pub slot: u64,
    pub hash: [u8; 32],
}

/// A block of a chain, with its whole text.
#[derive(Clone, Copy, Debug)]
pub struct ToldBlock<'a> {
    pub number: u64,
    pub slot: u64,
    pub hash: [u8; 32],
    pub bytes: &'a [u8],
}

/// Appends a point.
pub fn put_point(alloc: Global, line: &mut Vec<u8>, point: &BlockPoint) -> Result<(), AllocError>
    ensures { OnOk result (line.new.items ≡ line.old.items ++ point_text point.now) }
{
    line.extend_from_slice(b"{\"number\":")?;
    put_number(line, point.number)?;
    line.extend_from_slice(b",\"hash\":")?;
    put_hex(alloc, line, point.hash.as_slice())?;
    line.extend_from_slice(b"}")
}

/// Appends where a chain ends.
pub fn put_tip(alloc: Global, line: &mut Vec<u8>, tip: &ChainTip) -> Result<(), AllocError>
    ensures { OnOk result (line.new.items ≡ line.old.items ++ tip_text tip.now) }
{
    line.extend_from_slice(b"{\"number\":")?;
    put_number(line, tip.number)?;
    line.extend_from_slice(b",\"hash\":")?;
    put_hex(alloc, line, tip.hash.as_slice())?;
    line.extend_from_slice(b",\"slot\":")?;
    put_number(line, tip.slot)?;
    line.extend_from_slice(b"}")
}

/// Appends a block. Takes memory for twice its bytes beside what is appended.
pub fn put_block(alloc: Global, line: &mut Vec<u8>, block: &ToldBlock<'_>) -> Result<(), AllocError>
    ensures { OnOk result (line.new.items ≡ line.old.items ++ block_text block.now) }
{
    line.extend_from_slice(b"{\"number\":")?;
    put_number(line, block.number)?;
    line.extend_from_slice(b",\"hash\":")?;
    put_hex(alloc, line, block.hash.as_slice())?;
    line.extend_from_slice(b",\"slot\":")?;
    put_number(line, block.slot)?;
    line.extend_from_slice(b",\"cbor\":")?;
    put_hex(alloc, line, block.bytes)?;
    line.extend_from_slice(b"}")
}

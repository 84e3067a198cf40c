//! Records of a log.

ghost use Rattle.std.specs.Prelude.{◌≡◌, ◌++◌, ℕ, List, IfOk, OnOk, string_bytes};
ghost use Rattle.showing.specs.Records.{lines_of_facts, record_head, AreFactsOf, AreLinesOfRecord};

use crate::lines::{put_id, put_number, put_words};
use block::{BlockRef, look};
use std::alloc::{AllocError, Global};

/// Appends what is told of a block in a record.
fn put_facts(out: &mut String, block: &BlockRef<'_>) -> Result<(), AllocError>
    ensures { OnOk result (string_bytes out.new ≡ string_bytes out.old ++ lines_of_facts block.now) }
{
    put_id(out, "  ", "block", &block.hash())?;
    put_number(out, "  ", "number", block.header().number)?;
    put_number(out, "  ", "slot", block.header().slot)
}

/// Appends the same of bytes, which may be no block.
fn put_found(alloc: Global, out: &mut String, bytes: &[u8]) -> Result<(), AllocError>
    ensures { OnOk result ((facts : List ℕ) × AreFactsOf bytes.now facts
        × (string_bytes out.new ≡ string_bytes out.old ++ facts)) }
{
    match look(alloc, bytes)? {
        Ok(block) => put_facts(out, &block),
        Err(_) => put_words(out, "  ", "no block"),
    }
}

/// Appends which record it is.
fn put_head(out: &mut String, number: u64, place: u64, size: u64) -> Result<(), AllocError>
    ensures { OnOk result (string_bytes out.new ≡ string_bytes out.old ++ record_head number place size) }
{
    put_number(out, "", "record", number)?;
    put_number(out, "  ", "place", place)?;
    put_number(out, "  ", "size", size)
}

/// The lines of a record of a log, its `number` counted from 1: `record N`, and indented `place N`, where it begins in
/// the file, in bytes from 0; `size N`, how many bytes its block has; and of the block `block HASH`, `number N` and
/// `slot N`, or `no block` where its bytes are none. Err where memory runs out, which is asked for while the block's
/// transactions are read. Linear in the bytes.
pub fn show_record(
    alloc: Global,
    number: u64,
    place: u64,
    block: &[u8],
) -> Result<String, AllocError>
    ensures { IfOk result (λ lines. AreLinesOfRecord number place block.now (string_bytes lines)) }
{
    let mut lines = String::new(alloc);
    put_head(&mut lines, number, place, block.len() as u64)?;
    put_found(alloc, &mut lines, block)?;
    Ok(lines)
}

//! Blocks, with the verdicts on their transactions.

ghost use Rattle.std.specs.Prelude.{◌≡◌, ◌++◌, IfOk, OnOk, flat_map, length, option_map, string_bytes};
ghost use Rattle.model.specs.Block.{block_text};
ghost use Rattle.block.specs.View.{bytes_of, header_of};
ghost use Rattle.showing.specs.Blocks.{lines_of_block, lines_of_header, previous_line};
ghost use Rattle.showing.specs.Transactions.{lines_of_transaction};

use crate::lines::{put_id, put_number, put_words};
use crate::transactions::put_transaction;
use block::{CheckedBlock, Header};
use ident::BlockHash;
use std::alloc::{AllocError, Global};
use witness_pool::{CheckedTx, SigScheme};

/// Appends the line of the block before.
fn put_previous(out: &mut String, previous: &Option<BlockHash>) -> Result<(), AllocError>
    ensures { OnOk result (string_bytes out.new ≡ string_bytes out.old
        ++ previous_line (option_map bytes_of previous.now)) }
{
    match previous {
        Some(hash) => put_id(out, "", "previous", hash),
        None => put_words(out, "", "previous null"),
    }
}

/// Appends the lines of a header.
fn put_header(out: &mut String, header: &Header) -> Result<(), AllocError>
    ensures { OnOk result (string_bytes out.new ≡ string_bytes out.old ++ lines_of_header (header_of header.now)) }
{
    put_number(out, "", "number", header.number)?;
    put_number(out, "", "slot", header.slot)?;
    put_previous(out, &header.previous)?;
    put_id(out, "", "body_hash", &header.body_hash)
}

/// How many bytes the text of a block has.
fn text_size<S: SigScheme>(block: &CheckedBlock<S>) -> u64
    ensures { result ≡ length (block_text block.now) }
{
    block.bytes().len() as u64
}

/// Appends the lines of each of these transactions.
fn put_transactions<S: SigScheme>(
    alloc: Global,
    out: &mut String,
    margin: &str,
    transactions: &[CheckedTx<S>],
) -> Result<(), AllocError>
    ensures { OnOk result (string_bytes out.new ≡ string_bytes out.old
        ++ flat_map (lines_of_transaction S.verifies margin.now) transactions.now) }
{
    for tx in transactions {
        put_transaction(alloc, out, margin, tx)?;
    }
    Ok(())
}

/// Appends the lines of a block.
fn put_block<S: SigScheme>(
    alloc: Global,
    out: &mut String,
    block: &CheckedBlock<S>,
) -> Result<(), AllocError>
    ensures { OnOk result (string_bytes out.new ≡ string_bytes out.old ++ lines_of_block S.verifies block.now) }
{
    let transactions = block.transactions();
    put_id(out, "", "block", &block.hash())?;
    put_number(out, "", "size", text_size(block))?;
    put_header(out, block.header())?;
    put_number(out, "", "body_size", block.body_size() as u64)?;
    put_number(out, "", "transactions", transactions.len() as u64)?;
    put_transactions(alloc, out, "  ", transactions)
}

/// The lines of a block, in the order of its text: `block HASH`; `size N`, in bytes; `number N`; `slot N`; `previous
/// HASH`, or `previous null` of a first block; `body_hash HASH`; `body_size N`, in bytes; `transactions N`, and
/// indented the lines of each transaction. Err where memory runs out. Takes time and memory in proportion to the lines.
pub fn show_block<S: SigScheme>(
    alloc: Global,
    block: &CheckedBlock<S>,
) -> Result<String, AllocError>
    ensures { IfOk result (λ lines. string_bytes lines ≡ lines_of_block S.verifies block.now) }
{
    let mut lines = String::new(alloc);
    put_block(alloc, &mut lines, block)?;
    Ok(lines)
}

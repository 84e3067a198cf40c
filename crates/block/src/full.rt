//! The text of a block of transactions that are handed in (RFC 8949, section 4.2.1).

ghost use Rattle.std.specs.Prelude.{◌≡◌, ◌<◌, ◌^◌, ◌++◌, List, length, None, option_map, OnOk, IfOk, IfErr, IfSome};
ghost use Rattle.std.specs.List.{AllByRecursion};
ghost use Rattle.sha2.specs.Sha256.{sha256};
ghost use Rattle.model.specs.Cbor.{head, text_of};
ghost use Rattle.model.specs.Transaction.{Transaction};
ghost use Rattle.model.specs.Block.{IsHeader, SpellsBlock, block_hash_of, item_of_header, item_of_transactions};
ghost use Rattle.block.specs.View.{bytes_of, header_of};
ghost use Rattle.block.specs.Written.{full_block, header_over, text_over, FitsBlock, IsBodyText, IsFirstTooDeep};
ghost use Rattle.block.specs.Written.{IsNoText, IsUnspelled, IsWriteFault};

use crate::fault::{NoText, WriteFault};
use crate::header::{Header, NUMBER_LIMIT};
use crate::writing::write_header;
use ident::{BlockHash, BodyHash};
use std::alloc::{AllocError, Global};
use tx::{MAX_TX_NESTING, Tx};

/// The largest size of what stands before the body, in bytes.
const LARGEST_FRONT: usize = 88;

/// Where the first transaction stands that nests deeper than a block's may.
fn first_too_deep(transactions: &[Tx]) -> Option<usize>
    ensures none { result ≡ None → AllByRecursion FitsBlock transactions.now }
    ensures some { IfSome result (λ i. IsFirstTooDeep i transactions.now) }
    ensures counted { result ≡ None → length transactions.now < 2 ^ 64 }
{
    let mut index = 0;
    for tx in transactions {
        if tx.nesting() > MAX_TX_NESTING {
            return Some(index);
        }
        index += 1;
    }
    None
}

/// The text of a body.
fn body_text(alloc: Global, transactions: &[Tx]) -> Result<Vec<u8>, AllocError>
    ensures { IfOk result (λ text. text.items ≡ text_of (item_of_transactions transactions.now)) }
{
    let mut text = Vec::new(alloc);
    cbor::write_list_array(&mut text, transactions)?;
    Ok(text)
}

/// The text of a header.
fn header_text(alloc: Global, header: &Header) -> Result<Vec<u8>, AllocError>
    ensures { IfOk result (λ text. text.items ≡ text_of (item_of_header (header_of header.now))) }
{
    let mut text = Vec::with_capacity(alloc, LARGEST_FRONT)?;
    write_header(&mut text, header)?;
    Ok(text)
}

/// The text of the block whose header and body have these texts.
fn text_with(alloc: Global, header: &[u8], body: &[u8]) -> Result<Vec<u8>, AllocError>
    ensures { IfOk result (λ text. text.items ≡ head 4 2 ++ (header.now ++ body.now)) }
{
    let mut out = Vec::with_capacity(alloc, body.len().saturating_add(LARGEST_FRONT))?;
    cbor::write_array(&mut out, 2)?;
    out.extend_from_slice(header)?;
    out.extend_from_slice(body)?;
    Ok(out)
}

/// The text of the block of this header whose body has this text, and the hash of the header's text.
fn join(alloc: Global, header: &Header, body: &[u8]) -> Result<(Vec<u8>, BlockHash), AllocError>
    ensures text { IfOk result (λ x.
        x.0.items ≡ head 4 2 ++ (text_of (item_of_header (header_of header.now)) ++ body.now)) }
    ensures hash { IfOk result (λ x. x.1.bytes ≡ sha256 (text_of (item_of_header (header_of header.now)))) }
{
    let header = header_text(alloc, header)?;
    let text = text_with(alloc, &header, body)?;
    Ok((text, BlockHash::of_header(&header)))
}

/// What [`write`] writes, with the hash of the block: the SHA-256 digest (FIPS 180-4) of its header's text, which is
/// hashed once. Faults and cost are those of [`write`].
pub fn write_with_hash(
    alloc: Global,
    number: u64,
    slot: u64,
    previous: Option<BlockHash>,
    transactions: &[Tx],
) -> Result<(Vec<u8>, BlockHash), NoText>
    ensures ok { IfOk result (λ x.
        SpellsBlock (full_block number slot (option_map bytes_of previous) transactions.now) x.0.items) }
    ensures hash { IfOk result (λ x.
        x.1.bytes ≡ block_hash_of (full_block number slot (option_map bytes_of previous) transactions.now)) }
    ensures fault { IfErr result (IsNoText (full_block number slot (option_map bytes_of previous) transactions.now)) }
    ensures none { IfErr result (IsUnspelled (full_block number slot (option_map bytes_of previous) transactions.now)) }
{
    if number >= NUMBER_LIMIT || slot >= NUMBER_LIMIT {
        return Err(NoText::OutOfRange);
    }
    if let Some(index) = first_too_deep(transactions) {
        return Err(NoText::TooDeep(index));
    }
    let body = body_text(alloc, transactions)?;
    let header = Header {
        number,
        slot,
        previous,
        body_hash: BodyHash::of_body(&body),
    };
    Ok(join(alloc, &header, &body)?)
}

/// The text of the block whose body has this text, with its hash: what [`write_with_hash`] writes of the transactions
/// that the body holds. OutOfRange where the number or the slot is 2^63 or more, else OutOfMemory where memory runs
/// out. Linear in the body, which is hashed once and copied once. Whether the bytes are a body's is not looked at:
/// where they are none, they stand after a header that names their digest all the same.
pub fn write_with_body(
    alloc: Global,
    number: u64,
    slot: u64,
    previous: Option<BlockHash>,
    body: &[u8],
) -> Result<(Vec<u8>, BlockHash), WriteFault>
    ensures ok { IfOk result (λ x. (txs : List Transaction) → IsBodyText txs body.now →
        SpellsBlock (full_block number slot (option_map bytes_of previous) txs) x.0.items) }
    ensures hash { IfOk result (λ x. (txs : List Transaction) → IsBodyText txs body.now →
        x.1.bytes ≡ block_hash_of (full_block number slot (option_map bytes_of previous) txs)) }
    // Of whatever bytes it is these bytes after a header that names their digest, and the digest of that.
    ensures text { IfOk result (λ x.
        x.0.items ≡ text_over (header_over number slot (option_map bytes_of previous) body.now) body.now) }
    ensures digest { IfOk result (λ x. x.1.bytes ≡
        sha256 (text_of (item_of_header (header_over number slot (option_map bytes_of previous) body.now)))) }
    // So it is out of range exactly where a number is.
    ensures range { OnOk result (IsHeader (header_over number slot (option_map bytes_of previous) body.now)) }
    ensures fault { IfErr result (IsWriteFault (header_over number slot (option_map bytes_of previous) body.now)) }
{
    if number >= NUMBER_LIMIT || slot >= NUMBER_LIMIT {
        return Err(WriteFault::OutOfRange);
    }
    let header = Header {
        number,
        slot,
        previous,
        body_hash: BodyHash::of_body(body),
    };
    Ok(join(alloc, &header, body)?)
}

/// The text of the block of these transactions, in this order, with this number and slot, after the block with this
/// hash, or None for the first block of a chain (RFC 8949, section 4.2.1). Its header names the SHA-256 digest (FIPS
/// 180-4) of the body's text. Else the first of these faults that applies:
/// - OutOfRange: the number or the slot is 2^63 or more;
/// - TooDeep: a transaction nests deeper than 62, so that the block would nest deeper than 64;
/// - OutOfMemory: memory ran out, and neither of these applies.
///
/// A text of more than 1,048,576 bytes is written too, and is read by no [`crate::read`]. Linear in the text: the body
/// is hashed once, and its text copied once.
pub fn write(
    alloc: Global,
    number: u64,
    slot: u64,
    previous: Option<BlockHash>,
    transactions: &[Tx],
) -> Result<Vec<u8>, NoText>
    ensures ok { IfOk result (λ text.
        SpellsBlock (full_block number slot (option_map bytes_of previous) transactions.now) text.items) }
    ensures fault { IfErr result (IsNoText (full_block number slot (option_map bytes_of previous) transactions.now)) }
    ensures none { IfErr result (IsUnspelled (full_block number slot (option_map bytes_of previous) transactions.now)) }
{
    let (text, _hash) = write_with_hash(alloc, number, slot, previous, transactions)?;
    Ok(text)
}

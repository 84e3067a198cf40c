//! Blocks, with the verdicts on their transactions.

ghost use Rattle.std.specs.Prelude.{◌≡◌, ◌≤◌, IfOk, OnOk, codes, length, option_map, string_bytes};
ghost use Rattle.serde_json.specs.Data.{put};
ghost use Rattle.serde_json.specs.View.{view, members_view};
ghost use Rattle.model.specs.Block.{block_text, item_of_block};
ghost use Rattle.model.specs.Cbor.{nesting};
ghost use Rattle.model.specs.Limits.{nesting_limit};
ghost use Rattle.block.specs.View.{bytes_of};
ghost use Rattle.describing.specs.Blocks.{json_of_block};
ghost use Rattle.describing.specs.Documents.{document_text, IsReadAs};
ghost use Rattle.describing.specs.Parts.{json_list, json_of_given_bytes};
ghost use Rattle.describing.specs.Transactions.{json_of_transaction};

use crate::documents::document;
use crate::parts::{put_bytes, put_number};
use crate::transactions::transaction_object;
use block::CheckedBlock;
use ident::BlockHash;
use serde_json::{Map, Value as Json};
use std::alloc::{AllocError, Global};
use witness_pool::{CheckedTx, SigScheme};

/// Puts the hash of the block before into an object.
fn put_previous(
    alloc: Global,
    object: &mut Map<String, Json>,
    previous: &Option<BlockHash>,
) -> Result<(), AllocError>
    ensures { OnOk result (members_view object.new.entries ≡ put (codes "previous")
        (json_of_given_bytes (option_map bytes_of previous.now)) (members_view object.old.entries)) }
{
    match previous {
        Some(hash) => put_bytes(alloc, object, "previous", hash.as_bytes()),
        None => serde_json::put(object, alloc, "previous", Json::Null),
    }
}

/// How many bytes the text of a block has.
fn text_size<S: SigScheme>(block: &CheckedBlock<S>) -> u64
    ensures size { result ≡ length (block_text block.now) }
    // The block has a text.
    ensures nests { nesting (item_of_block block.now) ≤ nesting_limit }
{
    block.bytes().len() as u64
}

/// The list of these transactions.
fn transactions_json<S: SigScheme>(
    alloc: Global,
    transactions: &[CheckedTx<S>],
) -> Result<Json, AllocError>
    ensures { IfOk result (λ json. view json
        ≡ json_list (json_of_transaction S.verifies) transactions.now) }
{
    let mut list = Vec::new(alloc);
    for tx in transactions {
        list.push(transaction_object(alloc, tx)?)?;
    }
    Ok(Json::Array(list))
}

/// A block.
fn block_object<S: SigScheme>(alloc: Global, block: &CheckedBlock<S>) -> Result<Json, AllocError>
    ensures is { IfOk result (λ json. view json ≡ json_of_block S.verifies block.now) }
    ensures nests { IfOk result (λ _. nesting (item_of_block block.now) ≤ nesting_limit) }
{
    let header = block.header();
    let transactions = transactions_json(alloc, block.transactions())?;
    let mut object = Map::new(alloc);
    put_bytes(alloc, &mut object, "hash", block.hash().as_bytes())?;
    put_number(alloc, &mut object, "size", text_size(block))?;
    put_number(alloc, &mut object, "number", header.number)?;
    put_number(alloc, &mut object, "slot", header.slot)?;
    put_previous(alloc, &mut object, &header.previous)?;
    put_bytes(alloc, &mut object, "body_hash", header.body_hash.as_bytes())?;
    put_number(alloc, &mut object, "body_size", block.body_size() as u64)?;
    serde_json::put(&mut object, alloc, "transactions", transactions)?;
    Ok(Json::Object(object))
}

/// The document of a block: its `hash`; its `size`, in bytes; its `number`; its `slot`; `previous`, the hash of the
/// block before, `null` of a first block; its `body_hash`; its `body_size`, in bytes; and its `transactions`. Err where
/// memory runs out. Takes time and memory in proportion to the document.
pub fn block_json<S: SigScheme>(
    alloc: Global,
    block: &CheckedBlock<S>,
) -> Result<String, AllocError>
    ensures text { IfOk result (λ text. string_bytes text
        ≡ document_text (json_of_block S.verifies block.now)) }
    ensures reads_back { IfOk result (λ text. IsReadAs (string_bytes text)
        (json_of_block S.verifies block.now)) }
{
    let json = block_object(alloc, block)?;
    document(alloc, &json)
}

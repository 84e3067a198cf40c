//! Records of a log.

ghost use Rattle.std.specs.Prelude.{◌≡◌, None, Option, Some, IfOk, OnOk, length, string_bytes};
ghost use Rattle.serde_json.specs.View.{view, members_view};
ghost use Rattle.model.specs.Block.{Block};
ghost use Rattle.describing.specs.Assembled.{facts_members, put_all};
ghost use Rattle.describing.specs.Records.{IsFound, IsRecordAsJson, IsRecordText};

use crate::parts::{put_bytes, put_number};
use block::{BlockRef, look};
use serde_json::{Map, Value as Json};
use std::alloc::{AllocError, Global};

/// Puts what is told of a block in a record into an object.
fn put_facts(
    alloc: Global,
    object: &mut Map<String, Json>,
    block: &BlockRef<'_>,
) -> Result<(), AllocError>
    ensures { OnOk result (members_view object.new.entries
        ≡ put_all (facts_members (Some block.now)) (members_view object.old.entries)) }
{
    put_bytes(alloc, object, "hash", block.hash().as_bytes())?;
    put_number(alloc, object, "number", block.header().number)?;
    put_number(alloc, object, "slot", block.header().slot)
}

/// Puts into an object that the bytes of a record are no block.
fn put_no_facts(alloc: Global, object: &mut Map<String, Json>) -> Result<(), AllocError>
    ensures { OnOk result (members_view object.new.entries
        ≡ put_all (facts_members None) (members_view object.old.entries)) }
{
    serde_json::put(object, alloc, "hash", Json::Null)?;
    serde_json::put(object, alloc, "number", Json::Null)?;
    serde_json::put(object, alloc, "slot", Json::Null)
}

/// Puts what is told of the bytes of a record into an object.
fn put_found(alloc: Global, object: &mut Map<String, Json>, bytes: &[u8]) -> Result<(), AllocError>
    ensures { OnOk result ((found : Option Block) × IsFound bytes.now found
        × (members_view object.new.entries ≡ put_all (facts_members found) (members_view object.old.entries))) }
{
    match look(alloc, bytes)? {
        Ok(block) => put_facts(alloc, object, &block),
        Err(_) => put_no_facts(alloc, object),
    }
}

/// A record.
fn record_object(alloc: Global, number: u64, place: u64, block: &[u8]) -> Result<Json, AllocError>
    ensures { IfOk result (λ json. IsRecordAsJson number place block.now (view json)) }
{
    let mut object = Map::new(alloc);
    put_number(alloc, &mut object, "record", number)?;
    put_number(alloc, &mut object, "place", place)?;
    put_number(alloc, &mut object, "size", block.len() as u64)?;
    put_found(alloc, &mut object, block)?;
    Ok(Json::Object(object))
}

/// The JSON of a record of a log, without a line feed: `record`, its number; its `place`, where it begins in the file,
/// in bytes from 0; its `size`, how many bytes its block has; and of the block `hash`, `number` and `slot`, each `null`
/// where the bytes are no block. A number from 2^53 on is a string of its digits. Err where memory runs out. Takes time
/// and memory in proportion to the bytes.
pub fn record_json(
    alloc: Global,
    number: u64,
    place: u64,
    block: &[u8],
) -> Result<String, AllocError>
    ensures { IfOk result (λ text. IsRecordText number place block.now (string_bytes text)) }
{
    let json = record_object(alloc, number, place, block)?;
    json.to_string(alloc)
}

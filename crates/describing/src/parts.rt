//! The parts of the documents: numbers, bytes, and members of objects.

ghost use Rattle.std.specs.Prelude.{◌≡◌, IfOk, OnOk};
ghost use Rattle.serde_json.specs.Data.{put, string};
ghost use Rattle.serde_json.specs.View.{view, members_view};
ghost use Rattle.describing.specs.Parts.{json_of_bytes, json_of_given, json_of_number, json_of_whole};

use serde_json::{Map, Value as Json};
use std::alloc::{AllocError, Global};

/// The first number that is a string of decimal digits, 2^53: below it a double has each whole number (RFC 8259,
/// section 6), so those are JSON numbers.
const PLAIN_NUMBER_LIMIT: u64 = 9_007_199_254_740_992;

/// A number.
pub fn number_json(alloc: Global, number: u64) -> Result<Json, AllocError>
    ensures { IfOk result (λ json. view json ≡ json_of_number number) }
{
    if number < PLAIN_NUMBER_LIMIT {
        Ok(Json::from(number))
    } else {
        Ok(Json::String(format!(in alloc; "{number}")?))
    }
}

/// A number that may be below 0.
pub fn whole_json(alloc: Global, number: i64) -> Result<Json, AllocError>
    ensures { IfOk result (λ json. view json ≡ json_of_whole number) }
{
    if number.unsigned_abs() < PLAIN_NUMBER_LIMIT {
        Ok(Json::from(number))
    } else {
        Ok(Json::String(format!(in alloc; "{number}")?))
    }
}

/// Bytes.
pub fn bytes_json(alloc: Global, bytes: &[u8]) -> Result<Json, AllocError>
    ensures { IfOk result (λ json. view json ≡ json_of_bytes bytes.now) }
{
    Ok(Json::String(hex::encode(alloc, bytes)?))
}

/// Puts a number into an object.
pub fn put_number(
    alloc: Global,
    object: &mut Map<String, Json>,
    name: &str,
    number: u64,
) -> Result<(), AllocError>
    ensures { OnOk result (members_view object.new.entries
        ≡ put name.now (json_of_number number) (members_view object.old.entries)) }
{
    serde_json::put(object, alloc, name, number_json(alloc, number)?)
}

/// Puts a number into an object, or `null` where none is given.
pub fn put_given(
    alloc: Global,
    object: &mut Map<String, Json>,
    name: &str,
    number: Option<u64>,
) -> Result<(), AllocError>
    ensures { OnOk result (members_view object.new.entries
        ≡ put name.now (json_of_given number) (members_view object.old.entries)) }
{
    match number {
        Some(number) => put_number(alloc, object, name, number),
        None => serde_json::put(object, alloc, name, Json::Null),
    }
}

/// Puts a text into an object.
pub fn put_text(
    alloc: Global,
    object: &mut Map<String, Json>,
    name: &str,
    text: &str,
) -> Result<(), AllocError>
    ensures { OnOk result (members_view object.new.entries
        ≡ put name.now (string text.now) (members_view object.old.entries)) }
{
    serde_json::put(
        object,
        alloc,
        name,
        Json::String(format!(in alloc; "{text}")?),
    )
}

/// Puts bytes into an object.
pub fn put_bytes(
    alloc: Global,
    object: &mut Map<String, Json>,
    name: &str,
    bytes: &[u8],
) -> Result<(), AllocError>
    ensures { OnOk result (members_view object.new.entries
        ≡ put name.now (json_of_bytes bytes.now) (members_view object.old.entries)) }
{
    serde_json::put(object, alloc, name, bytes_json(alloc, bytes)?)
}

//! Where a key of a genesis document stands.

use crate::genesis_spot::Spot;
use crate::place::Place;
use std::alloc::{AllocError, Global};
use toml::{Table, Value};

/// A document in which the key stands once.
fn once(alloc: Global, key: &str) -> Result<String, AllocError> {
    let mut table = Table::new(alloc);
    let key = String::from_str(alloc, key)?;
    let Ok(_) = table.insert(key, Value::Integer(0)) else {
        return Err(AllocError);
    };
    match toml::table_to_string(alloc, &table) {
        Ok(text) => Ok(text),
        Err(_) => Err(AllocError),
    }
}

/// How many bytes a mark takes that may stand before a text of UTF-8.
fn mark_size(document: &[u8]) -> usize {
    match document {
        [0xEF, 0xBB, 0xBF, ..] => 3,
        _ => 0,
    }
}

/// Where a document defines a key, none where it doesn't. It is the reader that says so: it refuses a second definition
/// of a key, and tells where that one stands.
fn key_start(alloc: Global, document: &[u8], key: &str) -> Result<Option<usize>, AllocError> {
    let mark = mark_size(document);
    let (_, unmarked) = document.split_at(mark.min(document.len()));
    let once = once(alloc, key)?;
    let mut twice = Vec::from_slice(alloc, once.as_bytes())?;
    twice.extend_from_slice(unmarked)?;
    let Err(error) = toml::table_from_slice(alloc, &twice) else {
        return Ok(None);
    };
    let Some(span) = error.span() else {
        return Err(AllocError);
    };
    match span.start.checked_sub(once.len()) {
        Some(start) => Ok(Some(start.saturating_add(mark))),
        None => Ok(None),
    }
}

/// Where the header of an output stands, counted from 0: a line that begins with two brackets. None where there are
/// not that many.
fn header_start(document: &[u8], output: usize) -> Option<usize> {
    let mut left = output;
    let mut begins = true;
    for (place, byte) in document.iter().enumerate() {
        if begins && is_header(document, place) {
            if left == 0 {
                return Some(place);
            }
            left -= 1;
        }
        begins = *byte == b'\n' || begins && matches!(*byte, b' ' | b'\t');
    }
    None
}

/// Whether two brackets stand at this place.
fn is_header(document: &[u8], place: usize) -> bool {
    document.get(place) == Some(&b'[') && document.get(place.saturating_add(1)) == Some(&b'[')
}

/// Whether a document has `count` outputs, as its reader reads it.
fn has_outputs(alloc: Global, document: &[u8], count: usize) -> Result<bool, AllocError> {
    match toml::table_from_slice(alloc, document) {
        Ok(table) => match table.get("output") {
            None => Ok(count == 0),
            Some(value) => match value.as_array() {
                Some(outputs) => Ok(outputs.len() == count),
                None => Ok(false),
            },
        },
        Err(error) if error.is_memory() => Err(AllocError),
        Err(_) => Ok(false),
    }
}

/// Where a key of an output stands, or else the header of the output. None where it has no header of its own.
fn output_start(
    alloc: Global,
    document: &[u8],
    output: usize,
    key: &str,
) -> Result<Option<usize>, AllocError> {
    let Some(start) = header_start(document, output) else {
        return Ok(None);
    };
    let (before, section) = document.split_at(start.min(document.len()));
    // Brackets in a text of several lines are no header.
    if !has_outputs(alloc, before, output)? {
        return Ok(None);
    }
    let size = match section.iter().position(|byte| *byte == b'\n') {
        Some(size) => size,
        None => section.len(),
    };
    let (header, rest) = section.split_at(size.min(section.len()));
    let body = match header_start(rest, 0) {
        Some(next) => rest.split_at(next.min(rest.len())).0,
        None => rest,
    };
    if !has_outputs(alloc, body, 0)? {
        return Ok(Some(start));
    }
    match key_start(alloc, body, key)? {
        Some(place) => Ok(Some(start.saturating_add(header.len()).saturating_add(place))),
        None => Ok(Some(start)),
    }
}

/// Where a key stands of which something is wrong, as far as the reader tells it. None where it stands nowhere.
pub fn spot_place(
    alloc: Global,
    document: &[u8],
    spot: &Spot<'_>,
) -> Result<Option<Place>, AllocError> {
    let start = match spot.output {
        None => key_start(alloc, document, spot.key)?,
        Some(output) => match output_start(alloc, document, output, spot.key)? {
            Some(start) => Some(start),
            None => key_start(alloc, document, "output")?,
        },
    };
    let Some(start) = start else {
        return Ok(None);
    };
    Ok(document.get(..start).map(Place::after))
}

//! Walks over the texts of items. Recursion goes down the nesting alone, so its depth is bounded, and no memory is
//! taken. The time is linear in the bytes: each is read once, and compared at most twice for each map of which it
//! stands in a key, which are 63 at most. A count that the bytes claim is followed only as far as they go.

ghost use Rattle.std.specs.Prelude.{◌<◌, [], IfOk, IfErr};
ghost use Rattle.wellformed.specs.Parts.{HasBytes, AreMembers, IsEntryText, AreEntries, IsItemText};
ghost use Rattle.wellformed.specs.Stops.{Stops};
ghost use Rattle.wellformed.specs.Walks.{FindsBytes, FindsMembers, FindsEntry, FindsEntries, FindsItem};

use crate::argument::argument;
use crate::initial::begins_item;
use crate::stop::Stop;

/// What stands behind the texts that were walked over, and how many bytes are left from the first key on that does not
/// stand after the key before it.
#[derive(Clone, Copy)]
pub struct Walk<'a> {
    pub rest: &'a [u8],
    pub late: Option<usize>,
}

/// Over as many bytes.
fn string(count: u64, bytes: &[u8]) -> Result<Walk<'_>, Stop>
    ensures found { IfOk result (λ walk. FindsBytes count bytes.now walk.rest.now walk.late) }
    ensures stops { IfErr result (λ stop. Stops (HasBytes count) bytes.now stop) }
{
    if (bytes.len() as u64) < count {
        return Err(Stop::Ends);
    }
    let (_, rest) = bytes.split_at(count as usize);
    Ok(Walk { rest, late: None })
}

/// Over `count` members, which nest at most `depth` deep.
#[cycle(walking)]
fn members(depth: u8, count: u64, bytes: &[u8]) -> Result<Walk<'_>, Stop>
    requires { 0 < count → 0 < depth }
    ensures found { IfOk result (λ walk. FindsMembers depth count bytes.now walk.rest.now walk.late) }
    ensures stops { IfErr result (λ stop. Stops (AreMembers depth count) bytes.now stop) }
{
    let mut rest = bytes;
    let mut late = None;
    for _ in 0..count {
        let member = item(depth, rest)?;
        rest = member.rest;
        late = late.or(member.late);
    }
    Ok(Walk { rest, late })
}

/// Over an entry whose key is to stand after the one with this text, and the text of its own key.
#[cycle(walking)]
fn entry<'a>(depth: u8, before: &[u8], bytes: &'a [u8]) -> Result<(Walk<'a>, &'a [u8]), Stop>
    requires { 0 < depth }
    ensures found { IfOk result (λ x. FindsEntry depth before.now bytes.now x.1.now x.0.rest.now x.0.late) }
    ensures stops { IfErr result (λ stop. Stops (IsEntryText depth) bytes.now stop) }
{
    let key = item(depth, bytes)?;
    let text = &bytes[..bytes.len() - key.rest.len()];
    let late = if before.cmp(text).is_ge() {
        Some(bytes.len())
    } else {
        key.late
    };
    let value = item(depth, key.rest)?;
    let walk = Walk {
        rest: value.rest,
        late: late.or(value.late),
    };
    Ok((walk, text))
}

/// Over `count` entries, which nest at most `depth` deep.
#[cycle(walking)]
fn entries(depth: u8, count: u64, bytes: &[u8]) -> Result<Walk<'_>, Stop>
    requires { 0 < count → 0 < depth }
    ensures found { IfOk result (λ walk. FindsEntries depth [] count bytes.now walk.rest.now walk.late) }
    ensures stops { IfErr result (λ stop. Stops (AreEntries depth count) bytes.now stop) }
{
    let mut before = &bytes[..0];
    let mut rest = bytes;
    let mut late = None;
    for _ in 0..count {
        let (next, text) = entry(depth, before, rest)?;
        before = text;
        rest = next.rest;
        late = late.or(next.late);
    }
    Ok(Walk { rest, late })
}

/// Over the item that stands first, which nests at most so deep.
#[cycle(walking)]
pub fn item(depth: u8, bytes: &[u8]) -> Result<Walk<'_>, Stop>
    requires { 0 < depth }
    ensures found { IfOk result (λ walk. FindsItem depth bytes.now walk.rest.now walk.late) }
    ensures stops { IfErr result (λ stop. Stops (IsItemText depth) bytes.now stop) }
{
    let Some((first, after)) = bytes.split_first() else {
        return Err(Stop::Ends);
    };
    if !begins_item(depth, *first) {
        return Err(Stop::Initial(bytes.len()));
    }
    let (argument, contents) = argument(*first % 32, after)?;
    match *first / 32 {
        2 => string(argument, contents),
        4 => members(depth - 1, argument, contents),
        5 => entries(depth - 1, argument, contents),
        _ => Ok(Walk {
            rest: contents,
            late: None,
        }),
    }
}

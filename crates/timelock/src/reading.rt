//! Reading timelocks (RFC 8949, sections 3.1 and 4.2.1). Recursion goes down the nesting alone, so its depth is
//! bounded; the time is linear in the bytes. A count that the bytes claim reserves nothing.

ghost use Rattle.std.specs.Prelude.{◌≡◌, ◌<◌, map, IfErr, OnErr};
ghost use Rattle.model.specs.Script.{NoScripts};
ghost use Rattle.cbor.specs.Shapes.{list_at};
ghost use Rattle.cbor.specs.Gives.{Gives, GivesNo, IfWant};
ghost use Rattle.timelock.specs.View.{timelock_of};
ghost use Rattle.timelock.specs.Reading.{scripts_at, members_of_kind, of_kind_at, script_at};
ghost use Rattle.timelock.specs.Bare.{IsBareScript, BeginsLikeScript};

use crate::timelock::{Timelock, Timelocks};
use cbor::CborFault;
use ident::KeyHash;
use std::alloc::Global;

/// `count` timelocks, one after the other, of which at most `depth` stand in one another. Where there is none no memory
/// is asked for.
#[cycle(reading)]
fn list(
    alloc: Global,
    depth: usize,
    count: u64,
    bytes: &[u8],
) -> Result<(Vec<Timelock>, &[u8]), CborFault>
    ensures exact { Gives (λ x. (map timelock_of x.0.items, x.1.now)) result
        (list_at (script_at depth) count bytes.now) }
    ensures some { OnErr result (0 < count) }
{
    let mut list = Vec::new(alloc);
    let mut rest = bytes;
    for _ in 0..count {
        let (next, after) = timelock(alloc, depth, rest)?;
        list.push(next)?;
        rest = after;
    }
    Ok((list, rest))
}

/// An array of timelocks, of which at most `depth` stand in one another. The empty array asks for no memory.
#[cycle(reading)]
#[tactic(auto, using(crate::proofs::Members::scripts_are), unfolding(crate::specs::Reading::scripts_at, cbor::specs::Shapes::as_at, cbor::specs::Shapes::list_array_at))]
fn members(alloc: Global, depth: usize, bytes: &[u8]) -> Result<(Timelocks, &[u8]), CborFault>
    ensures exact { Gives (λ x. (x.0, x.1.now)) result (scripts_at (script_at depth) bytes.now) }
    ensures want { IfErr result (λ fault. IfWant fault
        (GivesNo (λ x. x.0 ≡ NoScripts) (scripts_at (script_at depth) bytes.now))) }
{
    let (count, rest) = cbor::array(bytes).ok_or(CborFault::Malformed)?;
    let (list, rest) = list(alloc, depth, count, rest)?;
    Ok((Timelocks::from_vec(list), rest))
}

/// How many members the array of a timelock of this kind has.
fn members_of_kind(kind: u64) -> u64
    ensures { result ≡ members_of_kind kind }
{
    if kind == 3 { 3 } else { 2 }
}

/// What stands after the kind of a timelock.
#[cycle(reading)]
#[tactic(auto, unfolding(crate::specs::Reading::of_kind_at, cbor::specs::Shapes::as_at, cbor::specs::Shapes::both_at))]
fn of_kind(
    alloc: Global,
    depth: usize,
    kind: u64,
    bytes: &[u8],
) -> Result<(Timelock, &[u8]), CborFault>
    ensures exact { Gives (λ x. (timelock_of x.0, x.1.now)) result (of_kind_at (script_at depth) kind bytes.now) }
    ensures want { IfErr result (λ fault. IfWant fault
        (GivesNo (λ x. IsBareScript x.0) (of_kind_at (script_at depth) kind bytes.now))) }
{
    match kind {
        0 => {
            let (hash, rest) = cbor::fixed::<32>(bytes).ok_or(CborFault::Malformed)?;
            Ok((Timelock::RequireSignature(KeyHash::from_bytes(hash)), rest))
        }
        1 => {
            let (all, rest) = members(alloc, depth, bytes)?;
            Ok((Timelock::RequireAllOf(all), rest))
        }
        2 => {
            let (some, rest) = members(alloc, depth, bytes)?;
            Ok((Timelock::RequireAnyOf(some), rest))
        }
        3 => {
            let (least, rest) = cbor::unsigned(bytes).ok_or(CborFault::Malformed)?;
            let (some, rest) = members(alloc, depth, rest)?;
            Ok((Timelock::RequireMOf(least, some), rest))
        }
        4 => {
            let (slot, rest) = cbor::unsigned(bytes).ok_or(CborFault::Malformed)?;
            Ok((Timelock::RequireTimeStart(slot), rest))
        }
        5 => {
            let (slot, rest) = cbor::unsigned(bytes).ok_or(CborFault::Malformed)?;
            Ok((Timelock::RequireTimeExpire(slot), rest))
        }
        _ => Err(CborFault::Malformed),
    }
}

/// The timelock that stands first, of which at most `depth` stand in one another, and the bytes after it. Only those
/// that stand in others ask for memory.
#[cycle(reading)]
#[tactic(auto, unfolding(crate::specs::Reading::script_at, crate::specs::Reading::script_with))]
pub fn timelock(alloc: Global, depth: usize, bytes: &[u8]) -> Result<(Timelock, &[u8]), CborFault>
    ensures exact { Gives (λ x. (timelock_of x.0, x.1.now)) result (script_at depth bytes.now) }
    ensures want { IfErr result (λ fault. IfWant fault (GivesNo (λ x. IsBareScript x.0) (script_at depth bytes.now))) }
    ensures begins { IfErr result (λ fault. IfWant fault (BeginsLikeScript bytes.now)) }
{
    if depth == 0 {
        return Err(CborFault::Malformed);
    }
    let (count, rest) = cbor::array(bytes).ok_or(CborFault::Malformed)?;
    let (kind, rest) = cbor::unsigned(rest).ok_or(CborFault::Malformed)?;
    if count != members_of_kind(kind) {
        return Err(CborFault::Malformed);
    }
    of_kind(alloc, depth - 1, kind, rest)
}

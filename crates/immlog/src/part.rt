//! The parts of a log, as a reader gives them.

ghost use Rattle.std.specs.Prelude.{◌≡◌, ◌↔◌, ◌<◌, ◌≤◌, ◌+◌, ℕ, List, ◌∷◌, length, take, drop};
ghost use Rattle.std.specs.Prelude.{IsTrue, MatchOption, IfOk, IfSome};
ghost use Rattle.model.specs.Limits.{block_size_limit};
ghost use Rattle.model.specs.Log.{body_of};
ghost use Rattle.immlog.specs.Frames.{NoRecordBehind};
ghost use Rattle.immlog.specs.Left.{AreZeros, HasRecord, TellsLength, IsShort, IsLogEnd, IsEndOf};
ghost use Rattle.immlog.specs.Walks.{IsFilled, IsBody, IsNextByte, IsPart, IsSmallPart};

use crate::put::{MOST_WRITTEN, OPEN};
use crate::records::{first_record, is_block_size};
use std::io::{self, ErrorKind, Read};

/// How many bytes stand at most behind the closed gate of a log: the longest record, except for its gate, and the gate
/// behind it.
const MOST_BEHIND: usize = MOST_WRITTEN;

/// How many bytes of room are read into: one more than may stand behind the closed gate of a log.
pub const PART_ROOM: usize = MOST_BEHIND + 1;

/// How many bytes of a record stand between its gate and its block.
const HEAD: usize = 36;

/// How bytes end behind the records of a log.
#[derive(Clone, Copy, Debug, PartialEq, Eq)]
pub enum LogEnd {
    /// By a closed gate alone, or by nothing: the log is at rest.
    Clean,
    /// By a closed gate and what a record left that was being written, as a crash leaves it.
    Torn,
    /// By a gate that isn't open and what no log leaves.
    Foreign,
}

/// What stands next in the bytes of a log.
#[derive(Clone, Copy, Debug, PartialEq, Eq)]
pub enum LogPart {
    /// A record of this many bytes behind its open gate, which stand first in the room: [`block_in`] is its block.
    Record(usize),
    /// An open gate with no record behind it: the log is damaged here.
    Vain,
    /// A gate that isn't open, or nothing.
    End(LogEnd),
}

/// Reads until the room is full, or the reader has no more, and answers how many bytes that were. An interrupted read
/// is made again.
pub fn fill<R: Read>(reader: &mut R, room: &mut [u8]) -> io::Result<usize>
    ensures len { length room.new ≡ length room.old }
    ensures filled { IfOk result (IsFilled (R.remaining reader.old) (R.remaining reader.new) room.new) }
{
    let mut count = 0;
    for _ in 0..u64::MAX {
        if count == room.len() {
            return Ok(count);
        }
        match reader.read(&mut room[count..]) {
            Ok(0) => return Ok(count),
            Ok(more) => count += more,
            Err(error) if error.kind() == ErrorKind::Interrupted => {}
            Err(error) => return Err(error),
        }
    }
    Err(ErrorKind::Other.into())
}

/// The length of a block that the bytes begin with, if they begin with one.
fn told_length(bytes: &[u8]) -> Option<usize>
    ensures { MatchOption result ((len : ℕ) → TellsLength bytes.now len → ⊥) (TellsLength bytes.now) }
{
    let (size, _) = bytes.split_first_chunk::<4>()?;
    let len = u32::from_be_bytes(*size) as usize;
    if is_block_size(len) { Some(len) } else { None }
}

/// What follows the record that begins behind its gate, if one does.
fn whole_record(bytes: &[u8]) -> Option<&[u8]>
    ensures { MatchOption result (NoRecordBehind bytes.now) (λ more. HasRecord bytes.now more.now) }
{
    let (_, block) = first_record(bytes)?;
    Some(&bytes[HEAD + block.len()..])
}

/// Takes the record that stands behind its gate, and answers how many bytes it has without that; None where none does.
fn body_here<R: Read>(reader: &mut R, room: &mut [u8]) -> io::Result<Option<usize>>
    requires room { block_size_limit + 36 ≤ length room.old }
    ensures len { length room.new ≡ length room.old }
    ensures body { IfOk result (λ found. IfSome (R.remaining reader.old)
        (λ bytes. IsBody bytes (R.remaining reader.new) room.new found)) }
    ensures small { IfOk result (λ found. IfSome found (λ len. (36 ≤ len) × (len ≤ block_size_limit + 36))) }
{
    if fill(reader, &mut room[..HEAD])? < HEAD {
        return Ok(None);
    }
    let Some(size) = told_length(&room[..HEAD]) else {
        return Ok(None);
    };
    let count = HEAD + fill(reader, &mut room[HEAD..HEAD + size])?;
    match whole_record(&room[..count]) {
        Some(_) => Ok(Some(count)),
        None => Ok(None),
    }
}

/// Whether all bytes are 0.
fn are_zeros(bytes: &[u8]) -> bool
    ensures { IsTrue result ↔ AreZeros bytes.now }
{
    bytes.iter().all(|byte| *byte == 0)
}

/// The bytes behind the first three.
fn behind_three(bytes: &[u8]) -> &[u8]
    ensures { result.now ≡ drop 3 bytes.now }
{
    if 3 < bytes.len() { &bytes[3..] } else { &[] }
}

/// Whether there are no more bytes than a record that was being written may have left.
fn is_short(bytes: &[u8]) -> bool
    ensures { IsTrue result ↔ IsShort bytes.now }
{
    if bytes.len() <= MOST_BEHIND && are_zeros(behind_three(bytes)) {
        return true;
    }
    match told_length(bytes) {
        Some(len) => bytes.len() <= 37 + len,
        None => false,
    }
}

/// Whether a log ends with this gate and what stands behind it.
fn is_end(gate: u8, behind: &[u8]) -> bool
    ensures { IsTrue result ↔ IsLogEnd (gate ∷ behind.now) }
{
    if gate == OPEN || !is_short(behind) {
        return false;
    }
    match whole_record(behind) {
        Some(more) => are_zeros(more),
        None => gate == 0 || behind.is_empty(),
    }
}

/// Which end this gate and what stands behind it are.
fn end_of(gate: u8, behind: &[u8]) -> LogEnd
    ensures { IsEndOf (gate ∷ behind.now) result }
{
    if !is_end(gate, behind) {
        return LogEnd::Foreign;
    }
    if gate == 0 && behind.is_empty() {
        LogEnd::Clean
    } else {
        LogEnd::Torn
    }
}

/// Which end this gate is, behind which the reader is. Reads one byte more than may stand there.
fn end_here<R: Read>(reader: &mut R, gate: u8, room: &mut [u8]) -> io::Result<LogEnd>
    requires room { block_size_limit + 37 < length room.old }
    ensures len { length room.new ≡ length room.old }
    ensures end { IfOk result (λ end. IfSome (R.remaining reader.old) (λ bytes. IsEndOf (gate ∷ bytes) end)) }
{
    let count = fill(reader, room)?;
    Ok(end_of(gate, &room[..count]))
}

/// Takes the next byte, if there is one.
fn next_byte<R: Read>(reader: &mut R) -> io::Result<Option<u8>>
    ensures { IfOk result (λ found. IfSome (R.remaining reader.old) (IsNextByte found (R.remaining reader.new))) }
{
    let mut byte = [0u8];
    if fill(reader, &mut byte)? == 0 {
        return Ok(None);
    }
    Ok(Some(byte[0]))
}

/// Reads the part of a log that stands where the reader is, into this room, which has [`PART_ROOM`] bytes: the record
/// that stands there, if one does. Its digest is computed. Err where the reader fails. Reads a few bytes at a time: a
/// file is read through a buffer.
///
/// ```text
/// let mut room = vec![in alloc; 0; PART_ROOM]?;
/// while let LogPart::Record(len) = read_part(&mut reader, &mut room)? {
///     let block = block_in(&room, len); // one after the other
/// }
/// ```
pub fn read_part<R: Read>(reader: &mut R, room: &mut [u8]) -> io::Result<LogPart>
    requires room { block_size_limit + 37 < length room.old }
    ensures len { length room.new ≡ length room.old }
    ensures part { IfOk result (λ part. IfSome (R.remaining reader.old)
        (λ bytes. IsPart bytes (R.remaining reader.new) room.new part)) }
    ensures small { IfOk result (λ part. IsSmallPart part) }
{
    let Some(gate) = next_byte(reader)? else {
        return Ok(LogPart::End(LogEnd::Clean));
    };
    if gate != OPEN {
        return Ok(LogPart::End(end_here(reader, gate, room)?));
    }
    match body_here(reader, room)? {
        Some(len) => Ok(LogPart::Record(len)),
        None => Ok(LogPart::Vain),
    }
}

/// The block of a record of this many bytes that stand first in the room.
pub fn block_in(room: &[u8], len: usize) -> &[u8]
    requires head { 36 ≤ len }
    requires within { len ≤ length room.now }
    ensures { (block : List ℕ) → take len room.now ≡ body_of block → result.now ≡ block }
{
    let record = &room[..len];
    &record[HEAD..]
}

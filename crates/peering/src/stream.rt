//! The first bytes of a stream, held or passed over.

ghost use Rattle.std.specs.Prelude.{◌≡◌, ◌↔◌, ◌+◌, ◌≤◌, [], IfOk, IfSome, IsTrue, OnOk, drop, length, take, vec_len};
ghost use Rattle.peering.specs.Streams.{TakesPart, PassesOver, HoldsFirst, DropsFirst};

use crate::peer_fault::PeerFault;
use std::io;
use std::io::{BufRead, ErrorKind};

/// The answer to a read that failed: nothing came, where a signal interrupted it, and it is made again.
fn not_read(error: &io::Error) -> Result<Option<usize>, PeerFault>
    ensures { IfOk result (λ count. count ≡ Some 0) }
{
    if error.kind() == ErrorKind::Interrupted {
        Ok(Some(0))
    } else {
        Err(PeerFault::ReadFailed)
    }
}

/// Puts what is at hand of a stream, at most so many bytes, behind what is held, and answers how many these are. None
/// where the stream has ended.
fn hold_part<R: BufRead>(
    reader: &mut R,
    held: &mut Vec<u8>,
    most: usize,
) -> Result<Option<usize>, PeerFault>
    ensures few { IfOk result (λ count. IfSome count (λ n. n ≤ most)) }
    ensures taken { IfOk result (λ count. TakesPart count (R.remaining reader.old) (R.remaining reader.new)
        held.old.items held.new.items) }
{
    let available = match reader.fill_buf() {
        Ok(available) => available,
        Err(error) => return not_read(&error),
    };
    if available.is_empty() {
        return Ok(None);
    }
    let count = available.len().min(most);
    let Ok(()) = held.extend_from_slice(&available[..count]) else {
        return Err(PeerFault::OutOfMemory);
    };
    reader.consume(count);
    Ok(Some(count))
}

/// Passes over what is at hand of a stream, at most so many bytes, and answers how many these are. None where the
/// stream has ended.
fn pass_part<R: BufRead>(reader: &mut R, most: usize) -> Result<Option<usize>, PeerFault>
    ensures few { IfOk result (λ count. IfSome count (λ n. n ≤ most)) }
    ensures passed { IfOk result (λ count. PassesOver count (R.remaining reader.old) (R.remaining reader.new)) }
{
    let available = match reader.fill_buf() {
        Ok(available) => available,
        Err(error) => return not_read(&error),
    };
    if available.is_empty() {
        return Ok(None);
    }
    let count = available.len().min(most);
    reader.consume(count);
    Ok(Some(count))
}

/// Reads so many bytes, or all where the stream has fewer.
pub fn hold<R: BufRead>(reader: &mut R, held: &mut Vec<u8>, count: usize) -> Result<(), PeerFault>
    requires empty { held.old.items ≡ [] }
    ensures { OnOk result (HoldsFirst count (R.remaining reader.old) (R.remaining reader.new) held.new.items) }
{
    for _ in 0..u64::MAX {
        if held.len() >= count {
            return Ok(());
        }
        if hold_part(reader, held, count - held.len())?.is_none() {
            return Ok(());
        }
    }
    Err(PeerFault::ReadFailed)
}

/// Passes over so many bytes, or all where the stream has fewer: false then.
pub fn pass<R: BufRead>(reader: &mut R, count: usize) -> Result<bool, PeerFault>
    ensures { IfOk result (λ all. DropsFirst count (IsTrue all) (R.remaining reader.old) (R.remaining reader.new)) }
{
    let mut left = count;
    for _ in 0..u64::MAX {
        if left == 0 {
            return Ok(true);
        }
        let Some(passed) = pass_part(reader, left)? else {
            return Ok(false);
        };
        left -= passed;
    }
    Err(PeerFault::ReadFailed)
}

//! Whether bytes are what a log leaves, before anything is changed.

ghost use Rattle.std.specs.Prelude.{◌≡◌, ◌≢◌, ℕ, List, IfOk, IfSome};
ghost use Rattle.immlog.specs.Left.{IsLeft, IsLook, IsTornLog};

use crate::part::{LogEnd, LogPart, PART_ROOM, read_part};
use crate::recover::room_for;
use std::alloc::Global;
use std::io::Read;
use thiserror::Error;

/// What bytes look like.
#[derive(Clone, Copy, Debug, PartialEq, Eq)]
pub enum Look {
    /// A log left them. Also where there are none: a log is made of them then.
    Log,
    /// No log left them, and they don't begin with an open gate.
    NoLog,
    /// At this place, counted in bytes from 0, stands an open gate with no record behind it; or behind whole records
    /// a closed gate behind which stands more than one record may have left that was being written.
    Damaged(usize),
}

/// Why it isn't known what bytes look like.
#[derive(Clone, Copy, Debug, PartialEq, Eq, Error)]
pub enum LookFault {
    /// The reader failed.
    #[error("read failed")]
    Unread,
    /// Memory ran out for the longest record.
    #[error("out of memory")]
    OutOfMemory,
}

/// What an end at this place says, behind the records that came before it.
fn look_of_end(place: usize, end: LogEnd) -> Look
    ensures log { end ≢ LogEnd.Foreign → result ≡ Look.Log }
    ensures none { end ≡ LogEnd.Foreign → place ≡ 0 → result ≡ Look.NoLog }
    ensures bad { end ≡ LogEnd.Foreign → place ≢ 0 → result ≡ Look.Damaged place }
{
    if end != LogEnd::Foreign {
        return Look::Log;
    }
    if place == 0 {
        Look::NoLog
    } else {
        Look::Damaged(place)
    }
}

/// What the bytes of a reader look like: whether a log left them. It lets through whatever a log leaves, at rest, and
/// after a crash in which of a range that was being written a beginning is left, and then zeros. Err where the reader
/// fails or gives 2^64 bytes or more, or where memory runs out. Reads to the end of the records, and at most a megabyte
/// more; takes memory for the longest record, about a megabyte, whatever there is to read, and the time to compute the
/// digests of the blocks. Reads a few bytes at a time: a file is read through a buffer.
pub fn look_at<R: Read>(alloc: Global, reader: &mut R) -> Result<Look, LookFault>
    ensures look { IfOk result (λ look. IfSome (R.remaining reader.old) (λ bytes. IsLook bytes look)) }
    // What a log left is let through,
    ensures left { IfOk result (λ look. IfSome (R.remaining reader.old) (λ bytes. IsLeft bytes → look ≡ Look.Log)) }
    // also after a crash.
    ensures torn { IfOk result (λ look. IfSome (R.remaining reader.old) (λ bytes.
        (blocks : List (List ℕ)) (block : List ℕ) → IsTornLog blocks block bytes → look ≡ Look.Log)) }
{
    let Ok(mut room) = room_for(alloc, PART_ROOM) else {
        return Err(LookFault::OutOfMemory);
    };
    let mut place = 0usize;
    for _ in 0..u64::MAX {
        let Ok(part) = read_part(reader, &mut room) else {
            return Err(LookFault::Unread);
        };
        match part {
            LogPart::End(end) => return Ok(look_of_end(place, end)),
            LogPart::Vain => return Ok(Look::Damaged(place)),
            LogPart::Record(len) => {
                let Some(next) = place.checked_add(1 + len) else {
                    return Err(LookFault::Unread);
                };
                place = next;
            }
        }
    }
    Err(LookFault::Unread)
}

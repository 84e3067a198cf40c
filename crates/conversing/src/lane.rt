//! A client's lane, line by line.

ghost use Rattle.std.specs.Prelude.{◌≡◌, IfErr, IfOk, IfSome, OnErr, OnOk};
ghost use Rattle.std.specs.Io.KnownBytes.{Appends};
ghost use Rattle.conversing.specs.Talks.{too_long_reply, AnswersLine, AnswersHeld, BreaksOff, Talked};

use crate::desk::Desk;
use crate::lane_line::{LaneLine, MAX_LINE, read_line};
use std::alloc::{AllocError, Global};
use std::io;
use std::io::{BufRead, Write};

/// How a lane ended before its client ended it.
#[derive(Clone, Copy, Debug, PartialEq, Eq)]
pub enum LaneEnd {
    /// A line could not be read.
    ReadFailed,
    /// A reply could not be written.
    WriteFailed,
    /// Memory ran out.
    OutOfMemory,
}

/// What a line is told that has more than `MAX_LINE` bytes: an error of the number -32000, without an id.
const TOO_LONG: &[u8] =
    b"{\"jsonrpc\":\"2.0\",\"error\":{\"code\":-32000,\"message\":\"line too long\"},\"id\":null}\n";

/// The reply to a line that was read.
fn reply_to<D: Desk>(
    alloc: Global,
    desk: &mut D,
    read: LaneLine,
    held: &[u8],
) -> Result<Vec<u8>, LaneEnd>
    ensures ok { IfOk result (λ reply. AnswersHeld D.answers desk.old read held.now desk.new reply.items) }
    ensures err { OnErr result (desk.new ≡ desk.old) }
    ensures memory { IfErr result (λ why. why ≡ LaneEnd.OutOfMemory) }
{
    match read {
        LaneLine::Whole => match desk.answer(held) {
            Ok(reply) => Ok(reply),
            Err(AllocError) => Err(LaneEnd::OutOfMemory),
        },
        LaneLine::Cut => match Vec::from_slice(alloc, TOO_LONG) {
            Ok(reply) => Ok(reply),
            Err(AllocError) => Err(LaneEnd::OutOfMemory),
        },
    }
}

/// Writes a reply, so that the client has it.
fn send<W: Write>(writer: &mut W, reply: &[u8]) -> io::Result<()>
    ensures { OnOk result (Appends (W.contents writer.old) (W.contents writer.new) reply.now) }
{
    writer.write_all(reply)?;
    writer.flush()
}

/// Reads lines and has a desk answer them, until the client ends the lane: each line is answered once and in order, and
/// its reply is written and flushed before the next line is read. A line of more than `MAX_LINE` bytes is not held; it
/// is told as an error, and the lane goes on. Err where a line can't be read, a reply can't be written, or memory runs
/// out: then the lines before were answered, and the desk answers no more of them; a line that was answered and whose
/// reply could not be written counts. Takes memory for one line and its reply.
pub fn attend<D: Desk, R: BufRead, W: Write>(
    alloc: Global,
    desk: &mut D,
    reader: &mut R,
    writer: &mut W,
) -> Result<(), LaneEnd>
    // Each line of what the reader had was answered, and the replies stand behind what was written before.
    ensures ok { OnOk result (IfSome (R.remaining reader.old)
        (λ text. Talked D.answers desk.old text desk.new (W.contents writer.old) (W.contents writer.new))) }
    // Its first lines were.
    ensures err { IfErr result (λ why. IfSome (R.remaining reader.old)
        (λ text. BreaksOff D.answers why desk.old text desk.new (W.contents writer.old) (W.contents writer.new))) }
{
    for _ in 0..u64::MAX {
        let mut line = Vec::new(alloc);
        let Some(read) = read_line(reader, &mut line, MAX_LINE)? else {
            return Ok(());
        };
        let reply = reply_to(alloc, desk, read, &line)?;
        let Ok(()) = send(writer, &reply) else {
            return Err(LaneEnd::WriteFailed);
        };
    }
    Err(LaneEnd::ReadFailed)
}

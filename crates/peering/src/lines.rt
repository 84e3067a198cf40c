//! Blocks in lines of hexadecimal digits.

ghost use Rattle.std.specs.Prelude.{◌≡◌, IfOk};
ghost use Rattle.peering.specs.declared.sent.Framing.TheVariants.{Lines};
ghost use Rattle.peering.specs.Sending.{line_says, message_of, without_ending, SendsNext};

use crate::peer_fault::PeerFault;
use crate::sent::{MAX_BLOCK, Sent};
use conversing::{LaneEnd, LaneLine, read_line};
use hex::FromHexError;
use std::alloc::Global;
use std::io::BufRead;

/// How many bytes a line has at most that is held: two digits for each byte of a block, a carriage return and a line
/// feed.
const MAX_HELD: usize = 2 * MAX_BLOCK + 2;

/// A line without the line feed that ends it, and without the carriage return before that.
fn without_ending(line: &[u8]) -> &[u8]
    ensures { result.now ≡ without_ending line.now }
{
    match line.strip_suffix(b"\n") {
        Some(text) => text.strip_suffix(b"\r").unwrap_or(text),
        None => line,
    }
}

/// What a line says that is held.
fn said(alloc: Global, line: &[u8]) -> Result<Sent, PeerFault>
    ensures { IfOk result (λ sent. message_of sent ≡ line_says (without_ending line.now)) }
{
    let digits = without_ending(line);
    if digits.len() > 2 * MAX_BLOCK {
        return Ok(Sent::TooLarge);
    }
    match hex::decode(alloc, digits) {
        Ok(bytes) => Ok(Sent::Block(bytes)),
        Err(FromHexError::OutOfMemory) => Err(PeerFault::OutOfMemory),
        Err(_) => Ok(Sent::Malformed),
    }
}

/// Reads the next line.
pub fn next_in_line<R: BufRead>(alloc: Global, reader: &mut R) -> Result<Option<Sent>, PeerFault>
    ensures { IfOk result (λ sent. SendsNext Lines sent (R.remaining reader.old) (R.remaining reader.new)) }
{
    let mut line = Vec::new(alloc);
    match read_line(reader, &mut line, MAX_HELD) {
        Ok(None) => Ok(None),
        Ok(Some(LaneLine::Whole)) => Ok(Some(said(alloc, &line)?)),
        Ok(Some(LaneLine::Cut)) => Ok(Some(Sent::TooLarge)),
        Err(LaneEnd::OutOfMemory) => Err(PeerFault::OutOfMemory),
        Err(_) => Err(PeerFault::ReadFailed),
    }
}

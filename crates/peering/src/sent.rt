//! What a peer sends, one thing after the other.

ghost use Rattle.std.specs.Prelude.{IfOk};
ghost use Rattle.peering.specs.Sending.{ReadsBack, SendsNext};

use crate::framed::next_framed;
use crate::lines::next_in_line;
use crate::peer_fault::PeerFault;
use std::alloc::Global;
use std::io::BufRead;

/// How many bytes a block has at most that is held.
pub const MAX_BLOCK: usize = 1_048_576;

/// How a stream tells where a block ends.
#[derive(Clone, Copy, Debug, PartialEq, Eq)]
pub enum Framing {
    /// Each line is a block's bytes in hexadecimal digits of either case. A line feed ends it, which the last may lack,
    /// and a carriage return before that is passed over.
    Lines,
    /// Before a block's bytes stand four bytes, which say how many they are: a number, its highest byte first.
    Binary,
}

/// What a peer sends.
#[derive(Debug, Drop)]
pub enum Sent {
    /// A block's bytes, at most `MAX_BLOCK`. Whether they are a block isn't looked at.
    Block(Vec<u8>),
    /// A line that is no bytes in hexadecimal digits; or the stream ends within a length or before as many bytes.
    Malformed,
    /// More than `MAX_BLOCK` bytes, or a line of more than twice as many digits or other characters. They were passed
    /// over, and no memory was taken for what is too much.
    TooLarge,
}

/// Reads what a peer sends next, and nothing behind it. None once the stream has ended. Behind a `Malformed` and a
/// `TooLarge` the stream goes on. At an Err what was read is lost: the stream isn't to be read on. Takes time in
/// proportion to what is read, and memory for three bytes for each byte of one block.
pub fn next_sent<R: BufRead>(
    alloc: Global,
    reader: &mut R,
    framing: Framing,
) -> Result<Option<Sent>, PeerFault>
    // The first message of what the stream had is read, and what follows it is left.
    ensures ok { IfOk result (λ sent. SendsNext framing sent (R.remaining reader.old) (R.remaining reader.new)) }
    // So a block is read as it was sent.
    ensures read_back { IfOk result (λ sent. ReadsBack framing sent (R.remaining reader.old) (R.remaining reader.new)) }
{
    match framing {
        Framing::Lines => next_in_line(alloc, reader),
        Framing::Binary => next_framed(alloc, reader),
    }
}

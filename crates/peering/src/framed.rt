//! Blocks behind their lengths.

ghost use Rattle.std.specs.Prelude.{IfOk};
ghost use Rattle.peering.specs.declared.sent.Framing.TheVariants.{Binary};
ghost use Rattle.peering.specs.Sending.{SendsBehind, SendsNext};

use crate::peer_fault::PeerFault;
use crate::sent::{MAX_BLOCK, Sent};
use crate::stream::{hold, pass};
use std::alloc::Global;
use std::io::BufRead;

/// Reads what stands behind a length.
fn behind_length<R: BufRead>(alloc: Global, reader: &mut R, len: usize) -> Result<Sent, PeerFault>
    ensures { IfOk result (λ sent. SendsBehind len sent (R.remaining reader.old) (R.remaining reader.new)) }
{
    if len > MAX_BLOCK {
        let is_whole = pass(reader, len)?;
        return Ok(if is_whole {
            Sent::TooLarge
        } else {
            Sent::Malformed
        });
    }
    let mut block = Vec::new(alloc);
    hold(reader, &mut block, len)?;
    if block.len() < len {
        Ok(Sent::Malformed)
    } else {
        Ok(Sent::Block(block))
    }
}

/// Reads the next length, and what stands behind it.
pub fn next_framed<R: BufRead>(alloc: Global, reader: &mut R) -> Result<Option<Sent>, PeerFault>
    ensures { IfOk result (λ sent. SendsNext Binary sent (R.remaining reader.old) (R.remaining reader.new)) }
{
    let mut head = Vec::new(alloc);
    hold(reader, &mut head, 4)?;
    if head.is_empty() {
        return Ok(None);
    }
    let Some(len) = head.first_chunk::<4>() else {
        return Ok(Some(Sent::Malformed));
    };
    let sent = behind_length(alloc, reader, u32::from_be_bytes(*len) as usize)?;
    Ok(Some(sent))
}

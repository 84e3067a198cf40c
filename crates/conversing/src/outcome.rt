//! What a call comes to.

ghost use Rattle.std.specs.Prelude.{◌≡◌, ◌++◌, OnOk};
ghost use Rattle.conversing.specs.Replies.{led_text, outcome_text, reason_text, forward_text, intersection_missing};

use crate::block_point::BlockPoint;
use crate::found::{Found, put_found};
use crate::numbers::put_number;
use crate::texts::{put_hex, put_text};
use crate::told::{ChainTip, ToldBlock, put_block, put_point, put_tip};
use std::alloc::{AllocError, Global};

/// Why something is refused: the reason's number and name, and a sentence about it.
#[derive(Clone, Copy, Debug)]
pub struct Reason<'a> {
    pub number: u64,
    pub name: &'a str,
    pub sentence: &'a str,
}

/// What a call comes to, by the method that was called.
#[derive(Clone, Copy, Debug)]
pub enum Outcome<'a> {
    /// `queryTip`: where the selected chain ends.
    Tip(ChainTip),
    /// `queryHeight`: how many blocks it has.
    Height(u64),
    /// `nextBlock`: this block is to be put on; and where the chain ends.
    Forward(ToldBlock<'a>, ChainTip),
    /// `nextBlock`: the chain is to be taken back to this point; and where it ends.
    Backward(BlockPoint, ChainTip),
    /// `findIntersection`: this point is on the chain; and where it ends.
    Intersection(BlockPoint, ChainTip),
    /// `findIntersection`: none of the points is. An error of the number 1000.
    NoIntersection(ChainTip),
    /// `findIntersection`, `nextBlock`: no follower's number is free. An error of the number 1001.
    NoFollower,
    /// `submitTransaction`: the transaction of this identifier waits.
    Accepted([u8; 32]),
    /// `submitTransaction`: it doesn't. An error of the number 3000.
    NotAccepted(Reason<'a>),
    /// `forge`: this block was made.
    Forged(ToldBlock<'a>),
    /// `forge`: none was. An error of the number 4000.
    NotForged(Reason<'a>),
    /// `flush`: so many blocks are durable.
    Flushed(u64),
    /// `flush`: what is immutable could not be made durable. An error of the number 5000.
    NotFlushed,
    /// `stop`: the node ends.
    Stopping,
    /// `nextBlock`: the node ends, and nothing more will come. An error of the number 6000.
    Ending,
    /// `evaluate`, `queryUtxo`, `queryBlock`, `queryTransaction`, `queryMempool` and `why`: what is found.
    Answered(Found<'a>),
}

/// Appends a block that is to be put on.
fn put_forward(
    alloc: Global,
    line: &mut Vec<u8>,
    block: &ToldBlock<'_>,
    tip: &ChainTip,
) -> Result<(), AllocError>
    ensures { OnOk result (line.new.items ≡ line.old.items ++ forward_text block.now tip.now) }
{
    line.extend_from_slice(b"\"result\":{\"direction\":\"forward\",\"block\":")?;
    put_block(alloc, line, block)?;
    line.extend_from_slice(b",\"tip\":")?;
    put_tip(alloc, line, tip)?;
    line.extend_from_slice(b"}")
}

/// Appends a point that something leads to.
fn put_led(
    alloc: Global,
    line: &mut Vec<u8>,
    head: &[u8],
    point: &BlockPoint,
    tip: &ChainTip,
) -> Result<(), AllocError>
    ensures { OnOk result (line.new.items ≡ line.old.items ++ led_text head.now point.now tip.now) }
{
    line.extend_from_slice(head)?;
    put_point(alloc, line, point)?;
    line.extend_from_slice(b",\"tip\":")?;
    put_tip(alloc, line, tip)?;
    line.extend_from_slice(b"}")
}

/// Appends that no point is on the chain.
fn put_no_intersection(alloc: Global, line: &mut Vec<u8>, tip: &ChainTip) -> Result<(), AllocError>
    ensures { OnOk result (line.new.items ≡ line.old.items ++ intersection_missing tip.now) }
{
    line.extend_from_slice(
        b"\"error\":{\"code\":1000,\"message\":\"intersection not found\",\"data\":{\"tip\":",
    )?;
    put_tip(alloc, line, tip)?;
    line.extend_from_slice(b"}}")
}

/// Appends why something is refused, behind the number of the error.
fn put_reason(
    alloc: Global,
    line: &mut Vec<u8>,
    head: &[u8],
    reason: &Reason<'_>,
) -> Result<(), AllocError>
    ensures { OnOk result (line.new.items ≡ line.old.items ++ reason_text head.now reason.now) }
{
    line.extend_from_slice(head)?;
    put_text(alloc, line, reason.sentence)?;
    line.extend_from_slice(b",\"data\":{\"number\":")?;
    put_number(line, reason.number)?;
    line.extend_from_slice(b",\"name\":")?;
    put_text(alloc, line, reason.name)?;
    line.extend_from_slice(b"}}")
}

/// Appends what a call comes to: the member `result` of its reply, or the member `error`.
pub fn put_outcome(
    alloc: Global,
    line: &mut Vec<u8>,
    outcome: &Outcome<'_>,
) -> Result<(), AllocError>
    ensures { OnOk result (line.new.items ≡ line.old.items ++ outcome_text outcome.now) }
{
    match outcome {
        Outcome::Tip(tip) => {
            line.extend_from_slice(b"\"result\":")?;
            put_tip(alloc, line, tip)
        }
        Outcome::Height(height) => {
            line.extend_from_slice(b"\"result\":")?;
            put_number(line, *height)
        }
        Outcome::Forward(block, tip) => put_forward(alloc, line, block, tip),
        Outcome::Backward(point, tip) => put_led(
            alloc,
            line,
            b"\"result\":{\"direction\":\"backward\",\"point\":",
            point,
            tip,
        ),
        Outcome::Intersection(point, tip) => {
            put_led(alloc, line, b"\"result\":{\"intersection\":", point, tip)
        }
        Outcome::NoIntersection(tip) => put_no_intersection(alloc, line, tip),
        Outcome::Accepted(id) => {
            line.extend_from_slice(b"\"result\":{\"transaction\":")?;
            put_hex(alloc, line, id.as_slice())?;
            line.extend_from_slice(b"}")
        }
        Outcome::NotAccepted(reason) => {
            put_reason(
                alloc,
                line,
                b"\"error\":{\"code\":3000,\"message\":",
                reason,
            )
        }
        Outcome::Forged(block) => {
            line.extend_from_slice(b"\"result\":")?;
            put_block(alloc, line, block)
        }
        Outcome::NotForged(reason) => {
            put_reason(
                alloc,
                line,
                b"\"error\":{\"code\":4000,\"message\":",
                reason,
            )
        }
        Outcome::Flushed(durable) => {
            line.extend_from_slice(b"\"result\":{\"durable\":")?;
            put_number(line, *durable)?;
            line.extend_from_slice(b"}")
        }
        Outcome::Stopping => line.extend_from_slice(b"\"result\":{\"stopping\":true}"),
        Outcome::NoFollower => line.extend_from_slice(
            b"\"error\":{\"code\":1001,\"message\":\"too many followers\"}",
        ),
        Outcome::NotFlushed => {
            line.extend_from_slice(b"\"error\":{\"code\":5000,\"message\":\"flush failed\"}")
        }
        Outcome::Ending => line.extend_from_slice(
            b"\"error\":{\"code\":6000,\"message\":\"the node is stopping\"}",
        ),
        Outcome::Answered(found) => {
            line.extend_from_slice(b"\"result\":")?;
            put_found(alloc, line, found)
        }
    }
}

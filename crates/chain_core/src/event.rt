//! Events and their replies.

use crate::arrival::ArriveReply;
use crate::discarding::NotBeside;
use crate::follower::{Instruction, NextFault};
use followers::{FollowerId, OpenFollowerFault, UnknownFollower};
use ident::{BlockHash, Point};
use mempool::SubmitReply;
use std::alloc::AllocError;
use std::fmt;
use witness_pool::SigScheme;

/// What comes to the node.
#[derive(Debug, Drop)]
pub enum RawEvent {
    /// Bytes of a block arrive.
    Arrive(Vec<u8>),
    /// Bytes of a transaction are submitted.
    Submit(Vec<u8>),
    /// A follower is opened.
    Open,
    /// A follower is to be told what comes next.
    Next(FollowerId),
    /// A follower is to be set to the first of these points that is on the selected chain.
    Forward(FollowerId, Vec<Point>),
    /// A follower is closed.
    Close(FollowerId),
    /// The block of this hash is to be kept no more, if it is live and beside the selected chain.
    Discard(BlockHash),
}

/// What the node answers to an event, by the event's kind. Where memory ran out nothing changed.
#[derive(Debug, Drop)]
pub enum Reply<S: SigScheme> {
    /// To bytes of a block.
    Arrive(Result<ArriveReply, AllocError>),
    /// To bytes of a transaction.
    Submit(Result<SubmitReply, AllocError>),
    /// To the opening of a follower.
    Open(Result<FollowerId, OpenFollowerFault>),
    /// To a follower that asks what comes next.
    Next(Result<Option<Instruction<S>>, NextFault>),
    /// To a follower that is to be set to a point.
    Forward(Result<Option<Point>, UnknownFollower>),
    /// To the closing of a follower.
    Close(Result<(), UnknownFollower>),
    /// To the discarding of a block.
    Discard(Result<(), NotBeside>),
}

impl<S: SigScheme> fmt::Display for Reply<S> {
    ghost use Rattle.std.specs.Prelude.{Some};
    ghost use Rattle.chain_core.specs.Texts.{reply_text};

    ghost output = { λ reply. Some (reply_text reply) };

    /// Writes what was answered to an arrival or a submission, `opened` and the follower's number, what the follower
    /// is told or the point that it is set to, and `none` where there is none, `closed`, or `discarded`; `refused` and
    /// the fault's name, or `out of memory`.
    fn fmt<W: fmt::Write>(&self, f: &mut fmt::Formatter<W>) -> fmt::Result {
        match self {
            Reply::Arrive(Ok(reply)) => write!(f, "{reply}"),
            Reply::Submit(Ok(reply)) => write!(f, "{reply}"),
            Reply::Open(Ok(id)) => write!(f, "opened {id}"),
            Reply::Next(Ok(Some(instruction))) => write!(f, "{instruction}"),
            Reply::Next(Ok(None)) => f.write_str("none"),
            Reply::Open(Err(OpenFollowerFault::TooManyFollowers)) => f.write_str(
                "refused TooManyFollowers",
            ),
            Reply::Forward(Ok(Some(point))) => write!(f, "{point}"),
            Reply::Forward(Ok(None)) => f.write_str("none"),
            Reply::Close(Ok(())) => f.write_str("closed"),
            Reply::Discard(Ok(())) => f.write_str("discarded"),
            Reply::Discard(Err(_)) => f.write_str("refused NotBeside"),
            Reply::Next(Err(NextFault::UnknownFollower))
            | Reply::Forward(Err(_))
            | Reply::Close(Err(_)) => f.write_str("refused UnknownFollower"),
            Reply::Arrive(Err(_))
            | Reply::Submit(Err(_))
            | Reply::Open(Err(OpenFollowerFault::OutOfMemory))
            | Reply::Next(Err(NextFault::OutOfMemory)) => f.write_str("out of memory"),
        }
    }
}

//! Calls under the lock.

use chain_core::{
    ArriveReply, FollowerId, Instruction, NextFault, NotBeside, OpenFollowerFault, UnknownFollower,
};
use ident::{BlockHash, Point};
use mempool::SubmitReply;
use witness_pool::SigScheme;

/// What was asked under the lock, with what was answered, both lent. An arrival names the peer that it came from;
/// nothing else comes from a peer.
#[derive(Drop)]
pub enum Call<'a, S: SigScheme> {
    /// These bytes of a block arrived, which this peer sent.
    Arrive {
        peer: u64,
        bytes: &'a [u8],
        reply: &'a ArriveReply,
    },
    /// These bytes of a transaction were submitted.
    Submit {
        bytes: &'a [u8],
        reply: &'a SubmitReply,
    },
    /// A follower was to be opened.
    Open {
        reply: &'a Result<FollowerId, OpenFollowerFault>,
    },
    /// A follower was to be told what comes next.
    Next {
        id: FollowerId,
        reply: &'a Result<Option<Instruction<S>>, NextFault>,
    },
    /// A follower was to be set to the first of these points that is on the selected chain.
    Forward {
        id: FollowerId,
        points: &'a [Point],
        reply: &'a Result<Option<Point>, UnknownFollower>,
    },
    /// A follower was to be closed.
    Close {
        id: FollowerId,
        reply: &'a Result<(), UnknownFollower>,
    },
    /// The block of this hash was to be kept no more, if it was live and beside the selected chain.
    Discard {
        hash: BlockHash,
        reply: &'a Result<(), NotBeside>,
    },
}

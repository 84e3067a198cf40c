//! Replies that aren't written yet.

ghost use Rattle.std.specs.Prelude.{◌≡◌, IfOk};
ghost use Rattle.conversing.specs.RequestView.{id_view};
ghost use Rattle.conversing.specs.Replies.{lost_text};
ghost use Rattle.serving.specs.Replies.{Tells};

use conversing::{Outcome, RequestId, lost_line, reply_line};
use std::alloc::{AllocError, Global};

/// The reply to a request, before it is known what it tells. It holds the line that is sent where there is no memory
/// for that, so that a call that was made is answered whatever happens.
#[derive(Drop)]
pub struct PendingReply {
    alloc: Global,
    pub id: Option<RequestId>,
    lost: Vec<u8>,
    ghost lost_is: { lost.items ≡ lost_text (id_view id) },
}

impl PendingReply {
    /// The reply to a request with this id.
    pub fn new(alloc: Global, id: Option<RequestId>) -> Result<PendingReply, AllocError>
        ensures { IfOk result (λ reply. reply.id ≡ id) }
    {
        let lost = lost_line(alloc, &id)?;
        Ok(PendingReply { alloc, id, lost })
    }

    /// The line that tells this outcome. Takes time and memory in proportion to what it tells.
    pub fn tell(self, outcome: &Outcome<'_>) -> Vec<u8>
        ensures { Tells (id_view self.id) outcome.now result.items }
    {
        let PendingReply { alloc, id, lost } = self;
        match reply_line(alloc, &id, outcome) {
            Ok(line) => line,
            Err(AllocError) => lost,
        }
    }

    /// The line that tells no outcome: the internal error, with the id of the request.
    pub fn fail(self) -> Vec<u8>
        ensures { result.items ≡ lost_text (id_view self.id) }
    {
        let PendingReply {
            alloc: _,
            id: _,
            lost,
        } = self;
        lost
    }
}

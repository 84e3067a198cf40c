//! What is told of the selected chain's end.

ghost use Rattle.std.specs.Prelude.{◌≡◌};
ghost use Rattle.conversing.specs.RequestView.{id_view};
ghost use Rattle.shared.specs.Starts.{network_from};
ghost use Rattle.shared.specs.Asking.{IsAsked};
ghost use Rattle.serving.specs.Lanes.{HasLooked};
ghost use Rattle.serving.specs.Replies.{Replies};
ghost use Rattle.serving.specs.ChainTelling.{IsTipOf, TellsTip, TellsHeight};

use crate::node::Node;
use crate::pending_reply::PendingReply;
use conversing::{ChainTip, Outcome};
use shared::{Caller, Room};
use std::sync::Wait;
use witness_pool::SigScheme;

impl<S: SigScheme, B: Room, R: Wait> Node<'_, S, B, R> {
    /// Where the selected chain ends.
    pub fn tip(&self, caller: &mut Caller<B>) -> ChainTip
        ensures { IsAsked (network_from B.start S.verifies) caller.old caller.new (λ s. IsTipOf s.chain result) }
    {
        let end = self.shared.chain_tip(self.rt, caller);
        let hash = end.point.hash.bytes;
        ChainTip {
            number: end.point.number,
            slot: end.slot,
            hash,
        }
    }

    /// The reply to `queryTip`.
    pub fn tell_tip(&self, caller: &mut Caller<B>, reply: PendingReply) -> Vec<u8>
        ensures { let network = network_from B.start S.verifies in Replies (id_view reply.id)
            (TellsTip network caller.old caller.new) (HasLooked network caller.old caller.new) result.items }
    {
        let tip = self.tip(caller);
        reply.tell(&Outcome::Tip(tip))
    }

    /// The reply to `queryHeight`. Waits for nobody.
    pub fn tell_height(&self, caller: &mut Caller<B>, reply: PendingReply) -> Vec<u8>
        ensures { let network = network_from B.start S.verifies in Replies (id_view reply.id)
            (TellsHeight network caller.old caller.new) (HasLooked network caller.old caller.new) result.items }
    {
        let height = self.shared.height(caller);
        reply.tell(&Outcome::Height(height))
    }
}

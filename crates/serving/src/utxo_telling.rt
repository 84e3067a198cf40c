//! What is told of unspent outputs.

ghost use Rattle.std.specs.Prelude.{◌≡◌, map, IfOk, OnErr};
ghost use Rattle.conversing.specs.RequestView.{id_view, place_view};
ghost use Rattle.shared.specs.Starts.{network_from};
ghost use Rattle.serving.specs.Lanes.{HasLooked};
ghost use Rattle.serving.specs.Replies.{Replies};
ghost use Rattle.serving.specs.UtxoTelling.{AreTold, TellsOutputsAt, TellsOutputsOf};
ghost use Rattle.serving.specs.UnspentView.{unspent_view};

use crate::node::Node;
use crate::pending_reply::PendingReply;
use crate::unspent::{Unspent, told_outputs, unspent_at, unspent_of};
use conversing::{Found, Outcome, OutputPlace};
use shared::{Caller, Room};
use std::alloc::{AllocError, Global};
use std::sync::Wait;
use witness_pool::SigScheme;

/// The reply that tells these outputs.
fn tell_unspent(alloc: Global, unspent: &[Unspent<'_>], reply: PendingReply) -> Vec<u8>
    ensures { Replies (id_view reply.id) (AreTold (map unspent_view unspent.now)) (Unit {0}) result.items }
{
    match told_outputs(alloc, unspent) {
        Ok(told) => reply.tell(&Outcome::Answered(Found::Outputs(&told))),
        Err(AllocError) => reply.fail(),
    }
}

impl<S: SigScheme, B: Room, R: Wait> Node<'_, S, B, R> {
    /// The reply to `queryUtxo` with places. The lock isn't held while they are looked up. Err where the unspent
    /// outputs have too many owners, and then nothing changes.
    pub fn tell_outputs_at(
        &self,
        caller: &mut Caller<B>,
        places: &[OutputPlace],
        reply: PendingReply,
    ) -> Result<Vec<u8>, AllocError>
        ensures ok { IfOk result (λ line. let network = network_from B.start S.verifies in Replies (id_view reply.id)
            (TellsOutputsAt network (map place_view places.now) caller.old caller.new)
            (HasLooked network caller.old caller.new) line.items) }
        ensures err { OnErr result (caller.new ≡ caller.old) }
    {
        let utxo = self.shared.utxo(self.rt, caller)?;
        match unspent_at(self.alloc, &utxo, places) {
            Ok(found) => Ok(tell_unspent(self.alloc, &found, reply)),
            Err(AllocError) => Ok(reply.fail()),
        }
    }

    /// The reply to `queryUtxo` with addresses. Walks through all unspent outputs; the lock isn't held meanwhile. Err
    /// where these have too many owners, and then nothing changes.
    pub fn tell_outputs_of(
        &self,
        caller: &mut Caller<B>,
        addresses: &[Vec<u8>],
        reply: PendingReply,
    ) -> Result<Vec<u8>, AllocError>
        ensures ok { IfOk result (λ line. let network = network_from B.start S.verifies in Replies (id_view reply.id)
            (TellsOutputsOf network (map (λ address. address.items) addresses.now) caller.old caller.new)
            (HasLooked network caller.old caller.new) line.items) }
        ensures err { OnErr result (caller.new ≡ caller.old) }
    {
        let utxo = self.shared.utxo(self.rt, caller)?;
        match unspent_of(self.alloc, &utxo, addresses) {
            Ok(found) => Ok(tell_unspent(self.alloc, &found, reply)),
            Err(AllocError) => Ok(reply.fail()),
        }
    }
}

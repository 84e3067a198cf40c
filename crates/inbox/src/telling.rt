//! What the ends of an inbox tell one another.

ghost use Rattle.std.specs.Prelude.{◌≡◌, ◌++◌, [], ◌∷◌};
ghost use Rattle.std.specs.List.{AllByRecursion};
ghost use Rattle.crossbeam_queue.specs.Passes.{view, IsPassOf, IsSamePass};
ghost use Rattle.inbox.specs.Ends.{IsQueueOf};
ghost use Rattle.inbox.specs.Telling.{BeginsWhatWasSent, IsToldBy};

use crate::adder_end::AdderEnd;
use crate::mailroom::Mailroom;
use crate::passes::{Comparing, InboxPass, Queue, Telling};
use crate::peer_end::PeerEnd;

/// The pass is told what the peer sent.
fn hear<B: Mailroom>(queue: &Queue, pass: &mut InboxPass, peer: &mut PeerEnd<B>)
    requires queue { IsQueueOf B.table B.capacity queue.now }
    requires pass { IsPassOf queue.now pass.old }
    ensures peer { peer.new ≡ peer.old }
    ensures same { IsSamePass pass.old pass.new }
    ensures told { IsToldBy (peer.old ∷ []) (view pass.old) (view pass.new) }
{
    let note = peer.queue.another::<Telling>(&mut peer.pass);
    queue.absorb::<Telling>(pass, note);
}

/// The pass is told what each of the peers sent.
pub(crate) fn hear_all<B: Mailroom>(queue: &Queue, pass: &mut InboxPass, peers: &mut [PeerEnd<B>])
    requires queue { IsQueueOf B.table B.capacity queue.now }
    requires pass { IsPassOf queue.now pass.old }
    ensures peers { peers.new ≡ peers.old }
    ensures same { IsSamePass pass.old pass.new }
    ensures told { IsToldBy peers.old (view pass.old) (view pass.new) }
{
    for place in 0..peers.len() {
        hear(queue, pass, &mut peers[place]);
    }
}

/// The peer is told what was taken, which is of this peer a beginning of what it sent.
fn compare<B: Mailroom>(adder: &mut AdderEnd<B>, peer: &mut PeerEnd<B>)
    ensures adder { adder.new ≡ adder.old }
    ensures peer { peer.new ≡ peer.old }
    ensures begins { BeginsWhatWasSent adder.old.taken peer.old }
{
    let note = adder.queue.another::<Telling>(&mut adder.pass);
    peer.queue.absorb::<Telling>(&mut peer.pass, note);
    peer.queue.learn_as::<Comparing>(&mut peer.pass);
}

/// What was taken of each of the peers is a beginning of what it sent.
pub(crate) fn compare_all<B: Mailroom>(adder: &mut AdderEnd<B>, peers: &mut [PeerEnd<B>])
    ensures adder { adder.new ≡ adder.old }
    ensures peers { peers.new ≡ peers.old }
    ensures begins { AllByRecursion (BeginsWhatWasSent adder.old.taken) peers.old }
{
    for place in 0..peers.len() {
        compare(adder, &mut peers[place]);
    }
}

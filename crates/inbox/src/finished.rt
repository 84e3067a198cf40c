//! How an inbox ends.

ghost use Rattle.std.specs.Prelude.{◌≡◌, ℕ, ◌-◌, Some, slice_get, slice_index};
ghost use Rattle.inbox.specs.Arrivals.{SentBy};
ghost use Rattle.inbox.specs.Telling.{BeginsWhatWasSent, IsTallied, IsCountedOf};

use crate::adder_end::AdderEnd;
use crate::mailroom::Mailroom;
use crate::peer_end::{PEERS, PeerEnd};
use crate::telling::compare_all;

/// How many were sent and taken of each peer, in the order of the ends that were given. A count stands still at the
/// largest number of 64 bits.
#[derive(Clone, Copy, Debug, PartialEq, Eq)]
pub struct Finished {
    /// How many each peer sent; what was answered Full is not counted.
    pub sent: [u64; PEERS],
    /// How many were taken of each peer.
    pub taken: [u64; PEERS],
}

/// Counts what was sent and taken.
fn tally<B: Mailroom>(peers: &[PeerEnd<B>; PEERS], adder: &AdderEnd<B>) -> Finished
    ensures { (place : ℕ) (peer : SentBy) → slice_get peers.now place ≡ Some peer
        → IsCountedOf adder.now.taken peer (slice_index result.sent place) (slice_index result.taken place) }
{
    let mut sent = [0; PEERS];
    let mut taken = [0; PEERS];
    for place in 0..PEERS {
        let peer = &peers[place];
        sent[place] = peer.count();
        taken[place] = adder.count_of(peer.number());
    }
    Finished { sent, taken }
}

/// Ends an inbox: all ends go, and what is left in it is dropped. Takes no memory. Costs a few steps for each peer, and
/// what dropping the arrivals costs that were not taken.
pub fn finish<B: Mailroom>(mut peers: [PeerEnd<B>; PEERS], mut adder: AdderEnd<B>) -> Finished
    // Of the peer at each place: what was taken of it is a beginning of what it sent, and the counts are their lengths.
    ensures { (place : ℕ) (peer : SentBy) → slice_get peers place ≡ Some peer
        → IsTallied adder.taken peer (slice_index result.sent place) (slice_index result.taken place) }
{
    compare_all(&mut adder, &mut peers);
    tally(&peers, &adder)
}

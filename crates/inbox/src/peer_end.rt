//! Where a peer sends.

ghost use Rattle.std.specs.Prelude.{◌≡◌, length, OnOk, IfErr, OnErr};
ghost use Rattle.inbox.specs.Arrivals.{IsPeer, IsCountOf, with_bytes};

use crate::arrival::Arrival;
use crate::faults::Full;
use crate::mailroom::Mailroom;
use crate::passes::{InboxPass, Queue, Sending};
use std::alloc::Global;
use std::marker::{Model, PhantomData};
use std::sync::{Arc, Wait};

/// How many peers an inbox has.
pub const PEERS: usize = 8;

/// Where one peer sends, from one thread at a time. A contract sees the peer's number, and all bytes that it sent.
#[derive(Drop)]
pub struct PeerEnd<B: Mailroom> {
    pub(crate) number: u64,
    pub(crate) count: u64,
    pub(crate) queue: Arc<Queue, Global>,
    pub(crate) pass: InboxPass,
    pub(crate) inbox: PhantomData<B>,
}

impl<B: Mailroom> Model for PeerEnd<B> {
    ghost use Rattle.inbox.specs.Arrivals.{SentBy};
    ghost use Rattle.inbox.specs.Codes.{coded_sent_by};

    ghost Value = { SentBy };

    ghost coded = { coded_sent_by };

    ghost use Rattle.inbox.specs.Ends.{peer_view, IsPeerEndOf};

    ghost view = { peer_view };

    ghost invariant = { IsPeerEndOf B.table B.capacity };
}

impl<B: Mailroom> PeerEnd<B> {
    /// The number of the peer, from 1 on.
    pub fn number(&self) -> u64
        ensures number { result ≡ self.now.peer }
        ensures peer { IsPeer result }
    {
        self.number
    }

    /// How many it sent.
    pub(crate) fn count(&self) -> u64
        ensures { IsCountOf result (length self.now.sent) }
    {
        self.count
    }

    /// Sends these bytes. `Full` gives them back: it is answered only where each place was taken at one moment of the
    /// call. Takes no memory. May wait for a thread that is in the middle of a step.
    pub fn send<R: Wait>(&mut self, rt: &R, bytes: Vec<u8>) -> Result<(), Full>
        ensures ok { OnOk result (self.new ≡ with_bytes self.old bytes.items) }
        ensures full { IfErr result (λ full. full.bytes.items ≡ bytes.items) }
        ensures same { OnErr result (self.new ≡ self.old) }
    {
        let item = Arrival {
            peer: self.number,
            bytes,
        };
        match self.queue.push_as::<Sending, R>(rt, &mut self.pass, item) {
            Ok(()) => {
                self.count = self.count.saturating_add(1);
                Ok(())
            }
            Err(item) => Err(Full { bytes: item.bytes }),
        }
    }
}

//! An inbox that is being opened.

ghost use Rattle.std.specs.Prelude.{◌≡◌, [], IfOk, IfErr, OnOk};
ghost use Rattle.std.specs.Arc.{arc_value};
ghost use Rattle.crossbeam_queue.specs.Passes.{view, IsPassOf, IsSamePass};
ghost use Rattle.inbox.specs.Arrivals.{IsPeer, peers, no_intake};
ghost use Rattle.inbox.specs.Rule.{Takes, has_dealt};
ghost use Rattle.inbox.specs.Ends.{IsQueueOf};
ghost use Rattle.inbox.specs.Opening.{IsCapacity, IsInboxFault, new_peers};

use crate::adder_end::AdderEnd;
use crate::faults::InboxFault;
use crate::mailroom::Mailroom;
use crate::passes::{Dealing, InboxPass, Queue};
use crate::peer_end::{PEERS, PeerEnd};
use std::alloc::{AllocError, Global};
use std::marker::{Model, PhantomData};
use std::sync::Arc;

/// The most places that an inbox has.
pub const MAX_CAPACITY: usize = 4096;

/// An inbox that has no name yet: its queue gets one when the program runs, and [`Opened::named`] takes the name.
#[derive(Drop)]
pub struct Opened {
    alloc: Global,
    queue: Arc<Queue, Global>,
    pass: InboxPass,
}

impl Model for Opened {
    ghost use Rattle.inbox.specs.Opening.{OpenedInbox, coded_opened, opened_view, IsOpenedInside};

    ghost Value = { OpenedInbox };

    ghost coded = { coded_opened };

    ghost view = { opened_view };

    ghost invariant = { IsOpenedInside };
}

/// The end of a new peer, which has sent nothing.
fn deal<B: Mailroom>(
    queue: &Arc<Queue, Global>,
    pass: &mut InboxPass,
    number: u64,
) -> Result<PeerEnd<B>, AllocError>
    requires queue { IsQueueOf B.table B.capacity (arc_value queue.now) }
    requires pass { IsPassOf (arc_value queue.now) pass.old }
    requires number { IsPeer number }
    requires deals { (view pass.old).role ≡ Takes number }
    ensures pass { OnOk result (IsSamePass pass.old pass.new) }
    ensures dealt { OnOk result (view pass.new ≡ has_dealt (view pass.old)) }
    ensures peer { IfOk result (λ peer. peer ≡ record { peer = number; sent = [] }) }
{
    let queue = Arc::try_clone(queue)?;
    let pass = queue.another::<Dealing>(pass);
    Ok(PeerEnd {
        number,
        count: 0,
        queue,
        pass,
        inbox: PhantomData,
    })
}

impl Opened {
    /// An inbox with so many places, 1 to 4,096, before anything was sent. Takes memory for all places at once.
    pub fn new(alloc: Global, capacity: usize) -> Result<Opened, InboxFault>
        ensures places { OnOk result (IsCapacity capacity) }
        ensures capacity { IfOk result (λ opened. opened.capacity ≡ capacity) }
        ensures fault { IfErr result (IsInboxFault capacity) }
    {
        if capacity == 0 || capacity > MAX_CAPACITY {
            return Err(InboxFault::BadCapacity);
        }
        let (queue, pass) = Queue::ruled(alloc, capacity)?;
        let queue = Arc::new(alloc, queue).map_err(|_| AllocError)?;
        Ok(Opened { alloc, queue, pass })
    }

    /// The ends of the inbox under a name: the peers', with the numbers from 1 on in order, and the adder's. Nothing
    /// was sent or taken. A program passes `Brand`. Takes memory for a list of the peers' ends.
    pub fn named<B: Mailroom>(self) -> Result<([PeerEnd<B>; PEERS], AdderEnd<B>), AllocError>
        requires table { self.table ≡ B.table }
        requires capacity { self.capacity ≡ B.capacity }
        ensures peers { IfOk result (λ ends. ends.0 ≡ new_peers peers) }
        ensures adder { IfOk result (λ ends. ends.1 ≡ no_intake) }
    {
        let Opened {
            alloc,
            queue,
            mut pass,
        } = self;
        let mut peers = Vec::with_capacity(alloc, PEERS)?;
        for place in 0..PEERS as u64 {
            let peer = deal::<B>(&queue, &mut pass, place + 1)?;
            peers.push(peer)?;
        }
        let adder = AdderEnd {
            counts: [0; PEERS],
            queue,
            pass,
            inbox: PhantomData,
        };
        match <[PeerEnd<B>; PEERS]>::try_from(peers) {
            Ok(peers) => Ok((peers, adder)),
            Err(_) => unreachable!(),
        }
    }
}

//! Who takes in what peers send.

use crate::keeper::{Keeper, WhenFull};
use chain_core::ArriveReply;
use inbox::{Mailroom, PEERS, PeerEnd};
use shared::{Adder, Room, Shared};
use std::alloc::{AllocError, Global};
use std::sync::Wait;
use std::thread::Threads;
use witness_pool::{OpenGate, SigScheme};

/// The adder, and who keeps places free for what it brings, if that is to be.
#[derive(Drop)]
pub struct Reception<S: SigScheme, B: Room, M: Mailroom> {
    pub adder: Adder<S, OpenGate, B, M>,
    pub keeper: Keeper<B>,
    pub when_full: WhenFull,
}

impl<S: SigScheme, B: Room, M: Mailroom> Reception<S, B, M> {
    /// How many blocks the selected chain has, as the keeper sees it. Waits for nothing.
    pub fn height(&mut self, shared: &Shared<S, B>) -> u64 {
        self.keeper.height(shared)
    }
}

impl<S: SigScheme + Send, B: Room, M: Mailroom> Reception<S, B, M> {
    /// Brings the next arrival, once places were made free for it where it had none and that is to be. Answers what the
    /// core did; None where the inbox is empty. Where memory runs out for an arrival, it stays with the adder.
    pub fn bring_next<R: Threads + Wait + Sync>(
        &mut self,
        rt: &R,
        alloc: Global,
        shared: &Shared<S, B>,
    ) -> Result<Option<ArriveReply>, AllocError> {
        let Some(size) = self.adder.fetch(rt) else {
            return Ok(None);
        };
        if self.when_full == WhenFull::Discard {
            self.keeper.make_place(rt, alloc, shared, size)?;
        }
        self.adder.bring(rt, shared)
    }

    /// Brings all that is left, once the peers have ended, which are lent.
    pub fn drain<R: Threads + Wait + Sync>(
        &mut self,
        rt: &R,
        alloc: Global,
        shared: &Shared<S, B>,
        peers: &mut [PeerEnd<M>; PEERS],
    ) -> Result<(), AllocError> {
        for _ in rt.forever() {
            if self.bring_next(rt, alloc, shared)?.is_none() {
                break;
            }
        }
        self.adder.drain(rt, shared, peers)
    }
}

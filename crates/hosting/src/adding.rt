//! The thread that brings what peers send.

use crate::floor::Floor;
use inbox::Mailroom;
use reception::Reception;
use shared::Room;
use std::alloc::AllocError;
use std::sync::Wait;
use std::thread::Threads;
use witness_pool::SigScheme;

/// Brings what peers sent, and sleeps where there is nothing, until the node ends and all was brought. Where memory
/// runs out for an arrival the node ends.
pub fn run_adder<S: SigScheme + Send, B: Room, M: Mailroom, R: Threads + Wait + Sync>(
    rt: &R,
    floor: &Floor<S, B>,
    mut reception: Reception<S, B, M>,
) {
    let news = &*floor.news;
    let shared = &*floor.shared;
    'blocks: for _ in rt.forever() {
        let sent = news.sent(rt);
        let is_ending = news.is_ending(rt);
        match reception.bring_next(rt, floor.alloc, shared) {
            Ok(None) if is_ending => break 'blocks,
            Ok(None) => news.wait_for_blocks(rt, sent),
            Ok(Some(reply)) => {
                let height = reception.height(shared);
                let discarded = reception.keeper.discarded();
                news.tell_brought(rt, reply, height, discarded);
            }
            Err(AllocError) => {
                news.run_short(rt);
                break 'blocks;
            }
        }
    }
    news.tell_drained(rt);
}

//! What the threads of a node tell one another.

use crate::tally::{Flushes, Tally};
use chain_core::{ArriveReply, Refusal};
use std::sync::{Condvar, Mutex, MutexGuard, Wait};

/// What was told so far. The counts stand still at the largest number of 64 bits.
#[derive(Clone, Copy, Debug, Drop)]
struct Told {
    /// How many blocks peers sent.
    sent: u64,
    /// How many of these were brought to the core.
    brought: u64,
    /// How many blocks the selected chain had when some were brought last.
    height: u64,
    /// How many flushes clients asked for.
    asked: u64,
    /// How many of these were made or given up.
    answered: u64,
    /// How many blocks are durable; none where the last flush failed.
    durable: Option<u64>,
    /// How many peers' streams haven't ended.
    peers: u64,
    /// How many clients' lanes haven't ended.
    clients: u64,
    /// How many clients wait for a block.
    waiting: u64,
    /// How many clients are being answered.
    answering: u64,
    /// Whether the node ends: peers send no more.
    is_ending: bool,
    /// Whether all that was sent was brought, and nothing more comes.
    is_drained: bool,
    /// Whether the node ends since memory ran out.
    is_short: bool,
    /// Whether no flush comes any more.
    is_closed: bool,
    /// Whether the figures are being written down.
    is_recording: bool,
    /// What arrivals were answered, and what else peers sent.
    tally: Tally,
    /// How many blocks were discarded.
    discarded: u64,
    flushes: Flushes,
    /// How often memory was refused.
    memory_refusals: u64,
}

/// What the threads of a node have counted.
#[derive(Clone, Copy, Debug, Drop)]
pub struct Counts {
    pub clients: u64,
    pub waiting: u64,
    pub peers: u64,
    pub tally: Tally,
    pub discarded: u64,
    pub flushes: Flushes,
    pub memory_refusals: u64,
}

impl Told {
    /// Whether nobody is left who could send a block or ask for something.
    fn is_deserted(&self) -> bool {
        self.peers == 0 && self.clients <= self.waiting && self.sent == self.brought
    }
}

/// What is to be made durable: what there is at this height, and the flushes that were asked for.
#[derive(Clone, Copy, Debug, Drop)]
pub struct Due {
    pub height: u64,
    pub asked: u64,
    /// Whether the node ends.
    pub is_ending: bool,
}

/// What the threads of a node tell one another. Who waits sleeps until what he waits for may have come. Nothing takes
/// memory.
#[derive(Drop)]
pub struct News {
    told: Mutex<Told>,
    /// Whether the node ends when nobody is left who could send or ask.
    until_closed: bool,
    /// Something was sent, or the node ends: the adder waits for it.
    sent: Condvar,
    /// Something was brought, or the node ends: peers wait for room.
    brought: Condvar,
    /// The chain grew, or no block comes any more: clients wait for it.
    grown: Condvar,
    /// There is something to flush, or the node ends.
    due: Condvar,
    /// A flush was answered, or none comes any more.
    flushed: Condvar,
    /// The figures were written down.
    recorded: Condvar,
}

impl News {
    /// Of a node with so many peers' streams and clients' lanes, on a chain of this height, of which so many blocks are
    /// durable, if it has a log.
    pub fn new(
        peers: u64,
        clients: u64,
        height: u64,
        durable: Option<u64>,
        until_closed: bool,
    ) -> News {
        News {
            told: Mutex::new(Told {
                sent: 0,
                brought: 0,
                height,
                asked: 0,
                answered: 0,
                durable,
                peers,
                clients,
                waiting: 0,
                answering: 0,
                is_ending: false,
                is_drained: false,
                is_short: false,
                is_closed: false,
                is_recording: false,
                tally: Tally::new(),
                discarded: 0,
                flushes: Flushes::new(durable),
                memory_refusals: 0,
            }),
            until_closed,
            sent: Condvar::new(),
            brought: Condvar::new(),
            grown: Condvar::new(),
            due: Condvar::new(),
            flushed: Condvar::new(),
            recorded: Condvar::new(),
        }
    }

    /// Lets the lock go, and has the node end where it is to and nobody is left who could send or ask.
    fn settle(&self, mut told: MutexGuard<'_, Told>) {
        let ends = self.until_closed && !told.is_ending && told.is_deserted();
        if ends {
            told.is_ending = true;
        }
        drop(told);
        if ends {
            self.tell_ending();
        }
    }

    /// Wakes those who wait for something that may not come where the node ends.
    fn tell_ending(&self) {
        self.sent.notify_all();
        self.brought.notify_all();
        self.due.notify_all();
    }

    /// A node that has no lane ends at once, where it is to end with the last one.
    pub fn begin<R: Wait>(&self, rt: &R) {
        let told = self.told.lock(rt);
        self.settle(told);
    }

    /// A peer sent a block.
    pub fn tell_sent<R: Wait>(&self, rt: &R) {
        let mut told = self.told.lock(rt);
        told.sent = told.sent.saturating_add(1);
        drop(told);
        self.sent.notify_all();
    }

    /// How many blocks peers sent.
    pub fn sent<R: Wait>(&self, rt: &R) -> u64 {
        self.told.lock(rt).sent
    }

    /// Waits until more were sent than these, or the node ends.
    pub fn wait_for_blocks<R: Wait>(&self, rt: &R, sent: u64) {
        let told = self.told.lock(rt);
        let _told = self
            .sent
            .wait_while(rt, told, |told| told.sent == sent && !told.is_ending);
    }

    /// A block was brought and answered so, the selected chain has this height, and so many blocks were discarded.
    pub fn tell_brought<R: Wait>(&self, rt: &R, reply: ArriveReply, height: u64, discarded: u64) {
        let mut told = self.told.lock(rt);
        told.brought = told.brought.saturating_add(1);
        told.tally.count(reply);
        told.discarded = discarded;
        let grew = told.height != height;
        told.height = height;
        self.settle(told);
        self.brought.notify_all();
        if grew {
            self.grown.notify_all();
            self.due.notify_all();
        }
    }

    /// How many blocks were brought.
    pub fn brought<R: Wait>(&self, rt: &R) -> u64 {
        self.told.lock(rt).brought
    }

    /// A peer sent what can't be brought: it is refused so.
    pub fn tell_refused<R: Wait>(&self, rt: &R, refusal: Refusal) {
        let mut told = self.told.lock(rt);
        told.tally.count_refusal(refusal);
    }

    /// Waits until more were brought than these, and answers whether the node goes on.
    pub fn wait_for_room<R: Wait>(&self, rt: &R, brought: u64) -> bool {
        let told = self.told.lock(rt);
        let told = self.brought.wait_while(
            rt,
            told,
            |told| told.brought == brought && !told.is_ending,
        );
        !told.is_ending
    }

    /// Waits until the selected chain has more blocks than this, and answers whether it has: not where the node ends
    /// and all that was sent was brought.
    pub fn wait_above<R: Wait>(&self, rt: &R, height: u64) -> bool {
        let mut told = self.told.lock(rt);
        told.waiting = told.waiting.saturating_add(1);
        self.settle(told);
        let told = self.told.lock(rt);
        let mut told = self
            .grown
            .wait_while(rt, told, |told| told.height <= height && !told.is_drained);
        told.waiting = told.waiting.saturating_sub(1);
        told.height > height
    }

    /// A client asked, and isn't answered yet.
    pub fn begin_answer<R: Wait>(&self, rt: &R) {
        let mut told = self.told.lock(rt);
        told.answering = told.answering.saturating_add(1);
    }

    /// A client has its reply, or is gone.
    pub fn end_answer<R: Wait>(&self, rt: &R) {
        let mut told = self.told.lock(rt);
        told.answering = told.answering.saturating_sub(1);
    }

    /// Whether a client is being answered.
    pub fn is_answering<R: Wait>(&self, rt: &R) -> bool {
        self.told.lock(rt).answering > 0
    }

    /// Asks for a flush and waits for it. Answers how many blocks are durable; None where it failed, or none comes any
    /// more.
    pub fn flush<R: Wait>(&self, rt: &R) -> Option<u64> {
        let mut told = self.told.lock(rt);
        told.asked = told.asked.saturating_add(1);
        let mine = told.asked;
        self.due.notify_all();
        let told = self
            .flushed
            .wait_while(rt, told, |told| told.answered < mine && !told.is_closed);
        if told.answered < mine {
            return None;
        }
        told.durable
    }

    /// Waits until there is something to be made durable above this height, a flush is asked for, or the node ends.
    pub fn wait_for_flush<R: Wait>(&self, rt: &R, height: u64) -> Due {
        let told = self.told.lock(rt);
        let told = self.due.wait_while(rt, told, |told| {
            told.height <= height && told.asked == told.answered && !told.is_ending
        });
        Due {
            height: told.height,
            asked: told.asked,
            is_ending: told.is_ending,
        }
    }

    /// One flush answered all up to this one, and took so many microseconds: so many blocks are durable, or it failed.
    pub fn tell_flushed<R: Wait>(&self, rt: &R, asked: u64, durable: Option<u64>, took: u64) {
        let mut told = self.told.lock(rt);
        told.answered = asked;
        told.durable = durable;
        told.flushes.count(durable, took);
        drop(told);
        self.flushed.notify_all();
    }

    /// The flushes up to this one were refused, since there is no log.
    pub fn tell_no_flush<R: Wait>(&self, rt: &R, asked: u64) {
        let mut told = self.told.lock(rt);
        told.answered = asked;
        drop(told);
        self.flushed.notify_all();
    }

    /// Memory was refused.
    pub fn tell_memory_refused<R: Wait>(&self, rt: &R) {
        let mut told = self.told.lock(rt);
        told.memory_refusals = told.memory_refusals.saturating_add(1);
    }

    /// The node is to end.
    pub fn end<R: Wait>(&self, rt: &R) {
        let mut told = self.told.lock(rt);
        told.is_ending = true;
        drop(told);
        self.tell_ending();
    }

    /// Whether it is.
    pub fn is_ending<R: Wait>(&self, rt: &R) -> bool {
        self.told.lock(rt).is_ending
    }

    /// The node is to end since memory ran out.
    pub fn run_short<R: Wait>(&self, rt: &R) {
        let mut told = self.told.lock(rt);
        told.is_short = true;
        told.memory_refusals = told.memory_refusals.saturating_add(1);
        drop(told);
        self.end(rt);
    }

    /// Whether it is.
    pub fn is_short<R: Wait>(&self, rt: &R) -> bool {
        self.told.lock(rt).is_short
    }

    /// A client's lane has ended.
    pub fn close_client<R: Wait>(&self, rt: &R) {
        let mut told = self.told.lock(rt);
        told.clients = told.clients.saturating_sub(1);
        self.settle(told);
    }

    /// A peer's stream has ended.
    pub fn close_peer<R: Wait>(&self, rt: &R) {
        let mut told = self.told.lock(rt);
        told.peers = told.peers.saturating_sub(1);
        self.settle(told);
    }

    /// All that was sent was brought.
    pub fn tell_drained<R: Wait>(&self, rt: &R) {
        let mut told = self.told.lock(rt);
        told.is_drained = true;
        drop(told);
        self.grown.notify_all();
        self.due.notify_all();
    }

    /// Waits until all that was sent was brought, and answers which flushes were asked for.
    pub fn wait_until_drained<R: Wait>(&self, rt: &R) -> u64 {
        let told = self.told.lock(rt);
        let told = self.due.wait_while(rt, told, |told| !told.is_drained);
        told.asked
    }

    /// No flush comes any more.
    pub fn close<R: Wait>(&self, rt: &R) {
        let mut told = self.told.lock(rt);
        told.is_closed = true;
        drop(told);
        self.flushed.notify_all();
    }

    /// What was counted so far.
    pub fn counts<R: Wait>(&self, rt: &R) -> Counts {
        let told = self.told.lock(rt);
        Counts {
            clients: told.clients,
            waiting: told.waiting,
            peers: told.peers,
            tally: told.tally,
            discarded: told.discarded,
            flushes: told.flushes,
            memory_refusals: told.memory_refusals,
        }
    }

    /// The figures are about to be written down. Answers whether they are to be: not where no flush comes any more.
    pub fn begin_record<R: Wait>(&self, rt: &R) -> bool {
        let mut told = self.told.lock(rt);
        told.is_recording = !told.is_closed;
        told.is_recording
    }

    /// They were.
    pub fn end_record<R: Wait>(&self, rt: &R) {
        let mut told = self.told.lock(rt);
        told.is_recording = false;
        drop(told);
        self.recorded.notify_all();
    }

    /// Waits while they are being written down.
    pub fn wait_for_record<R: Wait>(&self, rt: &R) {
        let told = self.told.lock(rt);
        let _told = self.recorded.wait_while(rt, told, |told| told.is_recording);
    }
}

//! Blocks that are changed and arrive at three cores: in bytes, seen, and twice with bytes of no block in between.

use crate::changing::{change, put};
use crate::network::genesis;
use crate::random::Random;
use crate::tally::Tally;
use block::Seen;
use chain_core::{ArriveReply, Core, Refusal};
use std::alloc::Global;
use witness_pool::TestScheme;

/// How many blocks arrive before there are new cores.
const ARRIVALS: u64 = 40;

/// How many kinds of answers there are: that a block is kept, and seven refusals.
const ANSWERS: usize = 8;

/// Three cores that are to have the same chain. Each stands in a box, whose drop is a call.
#[derive(Drop)]
struct Cores {
    by_bytes: Box<Core<TestScheme>>,
    by_seen: Box<Core<TestScheme>>,
    by_twice: Box<Core<TestScheme>>,
}

/// How often each kind of answer was given.
#[derive(Drop)]
pub struct Answers {
    counts: [u64; ANSWERS],
}

/// A core that nothing has come to.
fn new_core(alloc: Global) -> Option<Box<Core<TestScheme>>> {
    let core = Core::new(alloc, genesis(alloc)?).ok()?;
    Box::new(alloc, core).ok()
}

/// Three of them.
fn new_cores(alloc: Global) -> Option<Cores> {
    let by_bytes = new_core(alloc)?;
    let by_seen = new_core(alloc)?;
    let by_twice = new_core(alloc)?;
    Some(Cores {
        by_bytes,
        by_seen,
        by_twice,
    })
}

/// What is answered to the bytes.
fn by_bytes(core: &mut Core<TestScheme>, bytes: &[u8]) -> Option<ArriveReply> {
    core.arrive(bytes).ok()
}

/// What is answered to the bytes once they are seen.
fn by_seen(alloc: Global, core: &mut Core<TestScheme>, bytes: &[u8]) -> Option<ArriveReply> {
    let copy = bytes.to_vec(alloc).ok()?;
    let seen = Seen::read(alloc, copy).ok()?;
    core.arrive_seen(seen).ok()
}

/// What is answered to the bytes first, where then come bytes of no block, and the same bytes once more.
fn by_twice(core: &mut Core<TestScheme>, bytes: &[u8]) -> Option<ArriveReply> {
    let first = by_bytes(core, bytes);
    let _ = by_bytes(core, b"\x82\x80");
    let _ = by_bytes(core, bytes);
    first
}

/// Whether two cores have the same chain.
fn have_one_chain(one: &Core<TestScheme>, other: &Core<TestScheme>) -> bool {
    one.tip() == other.tip()
        && one.immutable() == other.immutable()
        && one.fees() == other.fees()
        && one.utxo().len() == other.utxo().len()
}

/// The seven refusals, in the order of their numbers.
const REFUSALS: [Refusal; 7] = [
    Refusal::TooLarge,
    Refusal::Malformed,
    Refusal::BodyHashMismatch,
    Refusal::TooOld,
    Refusal::Known,
    Refusal::Clash,
    Refusal::VolatileFull,
];

impl Answers {
    /// None yet.
    pub fn new() -> Answers {
        Answers {
            counts: [0; ANSWERS],
        }
    }

    /// Counts an answer, and tells whether the block was kept.
    fn count(&mut self, reply: Option<ArriveReply>) -> bool {
        let number = match reply {
            Some(ArriveReply::Kept { .. }) => 0,
            Some(ArriveReply::Refused(refusal)) => refusal.number() as usize,
            None => return false,
        };
        if let Some(count) = self.counts.get_mut(number) {
            *count = count.saturating_add(1);
        }
        number == 0
    }

    /// Whether there was an answer of this number.
    fn has(&self, number: u64) -> bool {
        match self.counts.get(number as usize) {
            Some(count) => *count > 0,
            None => false,
        }
    }

    /// Puts the names of the refusals that there were behind a text.
    pub fn tell(&self, out: &mut String) {
        let _ = out.push_str("arrivals: refused as");
        for refusal in &REFUSALS {
            if self.has(refusal.number()) {
                let _ = write!(out, " {refusal}");
            }
        }
        let _ = out.push_str("\n");
    }
}

/// The body of the block of a text.
fn body_of(alloc: Global, text: &[u8]) -> &[u8] {
    let size = match block::read(alloc, text) {
        Ok(block) => block.body_size(),
        Err(_) => 0,
    };
    let begin = text.len().saturating_sub(size);
    text.get(begin..).unwrap_or(&[])
}

/// Makes `out` the text of the block of this body in the place of the one of a text, or in a slot that is `late` later.
fn put_made(alloc: Global, out: &mut Vec<u8>, text: &[u8], body: &[u8], late: u64) {
    out.clear();
    if let Ok(block) = block::read(alloc, text) {
        let slot = block.slot().saturating_add(late);
        let made = block::write_with_body(alloc, block.number(), slot, block.previous(), body);
        if let Ok((bytes, _)) = made {
            put(out, &bytes);
        }
    }
}

/// What arrives, and the body that is put into it.
#[derive(Drop)]
struct Buffers {
    bytes: Vec<u8>,
    body: Vec<u8>,
}

impl Buffers {
    /// Makes the bytes those of a good block, of a changed one, or of one that has the body of another, or a changed
    /// body that its header names.
    fn make(&mut self, alloc: Global, blocks: &[Vec<u8>], random: &mut Random) {
        let text = random.pick(blocks);
        let other = random.pick(blocks);
        let body = body_of(alloc, other);
        let late = random.below(3) as u64;
        match random.below(4) {
            0 => {
                self.bytes.clear();
                put(&mut self.bytes, text);
            }
            1 => change(&mut self.bytes, text, other, random),
            2 => put_made(alloc, &mut self.bytes, text, body, late),
            _ => {
                change(&mut self.body, body, body_of(alloc, text), random);
                put_made(alloc, &mut self.bytes, text, &self.body, late);
            }
        }
    }
}

impl Cores {
    /// Has the bytes arrive, and counts what comes of them.
    fn arrive(&mut self, alloc: Global, bytes: &[u8], answers: &mut Answers, tally: &mut Tally) {
        let first = by_bytes(&mut self.by_bytes, bytes);
        let second = by_seen(alloc, &mut self.by_seen, bytes);
        let third = by_twice(&mut self.by_twice, bytes);
        let same = first.is_some() && first == second && first == third;
        let kept = answers.count(first);
        let one = have_one_chain(&self.by_bytes, &self.by_seen);
        tally.count(
            kept,
            same && one && have_one_chain(&self.by_bytes, &self.by_twice),
        );
    }
}

/// `rounds` arrivals, at new cores.
fn run_some(
    alloc: Global,
    blocks: &[Vec<u8>],
    rounds: u64,
    random: &mut Random,
    answers: &mut Answers,
    tally: &mut Tally,
) {
    let Some(mut cores) = new_cores(alloc) else {
        return tally.count(false, false);
    };
    let mut buffers = Buffers {
        bytes: Vec::new(alloc),
        body: Vec::new(alloc),
    };
    for _ in 0..rounds {
        buffers.make(alloc, blocks, random);
        cores.arrive(alloc, &buffers.bytes, answers, tally);
    }
}

/// `rounds` arrivals, at new cores after some.
pub fn run(
    alloc: Global,
    blocks: &[Vec<u8>],
    rounds: u64,
    random: &mut Random,
    answers: &mut Answers,
    tally: &mut Tally,
) {
    for _ in 0..rounds / ARRIVALS {
        run_some(alloc, blocks, ARRIVALS, random, answers, tally);
    }
    run_some(alloc, blocks, rounds % ARRIVALS, random, answers, tally);
}

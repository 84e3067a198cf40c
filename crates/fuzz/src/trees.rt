//! Random trees of blocks, good and bad, that arrive at three cores: as they come by chance; before the blocks that go
//! on from them; and in another order at a core that was opened anew. Each is to select one of the longest chains of
//! good blocks, which is looked for here block by block. Indexes follow one of them.

use crate::changing::put;
use crate::random::Random;
use crate::watched::{self, Watches};
use chain_core::Core;
use genesis::Genesis;
use ident::BlockHash;
use std::alloc::Global;
use witness_pool::TestScheme;

/// How many blocks a tree has.
const BLOCKS: usize = 60;

/// How far back the block before a new one is looked for: so there are long chains and many forks.
const NEAR: usize = 12;

/// How many blocks an index can roll back: as many as the core, of which none is ever too far back.
const WATCHED_BACK: u64 = 100;

/// The fee of the payment.
const FEE: u64 = 290;

/// A genesis under which no block is ever too far back, and which has the one output that the payment spends.
const DOCUMENT: &str = "network = 0
k = 100
min_fee_a = 1
min_fee_b = 100
min_utxo = 10
max_tx_size = 4096
max_body_size = 65536
max_volatile = 100
max_mempool = 100
[[output]]
key = \"0101010101010101010101010101010101010101010101010101010101010101\"
coin = 1200
";

/// Where a chain of blocks of a tree ends.
#[derive(Clone, Copy)]
struct End {
    number: u64,
    slot: u64,
    hash: Option<BlockHash>,
    /// How many of its blocks have the payment: one at most, where it is valid.
    payments: u64,
}

/// Blocks, each after the one that it follows.
#[derive(Drop)]
struct Tree {
    texts: Vec<Vec<u8>>,
    ends: Vec<End>,
}

/// The end of the chain without a block.
const GENESIS: End = End {
    number: 0,
    slot: 0,
    hash: None,
    payments: 0,
};

impl Tree {
    /// One of the last ends, or that of the chain without a block.
    fn pick(&self, random: &mut Random) -> End {
        let back = random.below(NEAR);
        match self.ends.iter().rev().nth(back) {
            Some(end) => *end,
            None => GENESIS,
        }
    }

    /// Puts a block there that goes on from this end, with the payment or without a transaction.
    fn put(&mut self, alloc: Global, end: End, payment: Option<&[u8]>) {
        let mut body = Vec::new(alloc);
        match payment {
            Some(payment) => {
                put(&mut body, b"\x81");
                put(&mut body, payment);
            }
            None => put(&mut body, b"\x80"),
        }
        let number = end.number.saturating_add(1);
        // No two that go on from one block have one slot.
        let late = self.ends.len() as u64;
        let slot = end.slot.saturating_add(late).saturating_add(1);
        if let Ok((text, hash)) = block::write_with_body(alloc, number, slot, end.hash, &body) {
            let _ = self.texts.push(text);
            let _ = self.ends.push(End {
                number,
                slot,
                hash: Some(hash),
                payments: end.payments.saturating_add(u64::from(payment.is_some())),
            });
        }
    }

    /// A tree of `BLOCKS` blocks, some of which have the payment.
    fn grow(alloc: Global, payment: &[u8], random: &mut Random) -> Tree {
        let mut tree = Tree {
            texts: Vec::new(alloc),
            ends: Vec::new(alloc),
        };
        for _ in 0..BLOCKS {
            let end = tree.pick(random);
            let pays = random.below(4) == 0;
            tree.put(alloc, end, if pays { Some(payment) } else { None });
        }
        tree
    }

    /// How long the longest valid chain is.
    fn longest(&self) -> u64 {
        let mut longest = 0;
        for end in &self.ends {
            if end.payments <= 1 {
                longest = end.number.max(longest);
            }
        }
        longest
    }

    /// Whether there is a block in no valid chain.
    fn has_bad(&self) -> bool {
        self.ends.iter().any(|end| end.payments > 1)
    }

    /// Whether the core's chain is valid and none is longer, and its outputs and fees are what its payment makes.
    fn is_selected(&self, core: &Core<TestScheme>) -> bool {
        let tip = core.tip();
        let mut agrees = false;
        for end in &self.ends {
            if end.hash == Some(tip.hash) {
                agrees = end.payments <= 1
                    && end.number == tip.number
                    && core.fees() == end.payments.saturating_mul(FEE);
            }
        }
        agrees && tip.number == self.longest() && core.utxo().len() == 1
    }
}

/// A core that nothing has come to, or that was opened anew. In a box, whose drop is a call.
fn new_core(alloc: Global) -> Option<Box<Core<TestScheme>>> {
    let core = Core::new(alloc, Genesis::from_toml(alloc, DOCUMENT).ok()?).ok()?;
    Box::new(alloc, core).ok()
}

/// The same, opened on the blocks of another that are never rolled back.
fn reopened(alloc: Global, other: &Core<TestScheme>) -> Option<Box<Core<TestScheme>>> {
    let blocks = other.copy_immutable(0).ok()?;
    let core = Core::reopen(alloc, Genesis::from_toml(alloc, DOCUMENT).ok()?, &blocks).ok()?;
    Box::new(alloc, core).ok()
}

/// The texts have come in the order of these places.
fn arrive_all(core: &mut Core<TestScheme>, texts: &[Vec<u8>], order: &[usize]) {
    for place in order {
        if let Some(text) = texts.get(*place) {
            let _ = core.arrive(text);
        }
    }
}

/// The texts have come in the order of these places, at a core with a follower, whose instructions indexes carry out
/// after each. None where these don't have what the core has.
fn arrive_watched(
    alloc: Global,
    core: &mut Core<TestScheme>,
    tree: &Tree,
    order: &[usize],
) -> Option<()> {
    let granted = core.utxo().iter().next()?.1.address;
    let mut watches = Watches::new(alloc, core.utxo(), WATCHED_BACK, &granted)?;
    let follower = core.open().ok()?;
    for place in order {
        if let Some(text) = tree.texts.get(*place) {
            let _ = core.arrive(text);
        }
        if !watched::agrees(core, follower, &mut watches, &granted) {
            return None;
        }
    }
    Some(())
}

/// All places of a tree, the first one first.
fn in_order(alloc: Global) -> Vec<usize> {
    let mut order = Vec::new(alloc);
    for place in 0..BLOCKS {
        let _ = order.push(place);
    }
    order
}

/// Puts them in another order.
fn shuffle(order: &mut [usize], random: &mut Random) {
    for last in (1..order.len()).rev() {
        let other = random.below(last + 1);
        if other <= last {
            order.swap(other, last);
        }
    }
}

/// Whether all three cores select one of the longest valid chains.
fn do_agree(alloc: Global, tree: &Tree, random: &mut Random) -> Option<bool> {
    let mut order = in_order(alloc);
    let mut in_turn = new_core(alloc)?;
    arrive_all(&mut in_turn, &tree.texts, &order);
    shuffle(&mut order, random);
    let mut by_chance = new_core(alloc)?;
    arrive_watched(alloc, &mut by_chance, tree, &order)?;
    let mut again = reopened(alloc, &by_chance)?;
    shuffle(&mut order, random);
    arrive_all(&mut again, &tree.texts, &order);
    let selected = tree.is_selected(&in_turn) && tree.is_selected(&by_chance);
    Some(selected && tree.is_selected(&again))
}

/// Grows `trees` trees, and tells how many cores didn't select what they are to.
pub fn run(alloc: Global, payment: &[u8], trees: u64, random: &mut Random, out: &mut String) {
    let mut differing: u64 = 0;
    let mut bad: u64 = 0;
    for _ in 0..trees {
        let tree = Tree::grow(alloc, payment, random);
        if tree.has_bad() {
            bad = bad.saturating_add(1);
        }
        if do_agree(alloc, &tree, random) != Some(true) {
            differing = differing.saturating_add(1);
        }
    }
    let bad = if bad == 0 { "none" } else { "some" };
    let _ = write!(
        out,
        "trees of {BLOCKS} blocks: {trees} grown, {differing} differ; {bad} had bad blocks\n"
    );
}

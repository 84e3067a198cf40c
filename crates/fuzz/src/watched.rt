//! Indexes that are told what a follower of a core is told, beside a walk through the core's outputs.

use crate::histories::has_blocks;
use block::{CheckedBlock, Tip};
use chain_core::{Core, FollowerId, Instruction};
use ident::{Point, ScriptHash};
use std::alloc::Global;
use tx::{Address, Input, Output};
use utxo_rules::Utxo;
use watching::{History, Watch, Which};
use witness_pool::TestScheme;

/// No follower is told more at a time: a tree has fewer blocks.
const MOST_INSTRUCTIONS: usize = 1000;

/// Indexes of all outputs, of those of one address, and of those of a policy that has made nothing.
#[derive(Drop)]
pub struct Watches {
    all: Watch,
    mine: Watch,
    none: Watch,
}

impl Watches {
    /// Indexes of these outputs, which can roll back this many blocks.
    pub fn new(alloc: Global, outputs: &Utxo, back: u64, address: &Address) -> Option<Watches> {
        let mine = Which::addresses(alloc, &[*address]).ok()?;
        let none = Which::policies(alloc, &[ScriptHash::from_bytes([0; 32])]).ok()?;
        Some(Watches {
            all: Watch::new(alloc, Tip::genesis(), outputs, back, Which::all()).ok()?,
            mine: Watch::new(alloc, Tip::genesis(), outputs, back, mine).ok()?,
            none: Watch::new(alloc, Tip::genesis(), outputs, back, none).ok()?,
        })
    }

    /// Puts the block on each.
    fn add_block(&mut self, block: &CheckedBlock<TestScheme>) -> Option<()> {
        self.all.add_block(block).ok()?;
        self.mine.add_block(block).ok()?;
        self.none.add_block(block).ok()
    }

    /// Rolls each back to the point.
    fn roll_back(&mut self, point: &Point) -> Option<()> {
        self.all.roll_back(point).ok()?;
        self.mine.roll_back(point).ok()?;
        self.none.roll_back(point).ok()
    }
}

/// Carries out what the follower is told, until nothing is left. None where an index refuses something.
fn follow(core: &mut Core<TestScheme>, follower: FollowerId, watches: &mut Watches) -> Option<()> {
    for _ in 0..MOST_INSTRUCTIONS {
        match core.next(follower).ok()? {
            Some(Instruction::AddBlock(block)) => watches.add_block(&block)?,
            Some(Instruction::RollBack(point)) => watches.roll_back(&point)?,
            None => return Some(()),
        }
    }
    None
}

/// How many of these are of the address, and how much lovelace they hold together, added up one by one.
fn total_of(outputs: &Utxo, address: &Address) -> (u64, i128) {
    let mut count: u64 = 0;
    let mut coin: i128 = 0;
    for (_, output) in outputs.of(address) {
        count = count.saturating_add(1);
        coin = coin.saturating_add(i128::from(output.value.coin()));
    }
    (count, coin)
}

/// Whether the index has this output among those of its address, and has of these what a walk through all outputs
/// finds.
fn has_output(all: &Utxo, watch: &Watch, input: &Input, output: &Output) -> Option<bool> {
    let held = watch.outputs(&output.address);
    let (count, coin) = total_of(all, &output.address);
    let totals = watch.balance(&output.address).ok()?;
    let same = held.get(input)?.value.coin() == output.value.coin();
    let is_balance = totals.values() == count && totals.coin() == coin;
    Some(same && is_balance && held.len() as u64 == count)
}

/// Whether the index has the same outputs as the core, all together and address by address.
fn has_same(all: &Utxo, watch: &Watch) -> bool {
    let mut same = watch.all().len() == all.len();
    for (input, output) in all.iter() {
        same &= has_output(all, watch, &input, output) == Some(true);
    }
    same
}

/// Whether the two end at the same block.
fn ends_at(watch: &Watch, point: Point) -> bool {
    let tip = watch.tip();
    tip.number == point.number && tip.hash.unwrap_or(Point::genesis().hash) == point.hash
}

/// Whether the two have the same transactions at the same places.
fn are_same(one: &History, other: &History) -> bool {
    let mut same = one.len() == other.len();
    let mut others = other.iter();
    for told in one.iter() {
        same &= others.next() == Some(told);
    }
    same
}

/// Whether an index of this address has of these outputs those of the address and no others, and of its history what an
/// index of all outputs has.
fn has_mine(all: &Utxo, watches: &Watches, address: &Address) -> bool {
    let mut same = are_same(watches.all.history(address), watches.mine.history(address));
    let mut count: usize = 0;
    for (input, _) in all.of(address) {
        same &= watches.mine.all().get(&input).is_some();
        count = count.saturating_add(1);
    }
    same && watches.mine.all().len() == count
}

/// Whether, after what was told to the follower, the indexes have what the core has, where a genesis granted outputs of
/// this address alone.
pub fn agrees(
    core: &mut Core<TestScheme>,
    follower: FollowerId,
    watches: &mut Watches,
    granted: &Address,
) -> bool {
    let told = follow(core, follower, watches);
    told.is_some()
        && ends_at(&watches.all, core.tip())
        && has_same(core.utxo(), &watches.all)
        && has_blocks(core, &watches.all, granted)
        && ends_at(&watches.mine, core.tip())
        && has_mine(core.utxo(), watches, granted)
        && ends_at(&watches.none, core.tip())
        && watches.none.all().is_empty()
        && watches.none.history(granted).is_empty()
}

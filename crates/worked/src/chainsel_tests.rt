//! Chains that are selected when blocks come, on a genesis of one output of 1,200 lovelace, and the blocks that are
//! found dead then. What comes of the chain alone stands in files of cases.

use super::fixture::{MEMORY, boxed, same};
use super::ledgerdb_tests::{new_db, switch};
use super::payments::{block_of, hash_of, names_of};
use block::CheckedBlock;
use blockstore::{BlockStore, Capacity, LiveBlock};
use chain::Chain;
use chainsel::{Choice, Selection, Switch, select};
use ident::BlockHash;
use ledgerdb::LedgerDb;
use script::Names;
use std::process::Abort;
use witness_pool::TestScheme;

/// The names of blocks that may come; those that are live, the selected chain, and the states of its last blocks.
#[derive(Drop)]
struct Chains {
    names: Box<Names>,
    store: BlockStore<TestScheme>,
    db: Box<LedgerDb>,
    chain: Chain<TestScheme>,
}

/// No chain, of which the last k blocks may be rolled back, and these blocks to come.
fn new_chains(rt: &(impl Abort + AllocGlobal), k: u64, blocks: &str) -> Box<Chains> {
    boxed(
        rt,
        Chains {
            names: names_of(rt, blocks),
            store: BlockStore::new(
                rt.alloc(),
                Capacity {
                    blocks: 100,
                    bytes: None,
                },
            ),
            db: new_db(rt, k),
            chain: Chain::new(rt.alloc()),
        },
    )
}

/// What is selected when the block comes.
fn select_with(
    rt: &(impl Abort + AllocGlobal),
    chains: &Chains,
    block: &LiveBlock<TestScheme>,
) -> Selection<TestScheme> {
    let Chains {
        store,
        db,
        chain,
        ..
    } = chains;
    assert!(rt; chain.gone_len() == 0);
    select(rt.alloc(), store, db, chain, block).expect(rt, MEMORY)
}

/// Makes the selected chain what was selected.
fn put_on(rt: &impl Abort, chains: &mut Chains, selected: Switch<TestScheme>) {
    let back = selected.back;
    let blocks = selected.blocks;
    assert!(rt; switch(&mut chains.db, back, &blocks).is_none());
    let keep = chains.chain.len().saturating_sub(back);
    assert!(rt; chains.chain.gone_len() == 0);
    chains.chain.truncate(keep);
    chains.chain.reserve(blocks.len()).expect(rt, MEMORY);
    chains.chain.append(blocks);
}

/// The block in the form in which it comes: as its text alone, where its number is even.
fn live(rt: &impl Abort, block: CheckedBlock<TestScheme>) -> LiveBlock<TestScheme> {
    if block.number() % 2 == 0 {
        LiveBlock::unread(block.block().try_clone().expect(rt, MEMORY))
    } else {
        LiveBlock::checked(block)
    }
}

/// Takes the block into the store, with the marks of those that are dead, and drops what can come into no chain.
fn keep(rt: &impl Abort, chains: &mut Chains, block: LiveBlock<TestScheme>, dead: &[BlockHash]) {
    chains.store.insert(block).expect(rt, "room");
    for hash in dead {
        chains.store.mark_invalid(*hash);
    }
    let immutable = chains.chain.len().saturating_sub(chains.db.depth());
    let tip = chains.chain.tip_of_first(immutable);
    chains.store.drop_up_to(tip.expect(rt, "in memory"));
}

/// The block of this name comes; then the chain has `length` blocks, and `dead` are found dead.
fn comes(rt: &(impl Abort + AllocGlobal), chains: &mut Chains, name: &str, length: u64, dead: u64) {
    let block = live(rt, Box::into_inner(block_of(rt, &chains.names, name)));
    let Selection {
        choice,
        invalid,
        side: _,
        read: _,
    } = select_with(rt, chains, &block);
    if let Choice::Switch(selected) = choice {
        put_on(rt, chains, selected);
    }
    keep(rt, chains, block, &invalid);
    same(rt, name, chains.chain.len() as u64, length);
    same(rt, name, invalid.len() as u64, dead);
}

/// Blocks come: the name of each, how long the chain is then, and how many are found dead.
fn all_come(rt: &(impl Abort + AllocGlobal), chains: &mut Chains, arrivals: &[(&str, u64, u64)]) {
    for (name, length, dead) in arrivals {
        comes(rt, chains, *name, *length, *dead);
    }
}

/// Whether the live block of this name is marked, None where there is none.
fn is_marked(rt: &(impl Abort + AllocGlobal), chains: &Chains, name: &str) -> Option<bool> {
    let hash = hash_of(rt, &chains.names, name);
    Some(chains.store.get(hash)?.is_invalid())
}

/// The chain ends in the block of this name, where the fees are this much.
fn ends_in(rt: &(impl Abort + AllocGlobal), chains: &Chains, name: &str, fees: u64) {
    let tip = chains.chain.tip();
    assert!(rt; tip.hash == Some(hash_of(rt, &chains.names, name)));
    same(rt, "fees", chains.db.state().fees(), fees);
}

// Over a chain of two blocks a late one connects forks of three blocks and of four. The longer fork's third block
// spends an output once more that its first one spends; what comes after it later is judged no more.
#[test]
fn bad_block_in_the_longest_path(rt: HostRuntime) {
    let blocks =
        "block A1 genesis 1\nblock A2 A1 2\nblock B1 genesis 3 Good\nblock B2 B1 4\nblock B3 B2 5 Other\n\
        block B4 B3 6\nblock B5 B4 7\nblock C2 B1 8 Next\nblock C3 C2 9";
    let mut chains = new_chains(&rt, 5, blocks);
    let arrivals = [
        ("A1", 1, 0),
        ("A2", 2, 0),
        ("B2", 2, 0),
        ("B3", 2, 0),
        ("B4", 2, 0),
        ("C2", 2, 0),
        ("C3", 2, 0),
        ("B1", 3, 1),
        ("B5", 3, 0),
    ];
    all_come(&rt, &mut chains, &arrivals);
    ends_in(&rt, &chains, "C3", 600);
    assert!(rt; is_marked(&rt, &chains, "B3") == Some(true));
    assert!(rt; is_marked(&rt, &chains, "B2") == Some(false));
}

// A block comes for which another waits; it is bad, and a good one comes next.
#[test]
fn bad_block_that_comes(rt: HostRuntime) {
    let blocks = "block A1 genesis 1 Good\nblock A2 A1 2\nblock B2 A1 3 Other\nblock B3 B2 4";
    let mut chains = new_chains(&rt, 2, blocks);
    all_come(
        &rt,
        &mut chains,
        &[("A1", 1, 0), ("B3", 1, 0), ("B2", 1, 1)],
    );
    assert!(rt; is_marked(&rt, &chains, "B2") == Some(true));
    all_come(&rt, &mut chains, &[("A2", 2, 0)]);
    ends_in(&rt, &chains, "A2", 290);
}

// Of three blocks the last one may be rolled back. A fork of four that leaves the chain after its first block comes too
// late, also when its blocks are all there; one of four that leaves it after the second block is taken.
#[test]
fn no_fork_behind_the_immutable_tip(rt: HostRuntime) {
    let blocks =
        "block A1 genesis 1\nblock A2 A1 2\nblock A3 A2 3\nblock B2 A1 4\nblock B3 B2 5\nblock B4 B3 6\n\
        block C3 A2 7\nblock C4 C3 8";
    let mut chains = new_chains(&rt, 1, blocks);
    let arrivals = [
        ("A1", 1, 0),
        ("A2", 2, 0),
        ("A3", 3, 0),
        ("B4", 3, 0),
        ("B3", 3, 0),
        ("B2", 3, 0),
        ("C3", 3, 0),
    ];
    all_come(&rt, &mut chains, &arrivals);
    ends_in(&rt, &chains, "A3", 0);
    all_come(&rt, &mut chains, &[("C4", 4, 0)]);
    ends_in(&rt, &chains, "C4", 0);
}

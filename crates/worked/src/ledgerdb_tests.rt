//! A ledger database on a genesis of one output of 1,200 lovelace.

use super::fixture::{MEMORY, boxed, same};
use super::networks::{OUTPUT, genesis_of};
use super::payments::{blocks_of, names_of};
use block::CheckedBlock;
use ledger::{BlockFault, LedgerState};
use ledgerdb::{ForkFault, LedgerDb};
use script::Names;
use std::process::Abort;
use witness_pool::TestScheme;

/// A database of the chain without a block.
pub fn new_db(rt: &(impl Abort + AllocGlobal), k: u64) -> Box<LedgerDb> {
    let genesis = genesis_of(rt, OUTPUT);
    let opening = LedgerState::new(rt.alloc(), &genesis).expect(rt, MEMORY);
    boxed(rt, LedgerDb::new(rt.alloc(), opening, k))
}

/// What a fork that rolls `back` blocks back is refused for, or None where it is put on.
pub fn switch(
    db: &mut LedgerDb,
    back: usize,
    blocks: &[CheckedBlock<TestScheme>],
) -> Option<ForkFault> {
    if back > db.depth() {
        return Some(ForkFault::OutOfMemory);
    }
    match db.fork(back, blocks) {
        Ok(prepared) => {
            db.commit(prepared);
            None
        }
        Err(fault) => Some(fault),
    }
}

/// The state `back` blocks ago has this slot and these fees.
fn is_seen(rt: &(impl Abort + AllocGlobal), db: &LedgerDb, back: usize, slot: u64, fees: u64) {
    assert!(rt; back <= db.depth());
    let state = boxed(rt, db.state_at(back).expect(rt, MEMORY));
    same(rt, "slot", state.slot(), slot);
    same(rt, "fees", state.fees(), fees);
}

/// The slot and the fees of the newest state and of those before it are these, and there are no more.
fn judge(rt: &(impl Abort + AllocGlobal), db: &LedgerDb, want: &[(u64, u64)]) {
    let before = want.len().saturating_sub(1);
    same(rt, "states", db.depth() as u64, before as u64);
    for (back, (slot, fees)) in want.iter().enumerate() {
        is_seen(rt, db, back, *slot, *fees);
    }
    let newest = db.state();
    is_seen(rt, db, 0, newest.slot(), newest.fees());
}

/// The fork of these blocks is put on, and then the states are these.
fn puts_on(
    rt: &(impl Abort + AllocGlobal),
    names: &Names,
    db: &mut LedgerDb,
    back: usize,
    blocks: &[&str],
    want: &[(u64, u64)],
) {
    let blocks = blocks_of(rt, names, blocks);
    assert!(rt; switch(db, back, &blocks).is_none());
    judge(rt, db, want);
}

#[test]
fn a_new_database_has_the_anchor(rt: HostRuntime) {
    for k in [0, 1, 2160, u64::MAX] {
        let db = new_db(&rt, k);
        judge(&rt, &db, &[(0, 0)]);
    }
}

// Two blocks are put on, then two others in the place of the second, and these are rolled back again with nothing in
// their place. k is 2, so that the anchor moves on to the first one's state.
#[test]
fn fork_of_two_blocks(rt: HostRuntime) {
    let names = names_of(
        &rt,
        "block A1 genesis 1 Good\nblock A2 A1 2\nblock B2 A1 3 Next\nblock B3 B2 4",
    );
    let mut db = new_db(&rt, 2);
    puts_on(
        &rt,
        &names,
        &mut db,
        0,
        &["A1", "A2"],
        &[(2, 290), (1, 290), (0, 0)],
    );
    puts_on(
        &rt,
        &names,
        &mut db,
        1,
        &["B2", "B3"],
        &[(4, 600), (3, 600), (1, 290)],
    );
    puts_on(&rt, &names, &mut db, 2, &[], &[(1, 290)]);
}

/// What the fork of these blocks is refused for. The database stays as it was, with the anchor alone.
fn refusal(
    rt: &(impl Abort + AllocGlobal),
    names: &Names,
    db: &mut LedgerDb,
    blocks: &[&str],
) -> Option<ForkFault> {
    let blocks = blocks_of(rt, names, blocks);
    let fault = switch(db, 0, &blocks);
    judge(rt, db, &[(0, 0)]);
    fault
}

// The second block of the fork doesn't follow the first, or the only one holds a payment that is too late.
#[test]
fn bad_block_is_told_at_its_place(rt: HostRuntime) {
    let names = names_of(
        &rt,
        "block A1 genesis 1\nblock A2 A1 1\nblock B1 genesis 1\nblock C1 genesis 2\nblock D1 genesis 7 Expiring",
    );
    let mut db = new_db(&rt, 5);
    let early = refusal(&rt, &names, &mut db, &["A1", "A2"]);
    assert!(rt;
        matches!(
            early,
            Some(ForkFault::Refused(1, BlockFault::SlotNotRising))
        )
    );
    let again = refusal(&rt, &names, &mut db, &["B1", "C1"]);
    assert!(rt; matches!(again, Some(ForkFault::Refused(1, BlockFault::WrongNumber))));
    let late = refusal(&rt, &names, &mut db, &["D1"]);
    assert!(rt; matches!(late, Some(ForkFault::Refused(0, BlockFault::TxFault(0, _)))));
}

// Where k is 0 there is only the anchor, and where it is 1 there is one state after it.
#[test]
fn older_states_are_dropped(rt: HostRuntime) {
    let names = names_of(
        &rt,
        "block A1 genesis 1 Good\nblock A2 A1 2 Next\nblock A3 A2 3",
    );
    let mut none = new_db(&rt, 0);
    puts_on(&rt, &names, &mut none, 0, &["A1", "A2", "A3"], &[(3, 600)]);
    let mut one = new_db(&rt, 1);
    puts_on(
        &rt,
        &names,
        &mut one,
        0,
        &["A1", "A2", "A3"],
        &[(3, 600), (2, 600)],
    );
}

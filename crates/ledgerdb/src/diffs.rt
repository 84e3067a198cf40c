//! The differences of the last blocks, the oldest first.

ghost use Rattle.std.specs.Prelude.{◌≡◌, ◌-◌, ◌≤◌, length, take, drop, IfOk};
ghost use Rattle.std.specs.Option.{option_copied};
ghost use Rattle.model.specs.Applying.{LedgerState};
ghost use Rattle.ledger.specs.BlockDiffs.{tip_before};
ghost use Rattle.ledgerdb.specs.Inside.{undone_blocks};

use ledger::{BlockDiff, LedgerState, undo_block};
use std::alloc::AllocError;
use std::collections::LinkedList;

/// The state before the last `back` of these blocks, which ended in this one. Takes time and memory that grow with
/// what they changed.
pub fn undo_last(
    state: LedgerState,
    diffs: &LinkedList<BlockDiff>,
    back: usize,
) -> Result<LedgerState, AllocError>
    requires { back ≤ length diffs.now }
    ensures { IfOk result (λ before.
        before ≡ undone_blocks (drop (length diffs.now - back) diffs.now) state) }
{
    let mut before = state;
    let mut older = diffs.iter();
    for _ in 0..back {
        if let Some(diff) = older.next_back() {
            before = undo_block(before, diff)?;
        }
    }
    Ok(before)
}

/// The difference of the first of the last `back` blocks, and none of no blocks: it has the tip before them.
pub fn nth_newest(diffs: &LinkedList<BlockDiff>, back: usize) -> Option<&BlockDiff>
    requires { back ≤ length diffs.now }
    ensures { (state : LedgerState) → tip_before state (option_copied result)
        ≡ (undone_blocks (drop (length diffs.now - back) diffs.now) state).tip }
{
    if back == 0 {
        return None;
    }
    match diffs.iter().nth_back(back - 1) {
        Some(diff) => Some(diff),
        None => None,
    }
}

/// Drops `count` differences at the newer end. Takes no memory.
pub fn drop_newest(diffs: &mut LinkedList<BlockDiff>, count: usize)
    requires { count ≤ length diffs.old }
    ensures { diffs.new ≡ take (length diffs.old - count) diffs.old }
{
    for _ in 0..count {
        let _ = diffs.pop_back();
    }
}

/// Drops items at the older end until there are at most `most`. Takes no memory, and time that grows with the number of
/// those dropped.
pub fn drop_oldest<T: Drop>(items: &mut LinkedList<T>, most: usize)
    ensures { items.new ≡ drop (length items.old - most) items.old }
{
    let extra = items.len().saturating_sub(most);
    for _ in 0..extra {
        let _ = items.pop_front();
    }
}

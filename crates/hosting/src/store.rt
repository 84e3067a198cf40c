//! Who puts onto the log what no rollback reaches any more.

ghost use Rattle.std.specs.Prelude.{◌≡◌, ℕ, List, false, length, OnOk};
ghost use Rattle.model.specs.Chain.{IsOpening};
ghost use Rattle.model.specs.Disk.{Leaves};
ghost use Rattle.model.specs.Journal.{BeginsWithSeen};
ghost use Rattle.model.specs.Log.{OpensToBeginning};
ghost use Rattle.shared.specs.Starts.{network_from};
ghost use Rattle.shared.specs.Copies.{AreImmutableAfter};
ghost use Rattle.flushing.specs.Sharing.{BeginAfter};
ghost use Rattle.flushing.specs.Texts.{Begins};
ghost use Rattle.hosting.specs.Keeping.{IsKept};

use crate::floor::Floor;
use crate::news::News;
use crate::timing::{micros_since, moment};
use flushing::flush_shared;
use immlog::{AppendFault, Disk, Log};
use shared::{Caller, Room};
use std::sync::Wait;
use std::thread;
use std::time::Duration;
use witness_pool::SigScheme;

/// How many milliseconds the node gives clients to take their last replies before it ends all the same.
const MOMENTS: u64 = 1_000;

/// Puts what can't be rolled back onto the log, and tells how many blocks are durable then.
fn flush_now<D: Disk, S: SigScheme, B: Room, R: Wait>(
    rt: &R,
    floor: &Floor<S, B>,
    caller: &mut Caller<B>,
    log: &mut Log<D>,
    asked: u64,
) -> Result<(), AppendFault>
    requires opens { IsOpening (network_from B.start S.verifies) }
    requires begins { BeginAfter (network_from B.start S.verifies) caller.old.seen log.old.blocks }
    ensures begins { BeginAfter (network_from B.start S.verifies) caller.new.seen log.new.blocks }
    ensures stay { Begins log.old.blocks log.new.blocks }
    ensures all { OnOk result (AreImmutableAfter (network_from B.start S.verifies) caller.new.seen log.new.blocks) }
    ensures sound { OnOk result (log.new.broken ≡ false) }
    ensures seen { BeginsWithSeen caller.new.seen caller.old.seen }
    ensures keeps { (first : List (List ℕ)) → BeginAfter (network_from B.start S.verifies) caller.new.seen first
        → Leaves (OpensToBeginning (length log.old.blocks) first) (D.moment log.old.disk)
        → IsKept (network_from B.start S.verifies) caller.new.seen log.old.blocks log.new.blocks
        (D.past log.old.disk) (D.past log.new.disk) (D.moment log.new.disk) }
{
    let begun = moment(&floor.system);
    let flushed = flush_shared(rt, log, &*floor.shared, caller);
    let took = micros_since(&floor.system, begun);
    let durable = match flushed {
        Ok(()) => Some(log.durable() as u64),
        Err(AppendFault::OutOfMemory) => {
            floor.news.tell_memory_refused(rt);
            None
        }
        Err(AppendFault::Broken | AppendFault::DiskFault) => None,
    };
    floor.news.tell_flushed(rt, asked, durable, took);
    flushed
}

/// Whether the log takes nothing any more.
fn is_lost(flushed: Result<(), AppendFault>) -> bool {
    match flushed {
        Ok(()) | Err(AppendFault::OutOfMemory) => false,
        Err(AppendFault::Broken | AppendFault::DiskFault) => true,
    }
}

/// Flushes whenever the chain grows or a client asks for it, until the node ends, which it does where the disk fails.
/// Sleeps between.
#[tactic(auto, using(flushing::proofs::ForCallers::begins_itself, flushing::proofs::ForCallers::begins_further))]
fn flush_in_turn<D: Disk, S: SigScheme, B: Room, R: Wait>(
    rt: &R,
    floor: &Floor<S, B>,
    caller: &mut Caller<B>,
    log: &mut Log<D>,
)
    requires opens { IsOpening (network_from B.start S.verifies) }
    requires begins { BeginAfter (network_from B.start S.verifies) caller.old.seen log.old.blocks }
    ensures begins { BeginAfter (network_from B.start S.verifies) caller.new.seen log.new.blocks }
    ensures stay { Begins log.old.blocks log.new.blocks }
    ensures keeps { Leaves (OpensToBeginning (length log.old.blocks) log.old.blocks) (D.moment log.old.disk)
        → IsKept (network_from B.start S.verifies) caller.new.seen log.old.blocks log.new.blocks
        (D.past log.old.disk) (D.past log.new.disk) (D.moment log.new.disk) }
{
    let mut height = 0;
    'flushes: for _ in rt.forever() {
        let due = floor.news.wait_for_flush(rt, height);
        if due.is_ending {
            return;
        }
        let flushed = flush_now(rt, floor, caller, log, due.asked);
        if is_lost(flushed) {
            floor.news.end(rt);
        }
        height = due.height;
    }
    unreachable!()
}

/// Flushes until the node ends, and once more when all that peers sent was brought. Answers how that last flush ended.
#[tactic(auto, using(flushing::proofs::ForCallers::begins_itself, flushing::proofs::ForCallers::begins_further))]
pub fn keep_log<D: Disk, S: SigScheme, B: Room, R: Wait>(
    rt: &R,
    floor: &Floor<S, B>,
    caller: &mut Caller<B>,
    log: &mut Log<D>,
) -> Result<(), AppendFault>
    requires opens { IsOpening (network_from B.start S.verifies) }
    requires begins { BeginAfter (network_from B.start S.verifies) caller.old.seen log.old.blocks }
    // Whatever happened, the log has the first of the blocks that no rollback reaches, those that it had among them.
    ensures begins { BeginAfter (network_from B.start S.verifies) caller.new.seen log.new.blocks }
    ensures stay { Begins log.old.blocks log.new.blocks }
    // Else the last flush failed.
    ensures all { OnOk result (AreImmutableAfter (network_from B.start S.verifies) caller.new.seen log.new.blocks) }
    ensures sound { OnOk result (log.new.broken ≡ false) }
    // Where a crash just before leaves all that it has, one at any moment since does.
    ensures keeps { Leaves (OpensToBeginning (length log.old.blocks) log.old.blocks) (D.moment log.old.disk)
        → IsKept (network_from B.start S.verifies) caller.new.seen log.old.blocks log.new.blocks
        (D.past log.old.disk) (D.past log.new.disk) (D.moment log.new.disk) }
{
    flush_in_turn(rt, floor, caller, log);
    let asked = floor.news.wait_until_drained(rt);
    let flushed = flush_now(rt, floor, caller, log, asked);
    flushed
}

/// Without a log: answers those who ask for a flush that there is none, until the node ends.
pub fn keep_none<R: Wait>(rt: &R, news: &News) {
    'asks: for _ in rt.forever() {
        let due = news.wait_for_flush(rt, u64::MAX);
        if due.is_ending {
            break 'asks;
        }
        news.tell_no_flush(rt, due.asked);
    }
    let asked = news.wait_until_drained(rt);
    news.tell_no_flush(rt, asked);
}

/// Gives clients who are being answered when the node ends a second to take their replies.
pub fn let_go<R: Wait>(rt: &R, news: &News, system: &HostRuntime) {
    news.close(rt);
    'moments: for _ in 0..MOMENTS {
        if !news.is_answering(rt) {
            break 'moments;
        }
        thread::sleep(system, Duration::from_millis(1));
    }
}

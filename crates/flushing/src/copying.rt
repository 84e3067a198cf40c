//! Blocks that go onto the log.

ghost use Rattle.std.specs.Prelude.{◌≡◌, ◌↔◌, length, true, false, OnOk, IsErrOf};
ghost use Rattle.model.specs.Disk.{Leaves, LeavesSince, one_more};
ghost use Rattle.model.specs.Log.{Opens, OpensToBeginning, IsLogOf};
ghost use Rattle.chain_core.specs.Immutable.{immutable_texts};
ghost use Rattle.flushing.specs.Texts.{Begins};

use chain_core::Core;
use immlog::{AppendFault, Disk, Log};
use std::alloc::AllocError;
use witness_pool::SigScheme;

/// Puts the core's blocks that are never rolled back onto the log, behind those that it has, which are the first of
/// them. Err where the log is broken, else where memory ran out for copies or for what [`Log::append`] takes, else
/// where the disk failed.
///
/// Copies the new blocks once, and writes them as [`Log::append`] does.
pub fn flush<D: Disk, S: SigScheme>(log: &mut Log<D>, core: &Core<S>) -> Result<(), AppendFault>
    requires { Begins log.old.blocks (immutable_texts S.verifies core.now) }

    ensures all { OnOk result (log.new.blocks ≡ immutable_texts S.verifies core.now) }
    ensures sound { OnOk result (log.new.broken ≡ false) }
    // A crash then leaves just these blocks.
    ensures left { OnOk result (Leaves (λ bytes. Opens bytes log.new.blocks) (D.moment log.new.disk)) }

    // Whatever it answers, what the log has are the first of these blocks,
    ensures begins { Begins log.new.blocks (immutable_texts S.verifies core.now) }
    // those that it had among them.
    ensures stay { Begins log.old.blocks log.new.blocks }
    // A crash at any moment since it was called leaves a log that isn't damaged, of a beginning of the core's blocks
    // that are never rolled back, with all that were durable when it was called.
    ensures crash { log.old.broken ≡ false → LeavesSince (D.past log.old.disk) (D.past log.new.disk)
        (D.moment log.new.disk) (OpensToBeginning (length log.old.blocks) (immutable_texts S.verifies core.now)) }
    // Now it leaves all that are durable now.
    ensures crash_now { log.old.broken ≡ false → Leaves
        (OpensToBeginning (length log.new.blocks) (immutable_texts S.verifies core.now)) (D.moment log.new.disk) }
    // The same, as `Log::open` asks for it, where memory lasted.
    ensures kept { log.old.broken ≡ false → (IsErrOf result AppendFault.OutOfMemory → ⊥) →
        LeavesSince (D.past log.old.disk) (D.past log.new.disk) (D.moment log.new.disk)
        (IsLogOf (length log.old.blocks) (immutable_texts S.verifies core.now)) }
    ensures kept_now { log.old.broken ≡ false → (IsErrOf result AppendFault.OutOfMemory → ⊥) →
        Leaves (IsLogOf (length log.new.blocks) (immutable_texts S.verifies core.now)) (D.moment log.new.disk) }

    ensures broken { IsErrOf result AppendFault.Broken ↔ (log.old.broken ≡ true) }
    ensures untouched { IsErrOf result AppendFault.Broken → log.new ≡ log.old }
    ensures memory { IsErrOf result AppendFault.OutOfMemory → log.new ≡ log.old }
    ensures failed { IsErrOf result AppendFault.DiskFault →
        D.failures log.new.disk ≡ one_more (D.failures log.old.disk) }
    ensures breaks { IsErrOf result AppendFault.DiskFault → log.new.broken ≡ true }
{
    if log.is_broken() {
        return Err(AppendFault::Broken);
    }
    match core.copy_immutable(log.durable() as u64) {
        Ok(texts) => log.append(&texts),
        Err(AllocError) => Err(AppendFault::OutOfMemory),
    }
}

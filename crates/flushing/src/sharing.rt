//! Blocks of a core that threads share go onto the log.

ghost use Rattle.std.specs.Prelude.{◌≡◌, ◌↔◌, ◌⊎◌, ℕ, List, length, true, false, OnOk, IfOk, IfErr, IsErrOf};
ghost use Rattle.model.specs.Disk.{Leaves, LeavesSince, one_more};
ghost use Rattle.model.specs.Journal.{IsLook, BeginsWithSeen};
ghost use Rattle.model.specs.Ledger.{network_of};
ghost use Rattle.model.specs.Log.{Opens, OpensToBeginning, IsLogOf};
ghost use Rattle.chain_core.specs.Immutable.{texts_of};
ghost use Rattle.chain_core.specs.Reopening.{IsChainOf, WereImmutable};
ghost use Rattle.shared.specs.Starts.{network_from};
ghost use Rattle.shared.specs.Copies.{AreImmutableAfter};
ghost use Rattle.flushing.specs.Beginning.{IsSharedOnFault, TellsNoBlock};
ghost use Rattle.flushing.specs.Sharing.{BeginAfter};
ghost use Rattle.flushing.specs.Texts.{Begins};

use crate::fault::SharedOnFault;
use crate::restart::Restart;
use immlog::{AppendFault, Disk, Log};
use shared::{Caller, MAX_CALLERS, Opened, Room, Shared};
use std::alloc::AllocError;
use std::sync::Wait;
use witness_pool::SigScheme;

impl<S: SigScheme> Restart<S> {
    /// A shared core for `callers` callers, 1 to 64, on the blocks that were given: its journal begins there, and its
    /// height is how many they are. Err where the callers are fewer or more, else at the first block that is none or
    /// can't come next, or where memory ran out.
    pub fn shared(self, callers: usize) -> Result<Opened<S>, SharedOnFault>
        ensures genesis { IfOk result (λ opened. opened.start.genesis ≡ self.genesis) }
        // It was opened on a valid chain of these blocks.
        ensures chain { IfOk result (λ opened.
            IsChainOf (network_of self.genesis S.verifies) self.blocks opened.start.opened) }
        ensures blocks { IfOk result (λ opened. texts_of opened.start.opened ≡ self.blocks) }
        ensures callers { IfOk result (λ opened. opened.callers ≡ callers) }
        ensures fault { IfErr result (IsSharedOnFault (network_of self.genesis S.verifies) self.blocks callers) }
        // Of blocks that a node put there, of those that no rollback reaches, none is told as invalid.
        ensures again { IfErr result (λ fault. WereImmutable (network_of self.genesis S.verifies) self.blocks
            → TellsNoBlock fault) }
    {
        if callers == 0 || callers > MAX_CALLERS {
            return Err(SharedOnFault::BadCallers);
        }
        let alloc = self.alloc;
        let core = self.core()?;
        let opened = Opened::on(alloc, core, callers)?;
        Ok(opened)
    }
}

/// Puts the blocks of a shared core that are never rolled back onto the log, behind those that it has, which are the
/// first of them. Err where the log is broken, else where memory ran out for copies, else where the disk failed.
///
/// Waits for the lock, copies what the log lacks, lets the lock go, and then writes as [`crate::flush`] does: nobody
/// waits for the disk. A contract speaks of the journal that the caller has then seen, which begins with all that it
/// had seen; blocks that became immutable since aren't among those that are put on.
pub fn flush_shared<D: Disk, S: SigScheme, B: Room, R: Wait>(
    rt: &R,
    log: &mut Log<D>,
    shared: &Shared<S, B>,
    caller: &mut Caller<B>,
) -> Result<(), AppendFault>
    requires { BeginAfter (network_from B.start S.verifies) caller.old.seen log.old.blocks }

    // The caller has then seen the whole journal, and looked at the height; or nothing of what it knows changed.
    ensures looked { OnOk result ((height : ℕ)
        × IsLook (network_from B.start S.verifies) caller.old height caller.new) }
    ensures knows { (caller.new ≡ caller.old) ⊎ ((height : ℕ)
        × IsLook (network_from B.start S.verifies) caller.old height caller.new) }
    ensures seen { BeginsWithSeen caller.new.seen caller.old.seen }

    ensures all { OnOk result (AreImmutableAfter (network_from B.start S.verifies) caller.new.seen log.new.blocks) }
    ensures sound { OnOk result (log.new.broken ≡ false) }
    // A crash then leaves just these blocks.
    ensures left { OnOk result (Leaves (λ bytes. Opens bytes log.new.blocks) (D.moment log.new.disk)) }

    // Whatever it answers, what the log has are the first of these blocks,
    ensures begins { BeginAfter (network_from B.start S.verifies) caller.new.seen log.new.blocks }
    // those that it had among them.
    ensures stay { Begins log.old.blocks log.new.blocks }
    // A crash at any moment since it was called leaves a log that isn't damaged, of a beginning of these blocks, with
    // all that were durable when it was called.
    ensures crash { log.old.broken ≡ false → (all : List (List ℕ))
        → AreImmutableAfter (network_from B.start S.verifies) caller.new.seen all
        → LeavesSince (D.past log.old.disk) (D.past log.new.disk) (D.moment log.new.disk)
        (OpensToBeginning (length log.old.blocks) all) }
    // Now it leaves all that are durable now.
    ensures crash_now { log.old.broken ≡ false → (all : List (List ℕ))
        → AreImmutableAfter (network_from B.start S.verifies) caller.new.seen all
        → Leaves (OpensToBeginning (length log.new.blocks) all) (D.moment log.new.disk) }
    // The same, as `Log::open` asks for it, where memory lasted.
    ensures kept { log.old.broken ≡ false → (IsErrOf result AppendFault.OutOfMemory → ⊥) → (all : List (List ℕ))
        → AreImmutableAfter (network_from B.start S.verifies) caller.new.seen all
        → LeavesSince (D.past log.old.disk) (D.past log.new.disk) (D.moment log.new.disk)
        (IsLogOf (length log.old.blocks) all) }
    ensures kept_now { log.old.broken ≡ false → (IsErrOf result AppendFault.OutOfMemory → ⊥)
        → (all : List (List ℕ)) → AreImmutableAfter (network_from B.start S.verifies) caller.new.seen all
        → Leaves (IsLogOf (length log.new.blocks) all) (D.moment log.new.disk) }

    ensures broken { IsErrOf result AppendFault.Broken ↔ (log.old.broken ≡ true) }
    ensures untouched { IsErrOf result AppendFault.Broken → (log.new ≡ log.old) × (caller.new ≡ caller.old) }
    ensures memory { IsErrOf result AppendFault.OutOfMemory → log.new ≡ log.old }
    ensures failed { IsErrOf result AppendFault.DiskFault →
        D.failures log.new.disk ≡ one_more (D.failures log.old.disk) }
    ensures breaks { IsErrOf result AppendFault.DiskFault → log.new.broken ≡ true }
{
    if log.is_broken() {
        return Err(AppendFault::Broken);
    }
    match shared.copy(rt, caller, log.durable() as u64) {
        Ok(texts) => log.append(&texts),
        Err(AllocError) => Err(AppendFault::OutOfMemory),
    }
}

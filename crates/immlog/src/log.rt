//! The immutable log.

ghost use Rattle.std.specs.Prelude.{◌≡◌, ◌≢◌, ◌↔◌, ◌<◌, ◌≤◌, List, ℕ, [], ◌++◌, length, true, false};
ghost use Rattle.std.specs.Prelude.{None, Some, IsErrOf, IsOk, IfOk, IfErr, IfSome, MatchOption, OnOk};
ghost use Rattle.std.specs.List.{AllByRecursion};
ghost use Rattle.model.specs.Disk.{Leaves, LeavesSince, one_more};
ghost use Rattle.model.specs.Log.{IsLogBlock, Opens, IsDamaged, OpensToBeginning, IsLogOf};
ghost use Rattle.immlog.specs.LogBlocks.{blocks_left};
ghost use Rattle.immlog.specs.Numbered.{IsLike, numbered};
ghost use Rattle.immlog.specs.Views.{lists_of};
ghost use Rattle.immlog.specs.OpenLog.{GoesOn};
ghost use Rattle.immlog.specs.Steps.{KeepsLogs, IsBeginningOf};

use crate::disk::Disk;
use crate::faults::{AppendFault, CreateFault, OpenLogFault, ReadFault};
use crate::fetching::{FetchFault, fetch_block};
use crate::index::Index;
use crate::log_blocks::LogBlocks;
use crate::put::{make_room, put_all, wipe};
use crate::recover::{Found, recover};
use crate::sink::Sink;
use std::alloc::Global;
use std::marker::Model;
use std::thread::Threads;

/// A log of blocks on a disk. In memory it keeps 40 bytes for each of them: where its record begins, and its digest.
/// Where the disk failed in a call, the log is broken: it doesn't touch the disk any more, and is opened again from it.
#[derive(Drop)]
pub struct Log<D: Disk> {
    alloc: Global,
    disk: D,
    index: Index,
    gate: usize,
    /// Where records are spelled before they are written; empty until the first one is.
    room: Vec<u8>,
    broken: bool,
}

impl<D: Disk> Model for Log<D> {
    ghost use Rattle.immlog.specs.OpenLog.{OpenLog, open_log_code};

    ghost Value = { OpenLog D };

    ghost coded = { open_log_code D.code };

    ghost use Rattle.immlog.specs.HeldLog.{log_of, IsHeld};

    ghost view = { log_of };

    ghost invariant = { IsHeld D.reads D.moment };
}

impl<D: Disk> Log<D> {
    /// Makes a log without blocks, whatever was on the disk. Err, with the disk beside it, where the disk failed;
    /// nothing is then said of what is on the disk, nor of a crash inside this call. Takes no memory.
    pub fn create(alloc: Global, disk: D) -> Result<Log<D>, (CreateFault, D)>
        ensures blocks { IfOk result (λ log. log.blocks ≡ []) }
        ensures sound { IfOk result (λ log. log.broken ≡ false) }
        ensures left { IfOk result (λ log. Leaves (λ bytes. Opens bytes log.blocks) (D.moment log.disk)) }
        ensures kept { IfOk result (λ log. Leaves (IsLogOf (length log.blocks) log.blocks) (D.moment log.disk)) }
        ensures failed { IfErr result (λ refused. D.failures refused.1 ≡ one_more (D.failures disk)) }
    {
        let mut disk = disk;
        match wipe(&mut disk) {
            Ok(()) => Ok(Log {
                alloc,
                disk,
                index: Index::new(alloc),
                gate: 0,
                room: Vec::new(alloc),
                broken: false,
            }),
            Err(_) => Err((CreateFault::DiskFault, disk)),
        }
    }

    /// Opens the log on this disk, and gives its blocks, one after the other, to the sink: behind the last one stands a
    /// closed gate, which is made sure, and nothing else. Err, with the disk beside it, where the disk failed, where an
    /// open gate has no record behind it, or where memory ran out; which blocks the sink was given is then not said.
    ///
    /// Reads the disk 4,194,304 bytes at a time, and computes the digests of the blocks that stand whole in them on
    /// threads that it starts for that: up to two for each processor, and at most 64. A record that ends past those
    /// bytes is read again with the next ones, and so is what stands behind 16,384 records, or from the last gate on.
    /// Takes memory for those bytes, and less than two megabytes for what it finds in them, beside the stacks of the
    /// threads, until it returns, and 40 bytes for each block; no block is copied or kept.
    ///
    /// ```text
    /// let mut sink = Nobody::new(); // who makes nothing of the blocks
    /// let log = Log::open(rt, alloc, disk, &mut sink)?; // or the disk again, beside why not
    /// ```
    pub fn open<R: Threads + Sync, K: Sink>(
        rt: &R,
        alloc: Global,
        disk: D,
        sink: &mut K,
    ) -> Result<Log<D>, (OpenLogFault, D)>
        // The blocks are those of what the reads gave,
        ensures opened { IfOk result (λ log. Opens (D.reads disk) log.blocks) }
        // and they were given to the sink;
        ensures given { IfOk result (λ log. K.given sink.new ≡ K.given sink.old ++ log.blocks) }
        ensures kept_by_sink { K.kept sink.new ≡ K.kept sink.old }
        // or it is damaged at the place that is told.
        ensures damaged { IfErr result (λ refused. (place : ℕ) →
            refused.0 ≡ OpenLogFault.Damaged place → IsDamaged (D.reads disk) place) }
        ensures failed { IfErr result (λ refused.
            refused.0 ≡ OpenLogFault.DiskFault → D.failures refused.1 ≡ one_more (D.failures disk)) }
        // Where it isn't the disk that failed, a read gives what it gave.
        ensures stays { IfErr result (λ refused.
            refused.0 ≢ OpenLogFault.DiskFault → D.reads refused.1 ≡ D.reads disk) }
        ensures sound { IfOk result (λ log. log.broken ≡ false) }
        // A crash then leaves just the durable blocks.
        ensures left { IfOk result (λ log. Leaves (λ bytes. Opens bytes log.blocks) (D.moment log.disk)) }
        ensures kept { IfOk result (λ log. Leaves (IsLogOf (length log.blocks) log.blocks) (D.moment log.disk)) }

        // Of a disk of which a crash leaves a log of these blocks, at least a given number of them being sure, the
        // same is left at every moment since, whatever it answers.
        ensures crash { IfOk result (λ log.
            KeepsLogs (D.moment disk) (D.past disk) (D.moment log.disk) (D.past log.disk)) }
        ensures crash_refused { IfErr result (λ refused.
            KeepsLogs (D.moment disk) (D.past disk) (D.moment refused.1) (D.past refused.1)) }
        // A beginning of these blocks is opened, with those that were sure,
        ensures begins { IfOk result (λ log. (least : ℕ) (blocks : List (List ℕ)) →
            Leaves (IsLogOf least blocks) (D.moment disk) → IsBeginningOf least blocks log.blocks) }
        // and it isn't damaged.
        ensures undamaged { IfErr result (λ refused. (least : ℕ) (blocks : List (List ℕ)) →
            Leaves (IsLogOf least blocks) (D.moment disk) → (place : ℕ) → refused.0 ≡ OpenLogFault.Damaged place → ⊥) }
    {
        let mut disk = disk;
        match recover(rt, alloc, &mut disk, sink) {
            Ok(Found { index, gate }) => Ok(Log {
                alloc,
                disk,
                index,
                gate,
                room: Vec::new(alloc),
                broken: false,
            }),
            Err(fault) => Err((fault, disk)),
        }
    }

    /// Puts these blocks, of 1 to 1,048,576 bytes each, onto the log, one after the other. Err where the log is broken,
    /// else where memory ran out, else where the disk failed. Writes the bytes of the blocks and 37 bytes for each,
    /// each record at once and then its gate, and waits for the disk twice for each. Computes the digest of each once.
    /// Takes memory for 40 bytes for each, and once for the longest record, about a megabyte, where each is spelled; no
    /// copy is kept.
    pub fn append(&mut self, blocks: &[Vec<u8>]) -> Result<(), AppendFault>
        requires { AllByRecursion IsLogBlock (lists_of blocks.now) }

        ensures all { OnOk result (self.new.blocks ≡ self.old.blocks ++ lists_of blocks.now) }
        ensures sound { OnOk result (self.new.broken ≡ false) }
        // A crash then leaves just the durable blocks.
        ensures left { OnOk result (Leaves (λ bytes. Opens bytes self.new.blocks) (D.moment self.new.disk)) }

        // Whatever it answers, the blocks before stay, and behind them stand some of the new ones, from the first on.
        ensures begins { GoesOn self.old.blocks (lists_of blocks.now) self.new.blocks }
        // A crash at any moment since it was called leaves a log that isn't damaged, of a beginning of the blocks
        // before and the new ones, with all that were durable when it was called.
        ensures crash { self.old.broken ≡ false → LeavesSince (D.past self.old.disk) (D.past self.new.disk)
            (D.moment self.new.disk)
            (OpensToBeginning (length self.old.blocks) (self.old.blocks ++ lists_of blocks.now)) }
        // Now it leaves all that are durable now.
        ensures crash_now { self.old.broken ≡ false → Leaves
            (OpensToBeginning (length self.new.blocks) (self.old.blocks ++ lists_of blocks.now))
            (D.moment self.new.disk) }
        // The same, as `open` asks for it.
        ensures kept { self.old.broken ≡ false → LeavesSince (D.past self.old.disk) (D.past self.new.disk)
            (D.moment self.new.disk) (IsLogOf (length self.old.blocks) (self.old.blocks ++ lists_of blocks.now)) }
        ensures kept_now { self.old.broken ≡ false → Leaves
            (IsLogOf (length self.new.blocks) (self.old.blocks ++ lists_of blocks.now)) (D.moment self.new.disk) }

        // An empty list is put onto every log that isn't broken.
        ensures empty { blocks.now ≡ [] → self.old.broken ≡ false → IsOk result }
        ensures broken { IsErrOf result AppendFault.Broken ↔ (self.old.broken ≡ true) }
        ensures untouched { IsErrOf result AppendFault.Broken → self.new ≡ self.old }
        ensures memory { IsErrOf result AppendFault.OutOfMemory → self.new ≡ self.old }
        ensures failed { IsErrOf result AppendFault.DiskFault →
            D.failures self.new.disk ≡ one_more (D.failures self.old.disk) }
        ensures breaks { IsErrOf result AppendFault.DiskFault → self.new.broken ≡ true }
    {
        if self.broken {
            return Err(AppendFault::Broken);
        }
        if make_room(&mut self.index, &mut self.room, blocks.len()).is_err() {
            return Err(AppendFault::OutOfMemory);
        }
        // Until all is sure, nothing is known of the disk but what a crash may leave of it.
        self.broken = true;
        if put_all(
            &mut self.disk,
            &mut self.gate,
            blocks,
            &mut self.index,
            &mut self.room,
        )
        .is_err()
        {
            return Err(AppendFault::DiskFault);
        }
        self.broken = false;
        Ok(())
    }

    /// Whether the disk failed in a call. It isn't touched any more then.
    pub fn is_broken(&self) -> bool
        ensures { result ≡ self.now.broken }
    {
        self.broken
    }

    /// How many blocks are durable: a crash leaves them all. In constant time.
    pub fn durable(&self) -> usize
        ensures count { result ≡ length self.now.blocks }
        // Of a log that isn't broken it leaves just these.
        ensures left { self.now.broken ≡ false →
            Leaves (IsLogOf (length self.now.blocks) self.now.blocks) (D.moment self.now.disk) }
    {
        self.index.len()
    }

    /// The block of this number, counted from 1, as the disk gives it again; None where there is none. Err where the
    /// log is broken, else where memory ran out for the block, where the disk failed, which breaks the log, or where
    /// what it gives has another SHA-256 (FIPS 180-4), or is shorter. Reads as many bytes as the block has, and takes
    /// memory for them.
    pub fn block(&mut self, number: u64) -> Result<Option<Vec<u8>>, ReadFault>
        // The bytes have the length and the SHA-256 of the block of that number,
        ensures like { IfOk result (λ found. MatchOption found (numbered self.old.blocks number ≡ None)
            (λ bytes. IsLike self.old.blocks number bytes.items)) }
        // and on a disk that keeps what it holds they are that block.
        ensures exact { D.keeps ≡ true → IfOk result (λ found. IfSome found (λ bytes.
            numbered self.old.blocks number ≡ Some bytes.items)) }
        // No block is told as damaged on a disk that keeps what it holds.
        ensures damaged { (told : ℕ) → IsErrOf result (ReadFault.Damaged told) →
            (told ≡ number) × (D.keeps ≡ true → ⊥) }
        ensures broken { IsErrOf result ReadFault.Broken ↔ (self.old.broken ≡ true) }
        ensures failed { IsErrOf result ReadFault.DiskFault →
            D.failures self.new.disk ≡ one_more (D.failures self.old.disk) }
        // There is no fault where there is no such block.
        ensures none { numbered self.old.blocks number ≡ None → self.old.broken ≡ false → IsOk result }
        // The log stays, except that a failure of the disk breaks it.
        ensures blocks { self.new.blocks ≡ self.old.blocks }
        ensures sound { (IsErrOf result ReadFault.DiskFault → ⊥) → self.new.broken ≡ self.old.broken }
        ensures breaks { IsErrOf result ReadFault.DiskFault → self.new.broken ≡ true }
        ensures worked { (IsErrOf result ReadFault.DiskFault → ⊥) →
            D.failures self.new.disk ≡ D.failures self.old.disk }
        ensures same { D.reads self.new.disk ≡ D.reads self.old.disk }
        ensures still { D.moment self.new.disk ≡ D.moment self.old.disk }
        ensures clock { D.past self.new.disk ≡ D.past self.old.disk }
    {
        if self.broken {
            return Err(ReadFault::Broken);
        }
        let Some(span) = self.index.span(number, self.gate) else {
            return Ok(None);
        };
        match fetch_block(self.alloc, &mut self.disk, &span) {
            Ok(Some(bytes)) => Ok(Some(bytes)),
            Ok(None) => Err(ReadFault::Damaged(number)),
            Err(FetchFault::OutOfMemory) => Err(ReadFault::OutOfMemory),
            Err(FetchFault::DiskFault) => {
                self.broken = true;
                Err(ReadFault::DiskFault)
            }
        }
    }

    /// The blocks one after the other, each read again; [`LogBlocks::into_log`] gives the log back. Reads nothing yet.
    pub fn into_blocks(self) -> LogBlocks<D>
        ensures left { blocks_left result ≡ self.blocks }
        ensures log { result.log ≡ self }
    {
        LogBlocks::new(self)
    }

    /// The disk as it stands, also of a broken log. Touches nothing.
    pub fn into_disk(self) -> D
        ensures { result ≡ self.disk }
    {
        let Log {
            alloc: _,
            disk,
            index: _,
            gate: _,
            room: _,
            broken: _,
        } = self;
        disk
    }
}

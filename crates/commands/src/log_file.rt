//! The file of a log.

ghost use Rattle.std.specs.Prelude.{◌≡◌, ◌++◌, ℕ, false, OnOk, IfOk, IfSome, IsErrOf};
ghost use Rattle.immlog.specs.Left.{IsLeft, IsLook};

use crate::descriptors::LAST_STANDARD;
use crate::failure::Failure;
use file_disk::FileDisk;
use immlog::{Disk, Log, Look, LookFault, Sink, look_at};
use scenario::ScenarioFault;
use std::alloc::Global;
use std::fs;
use std::fs::{File, OpenFile, OpenOptions};
use std::io::{BufReader, ErrorKind, Read};
use std::os::fd::AsRawFd;
use std::rt::Files;
use std::thread::Threads;

/// The log on a disk, which is made where the disk is empty. Its blocks are given to the sink.
fn log_on<'a, R: AllocGlobal + Threads + Sync, D: Disk + Drop, K: Sink>(
    rt: &R,
    disk: D,
    is_empty: bool,
    sink: &mut K,
) -> Result<Log<D>, Failure<'a>>
    ensures sound { IfOk result (λ log. log.broken ≡ false) }
    ensures given { IfOk result (λ log. K.given sink.new ≡ K.given sink.old ++ log.blocks) }
    ensures kept { K.kept sink.new ≡ K.kept sink.old }
{
    if is_empty {
        return match Log::create(rt.alloc(), disk) {
            Ok(log) => Ok(log),
            Err(_) => Err(Failure::DiskFault),
        };
    }
    match Log::open(rt, rt.alloc(), disk, sink) {
        Ok(log) => Ok(log),
        Err((fault, _disk)) => Err(fault.into()),
    }
}

/// The file of this path, made where it is missing and may be made. No other program gets it as long as it is open:
/// where another has it, it can't be read.
fn own_file<'a, R: Files<File = File>>(
    rt: &R,
    path: &'a str,
    may_make: bool,
) -> Result<File, Failure<'a>> {
    let Ok(file) = OpenOptions::new()
        .read(true)
        .write(true)
        .create(may_make)
        .open(rt, path)
    else {
        return Err(Failure::CannotRead(path));
    };
    // What is printed never goes to a log.
    if file.as_raw_fd() <= LAST_STANDARD {
        return Err(Failure::CannotRead(path));
    }
    match file.try_lock() {
        Ok(()) => Ok(file),
        Err(_) => Err(Failure::CannotRead(path)),
    }
}

/// Refuses the bytes of this path's file where no log left them. Changes nothing, and reads no further than it has to.
fn refuse_others<'a, F: Read>(alloc: Global, file: &mut F, path: &'a str) -> Result<(), Failure<'a>>
    ensures left { OnOk result (IfSome (F.remaining file.old) IsLeft) }
    ensures damaged { (place : ℕ) → IsErrOf result (Failure.Damaged place) →
        IfSome (F.remaining file.old) (λ bytes. IsLook bytes (Look.Damaged place)) }
{
    let Ok(mut reader) = BufReader::new(alloc, file) else {
        return Err(Failure::Scenario(ScenarioFault::OutOfMemory));
    };
    match look_at(alloc, &mut reader) {
        Ok(Look::Log) => Ok(()),
        Ok(Look::NoLog) => Err(Failure::CannotRead(path)),
        Ok(Look::Damaged(place)) => Err(Failure::Damaged(place)),
        Err(LookFault::Unread) => Err(Failure::DiskFault),
        Err(LookFault::OutOfMemory) => Err(Failure::Scenario(ScenarioFault::OutOfMemory)),
    }
}

/// Makes sure that the file of this path is found again after a loss of power, in the folder where it is.
fn sync_folder<'a, R: Files + AllocGlobal>(rt: &R, path: &'a str) -> Result<(), Failure<'a>> {
    let Ok(whole) = fs::canonicalize(rt, path) else {
        return Err(Failure::CannotRead(path));
    };
    let Some(folder) = whole.as_path().parent() else {
        return Err(Failure::CannotRead(path));
    };
    let Ok(folder) = File::open(rt, folder) else {
        return Err(Failure::CannotRead(path));
    };
    match folder.sync_all() {
        Ok(()) => Ok(()),
        Err(_) => Err(Failure::DiskFault),
    }
}

/// The log of a file that is this program's. Where the file is empty, or is missing and may be made, it has no block.
/// Its blocks are given to the sink.
pub fn log_of_file<'a, R: Files<File = File> + AllocGlobal + Threads + Sync, K: Sink>(
    rt: &R,
    path: &'a str,
    may_make: bool,
    sink: &mut K,
) -> Result<Log<FileDisk<File>>, Failure<'a>>
    ensures sound { IfOk result (λ log. log.broken ≡ false) }
    ensures given { IfOk result (λ log. K.given sink.new ≡ K.given sink.old ++ log.blocks) }
    ensures kept { K.kept sink.new ≡ K.kept sink.old }
{
    let mut file = own_file(rt, path, may_make)?;
    refuse_others(rt.alloc(), &mut file, path)?;
    match FileDisk::open(rt.alloc(), file) {
        Ok(disk) => {
            let is_empty = disk.is_empty();
            // Before the first byte is written, so that a log that has one is in a folder that knows it.
            if is_empty {
                sync_folder(rt, path)?;
            }
            log_on(rt, disk, is_empty, sink)
        }
        Err(error) if error.kind() == ErrorKind::OutOfMemory => {
            Err(Failure::Scenario(ScenarioFault::OutOfMemory))
        }
        Err(_) => Err(Failure::DiskFault),
    }
}

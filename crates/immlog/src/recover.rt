//! A disk that a crash may have left is made ready for more blocks.

ghost use Rattle.std.specs.Prelude.{◌≡◌, ◌≢◌, ◌+◌, ◌^◌, ◌<◌, ◌≤◌, ℕ, List, [], ◌∷◌, ◌++◌, length, take, slice_get};
ghost use Rattle.std.specs.Prelude.{IfOk, IsErrOf, OnOk};
ghost use Rattle.std.specs.List.{AllByRecursion};
ghost use Rattle.model.specs.Disk.{settled, Leaves, HoldsSince, LeavesSince, IsCounted, one_more};
ghost use Rattle.model.specs.Log.{Opens, IsDamaged, records, at_rest, IsLogOf};
ghost use Rattle.immlog.specs.Steps.{IsFixed, IsFound, KeepsLogs, IsBeginningOf};
ghost use Rattle.immlog.specs.Framed.{framed_blocks, IsSound, BeginWith};
ghost use Rattle.immlog.specs.Index.{AreEntriesOf, blocks_in};

use crate::disk::{Disk, DiskFailed};
use crate::faults::OpenLogFault;
use crate::frames::{Frame, count_sound, digests_of, first_frames};
use crate::index::Index;
use crate::put::{CLOSED, OPEN, write_gate};
use crate::records::BEFORE_BLOCK;
use crate::sink::Sink;
use std::alloc::{AllocError, Global};
use std::thread::Threads;

/// How many bytes of a disk are read at once: as many as four of the longest blocks have, so that threads have blocks
/// to share. The longest record has fewer, so each stands whole in what is read from its gate on.
const ROOM: usize = 4_194_304;

/// What is found of a log.
#[derive(Drop)]
pub struct Found {
    pub index: Index,
    /// Where the records end.
    pub gate: usize,
}

/// Room for `len` bytes.
pub fn room_for(alloc: Global, len: usize) -> Result<Vec<u8>, AllocError>
    ensures { IfOk result (λ room. length room.items ≡ len) }
{
    vec![in alloc; 0u8; len]
}

/// Goes on from a record that stands at this place: it is given to the sink, and noted in the index.
fn add_record<K: Sink>(
    sink: &mut K,
    index: &mut Index,
    place: usize,
    digest: &[u8; 32],
    block: &[u8],
) -> Result<usize, AllocError>
    requires { place + (37 + length block.now) < 2 ^ 64 }
    ensures next { IfOk result (λ next. next ≡ place + (37 + length block.now)) }
    ensures noted { OnOk result (blocks_in index.new ≡ blocks_in index.old ++ block.now ∷ []) }
    ensures entries { OnOk result (index.new.entries.items
        ≡ index.old.entries.items ++ record { place = place; digest = digest.now } ∷ []) }
    ensures given { OnOk result (K.given sink.new ≡ K.given sink.old ++ block.now ∷ []) }
    ensures kept { K.kept sink.new ≡ K.kept sink.old }
{
    index.push(place, digest, block)?;
    sink.give(block);
    Ok(place + BEFORE_BLOCK + block.len())
}

/// Goes on from these records, which stand from this place on and tell the digests of their blocks: the blocks are
/// given to the sink, one after the other, and noted in the index. Answers where they end.
fn add_frames<K: Sink>(
    sink: &mut K,
    index: &mut Index,
    place: usize,
    frames: &[Frame<'_>],
) -> Result<usize, AllocError>
    requires sound { AllByRecursion IsSound frames.now }
    requires entries { AreEntriesOf 0 (blocks_in index.old) index.old.entries.items }
    requires place { place ≡ length (records (blocks_in index.old)) }
    requires fits { length (records (blocks_in index.old ++ framed_blocks frames.now)) < 2 ^ 64 }
    ensures next { IfOk result (λ next. next ≡ length (records (blocks_in index.new))) }
    ensures noted { OnOk result (blocks_in index.new ≡ blocks_in index.old ++ framed_blocks frames.now) }
    ensures entries { OnOk result (AreEntriesOf 0 (blocks_in index.new) index.new.entries.items) }
    ensures given { OnOk result (K.given sink.new ≡ K.given sink.old ++ framed_blocks frames.now) }
    ensures kept { K.kept sink.new ≡ K.kept sink.old }
{
    let mut next = place;
    for frame in frames {
        next = add_record(sink, index, next, frame.digest, frame.block)?;
    }
    Ok(next)
}

/// Goes on from the records at the front of these bytes, which stand at this place of a disk: the digests of their
/// blocks are computed, and the blocks are added, up to the first whose record tells another digest. Answers where they
/// end.
fn add_records<R: Threads + Sync, K: Sink>(
    rt: &R,
    alloc: Global,
    sink: &mut K,
    index: &mut Index,
    place: usize,
    bytes: &[u8],
) -> Result<usize, AllocError>
    requires entries { AreEntriesOf 0 (blocks_in index.old) index.old.entries.items }
    requires place { place ≡ length (records (blocks_in index.old)) }
    requires fits { place + length bytes.now < 2 ^ 64 }
    ensures next { IfOk result (λ next. next ≡ length (records (blocks_in index.new))) }
    ensures added { OnOk result ((blocks : List (List ℕ)) × BeginWith bytes.now blocks
        × (blocks_in index.new ≡ blocks_in index.old ++ blocks)
        × (K.given sink.new ≡ K.given sink.old ++ blocks)) }
    ensures entries { OnOk result (AreEntriesOf 0 (blocks_in index.new) index.new.entries.items) }
    ensures kept { K.kept sink.new ≡ K.kept sink.old }
{
    let frames = first_frames(alloc, bytes)?;
    let digests = digests_of(rt, alloc, &frames)?;
    let sound = count_sound(&frames, &digests);
    add_frames(sink, index, place, &frames[..sound])
}

/// The records of the disk, as many at once as there is room for, and what stands where the gate behind them should.
/// Their blocks are given to the sink, one after the other. Err where the disk failed, where an open gate has no record
/// behind it, or where memory ran out.
fn find_records<R: Threads + Sync, D: Disk, K: Sink>(
    rt: &R,
    alloc: Global,
    disk: &mut D,
    sink: &mut K,
) -> Result<(Found, Option<u8>), OpenLogFault>
    ensures found { IfOk result (λ found. IsFound (D.reads disk.old) found.0.gate (blocks_in found.0.index)) }
    ensures entries { IfOk result (λ found.
        AreEntriesOf 0 (blocks_in found.0.index) found.0.index.entries.items) }
    ensures given { IfOk result (λ found. K.given sink.new ≡ K.given sink.old ++ blocks_in found.0.index) }
    ensures kept { K.kept sink.new ≡ K.kept sink.old }
    ensures gate { IfOk result (λ found. found.1 ≡ slice_get (D.reads disk.old) found.0.gate) }
    ensures damaged { (place : ℕ) → IsErrOf result (OpenLogFault.Damaged place) → IsDamaged (D.reads disk.old) place }
    ensures same { D.reads disk.new ≡ D.reads disk.old }
    ensures still { D.moment disk.new ≡ D.moment disk.old }
    ensures clock { D.past disk.new ≡ D.past disk.old }
    ensures worked { OnOk result (D.failures disk.new ≡ D.failures disk.old) }
    ensures failed { IsErrOf result OpenLogFault.DiskFault → D.failures disk.new ≡ one_more (D.failures disk.old) }
{
    let Ok(mut room) = room_for(alloc, ROOM) else {
        return Err(OpenLogFault::OutOfMemory);
    };
    let mut index = Index::new(alloc);
    let mut gate = 0usize;
    loop {
        let Ok(count) = disk.read(gate, &mut room) else {
            return Err(OpenLogFault::DiskFault);
        };
        let bytes = &room[..count];
        let Ok(next) = add_records(rt, alloc, sink, &mut index, gate, bytes) else {
            return Err(OpenLogFault::OutOfMemory);
        };
        if next == gate {
            let byte = bytes.first().copied();
            if byte == Some(OPEN) {
                return Err(OpenLogFault::Damaged(gate));
            }
            return Ok((Found { index, gate }, byte));
        }
        gate = next;
    }
}

/// Closes the gate at this place, where this stands, unless it is closed as it should be.
fn close_gate<D: Disk>(disk: &mut D, place: usize, gate: Option<u8>) -> Result<(), DiskFailed>
    requires place { place ≤ length (D.reads disk.old) }
    requires gate { gate ≡ slice_get (D.reads disk.old) place }
    requires settled { D.moment disk.old ≡ settled (D.reads disk.old) }
    ensures text { OnOk result ((found : List (List ℕ)) → IsFound (D.reads disk.old) place found →
        (more : List ℕ) × (D.reads disk.new ≡ records found ++ 0 ∷ more)) }
    ensures settled { OnOk result (D.moment disk.new ≡ settled (D.reads disk.new)) }
    ensures keeps { (found : List (List ℕ)) → IsFound (D.reads disk.old) place found →
        KeepsLogs (D.moment disk.old) (D.past disk.old) (D.moment disk.new) (D.past disk.new) }
    ensures failures { IsCounted (D.failures disk.old) (D.failures disk.new) result }
{
    if gate == Some(CLOSED) {
        return Ok(());
    }
    write_gate(disk, place, CLOSED)?;
    Ok(())
}

/// Cuts what stands from this place on.
fn cut_from<D: Disk>(disk: &mut D, len: usize) -> Result<(), DiskFailed>
    requires len { len ≤ length (D.reads disk.old) }
    requires settled { D.moment disk.old ≡ settled (D.reads disk.old) }
    ensures text { OnOk result (D.reads disk.new ≡ take len (D.reads disk.old)) }
    ensures settled { OnOk result (D.moment disk.new ≡ settled (D.reads disk.new)) }
    ensures fixed { HoldsSince (D.past disk.old) (D.past disk.new) (D.moment disk.new)
        (IsFixed (take len (D.reads disk.old))) }
    ensures failures { IsCounted (D.failures disk.old) (D.failures disk.new) result }
{
    disk.cut(len)?;
    disk.sync()?;
    Ok(())
}

/// Leaves the records of the blocks up to the gate at this place, where this stands, and that gate closed.
fn tidy<D: Disk>(disk: &mut D, place: usize, gate: Option<u8>) -> Result<(), DiskFailed>
    requires place { place ≤ length (D.reads disk.old) }
    requires gate { gate ≡ slice_get (D.reads disk.old) place }
    requires settled { D.moment disk.old ≡ settled (D.reads disk.old) }
    requires found { (found : List (List ℕ)) × IsFound (D.reads disk.old) place found }
    ensures text { OnOk result ((found : List (List ℕ)) → IsFound (D.reads disk.old) place found →
        D.reads disk.new ≡ at_rest found) }
    ensures settled { OnOk result (D.moment disk.new ≡ settled (D.reads disk.new)) }
    ensures keeps { KeepsLogs (D.moment disk.old) (D.past disk.old) (D.moment disk.new) (D.past disk.new) }
    ensures failures { IsCounted (D.failures disk.old) (D.failures disk.new) result }
{
    close_gate(disk, place, gate)?;
    cut_from(disk, place + 1)?;
    Ok(())
}

/// The blocks of the log on this disk, which are given to the sink, and the place of the closed gate behind them, which
/// is made sure and has nothing behind it. Err where the disk failed, where the log is damaged, or where memory ran
/// out.
pub fn recover<R: Threads + Sync, D: Disk, K: Sink>(
    rt: &R,
    alloc: Global,
    disk: &mut D,
    sink: &mut K,
) -> Result<Found, OpenLogFault>
    ensures opened { IfOk result (λ found. Opens (D.reads disk.old) (blocks_in found.index)) }
    ensures entries { IfOk result (λ found. AreEntriesOf 0 (blocks_in found.index) found.index.entries.items) }
    ensures given { IfOk result (λ found. K.given sink.new ≡ K.given sink.old ++ blocks_in found.index) }
    ensures kept { K.kept sink.new ≡ K.kept sink.old }
    ensures rest { IfOk result (λ found. D.reads disk.new ≡ at_rest (blocks_in found.index)) }
    ensures place { IfOk result (λ found. found.gate + 1 ≡ length (D.reads disk.new)) }
    ensures settled { OnOk result (D.moment disk.new ≡ settled (D.reads disk.new)) }
    ensures keeps { KeepsLogs (D.moment disk.old) (D.past disk.old) (D.moment disk.new) (D.past disk.new) }
    ensures begins { IfOk result (λ found. (least : ℕ) (blocks : List (List ℕ)) →
        Leaves (IsLogOf least blocks) (D.moment disk.old) → IsBeginningOf least blocks (blocks_in found.index)) }
    ensures damaged { (place : ℕ) → IsErrOf result (OpenLogFault.Damaged place) → IsDamaged (D.reads disk.old) place }
    ensures failed { IsErrOf result OpenLogFault.DiskFault → D.failures disk.new ≡ one_more (D.failures disk.old) }
    ensures stays { (fault : OpenLogFault) → IsErrOf result fault → fault ≢ OpenLogFault.DiskFault →
        D.reads disk.new ≡ D.reads disk.old }
{
    // A gate whose write or sync failed is settled before anything is decided by what is read.
    let Ok(()) = disk.sync() else {
        return Err(OpenLogFault::DiskFault);
    };
    let (found, byte) = find_records(rt, alloc, disk, sink)?;
    let Ok(()) = tidy(disk, found.gate, byte) else {
        return Err(OpenLogFault::DiskFault);
    };
    Ok(found)
}

//! One block after the other is put on the disk, each behind a closed gate that is opened only when it is sure.

ghost use Rattle.std.specs.Prelude.{◌≡◌, ℕ, ◌+◌, ◌<◌, ◌≤◌, List, [], ◌∷◌, ◌++◌, length, map, IfOk, OnOk, OnErr};
ghost use Rattle.std.specs.Prelude.{vec_len, vec_capacity};
ghost use Rattle.std.specs.Int.{w32, to_be_bytes};
ghost use Rattle.std.specs.Prelude.{IsOk};
ghost use Rattle.std.specs.List.{AllByRecursion};
ghost use Rattle.sha2.specs.Sha256.{sha256};
ghost use Rattle.model.specs.Limits.{block_size_limit};
ghost use Rattle.model.specs.Disk.{settled, Leaves, HoldsSince, LeavesSince, IsCounted};
ghost use Rattle.model.specs.Log.{IsLogBlock, body_of, at_rest, IsLogOf};
ghost use Rattle.immlog.specs.Steps.{IsFixed, KeepsFixed, IsGateMoment, gate_written};
ghost use Rattle.immlog.specs.Index.{AreEntriesOf, blocks_in};
ghost use Rattle.immlog.specs.OpenLog.{GoesOn};
ghost use Rattle.immlog.specs.Views.{lists_of};

use crate::disk::{Disk, DiskFailed};
use crate::index::Index;
use sha2::{Digest, Sha256};
use std::alloc::AllocError;

/// The gate of a record.
pub const OPEN: u8 = 1;

/// The gate that ends a log.
pub const CLOSED: u8 = 0;

/// The most bytes that are written at once: the longest block, what stands before it except for the gate, and the
/// closed gate behind it.
pub const MOST_WRITTEN: usize = 1_048_613;

/// Leaves a closed gate on the disk, and nothing else.
pub fn wipe<D: Disk>(disk: &mut D) -> Result<(), DiskFailed>
    ensures text { OnOk result (D.reads disk.new ≡ at_rest []) }
    ensures settled { OnOk result (D.moment disk.new ≡ settled (D.reads disk.new)) }
    ensures failures { IsCounted (D.failures disk.old) (D.failures disk.new) result }
{
    disk.cut(0)?;
    disk.write_at(0, &[0])?;
    disk.sync()?;
    Ok(())
}

/// Writes these bytes at the end of the disk, and answers where they end.
fn write_end<D: Disk>(disk: &mut D, place: usize, bytes: &[u8]) -> Result<usize, DiskFailed>
    requires { place ≡ length (D.reads disk.old) }
    ensures text { OnOk result (D.reads disk.new ≡ D.reads disk.old ++ bytes.now) }
    ensures place { IfOk result (λ next. next ≡ length (D.reads disk.new)) }
    ensures further { IfOk result (λ next. place ≤ next) }
    ensures fixed { KeepsFixed place (D.moment disk.old) (D.past disk.old) (D.moment disk.new) (D.past disk.new) }
    ensures failures { IsCounted (D.failures disk.old) (D.failures disk.new) result }
{
    disk.write_at(place, bytes)?;
    Ok(place + bytes.len())
}

/// Spells the record of the block with this digest, except for its gate, and a closed gate behind it.
fn spell(room: &mut [u8], digest: &[u8; 32], block: &[u8])
    requires room { length room.old ≡ length block.now + 37 }
    requires size { IsLogBlock block.now }
    requires digest { digest.now ≡ sha256 block.now }
    ensures { room.new ≡ body_of block.now ++ 0 ∷ [] }
{
    let (len, rest) = room.split_at_mut(4);
    len.copy_from_slice(&(block.len() as u32).to_be_bytes());
    let (told, rest) = rest.split_at_mut(32);
    told.copy_from_slice(digest.as_slice());
    let (text, gate) = rest.split_at_mut(block.len());
    text.copy_from_slice(block);
    gate.copy_from_slice(&[0]);
}

/// Writes the record of the block, which has this digest, behind the closed gate at this place, and a closed gate
/// behind it, all of it sure; and answers the place of that gate. The closed gate at this place stays. Spells what it
/// writes in this room.
fn stage<D: Disk>(
    disk: &mut D,
    room: &mut [u8],
    gate: usize,
    digest: &[u8; 32],
    block: &[u8],
) -> Result<usize, DiskFailed>
    requires room { block_size_limit + 37 ≤ length room.old }
    requires place { gate + 1 ≡ length (D.reads disk.old) }
    requires settled { D.moment disk.old ≡ settled (D.reads disk.old) }
    requires size { IsLogBlock block.now }
    requires digest { digest.now ≡ sha256 block.now }
    ensures room { length room.new ≡ length room.old }
    ensures text { OnOk result (D.reads disk.new ≡ D.reads disk.old ++ (body_of block.now ++ 0 ∷ [])) }
    ensures place { IfOk result (λ next. next + 1 ≡ length (D.reads disk.new)) }
    ensures settled { OnOk result (D.moment disk.new ≡ settled (D.reads disk.new)) }
    ensures fixed { HoldsSince (D.past disk.old) (D.past disk.new) (D.moment disk.new) (IsFixed (D.reads disk.old)) }
    ensures failures { IsCounted (D.failures disk.old) (D.failures disk.new) result }
{
    let record = &mut room[..block.len() + 37];
    spell(record, digest, block);
    let end = write_end(disk, gate + 1, record)?;
    disk.sync()?;
    Ok(end - 1)
}

/// Writes a gate over the one at this place, and makes it sure.
pub fn write_gate<D: Disk>(disk: &mut D, place: usize, gate: u8) -> Result<(), DiskFailed>
    requires place { place ≤ length (D.reads disk.old) }
    requires settled { D.moment disk.old ≡ settled (D.reads disk.old) }
    ensures text { OnOk result (D.reads disk.new ≡ gate_written place gate (D.reads disk.old)) }
    ensures settled { OnOk result (D.moment disk.new ≡ settled (D.reads disk.new)) }
    ensures moments { HoldsSince (D.past disk.old) (D.past disk.new) (D.moment disk.new)
        (IsGateMoment place gate (D.reads disk.old)) }
    ensures failures { IsCounted (D.failures disk.old) (D.failures disk.new) result }
{
    disk.write_at(place, &[gate])?;
    disk.sync()?;
    Ok(())
}

/// Opens the gate at this place, behind which a record stands, and makes it sure. Where that fails, the gate is closed
/// again as well as may be: the block isn't acknowledged, and what the system then reads back is no more than what is.
fn open_gate<D: Disk>(disk: &mut D, place: usize) -> Result<(), DiskFailed>
    requires place { place < length (D.reads disk.old) }
    requires settled { D.moment disk.old ≡ settled (D.reads disk.old) }
    ensures text { OnOk result (D.reads disk.new ≡ gate_written place 1 (D.reads disk.old)) }
    ensures settled { OnOk result (D.moment disk.new ≡ settled (D.reads disk.new)) }
    ensures moments { HoldsSince (D.past disk.old) (D.past disk.new) (D.moment disk.new)
        (IsGateMoment place 1 (D.reads disk.old)) }
    ensures failures { IsCounted (D.failures disk.old) (D.failures disk.new) result }
{
    disk.write_at(place, &[OPEN])?;
    match disk.sync() {
        Ok(()) => Ok(()),
        Err(failed) => {
            disk.put_back(place, &[CLOSED]);
            Err(failed)
        }
    }
}

/// Puts one block, which has this digest, behind the closed gate at this place, and answers the place of the gate
/// behind it.
fn put<D: Disk>(
    disk: &mut D,
    room: &mut [u8],
    gate: usize,
    digest: &[u8; 32],
    block: &[u8],
) -> Result<usize, DiskFailed>
    requires room { block_size_limit + 37 ≤ length room.old }
    requires place { gate + 1 ≡ length (D.reads disk.old) }
    requires settled { D.moment disk.old ≡ settled (D.reads disk.old) }
    requires size { IsLogBlock block.now }
    requires digest { digest.now ≡ sha256 block.now }
    ensures room { length room.new ≡ length room.old }
    ensures text { OnOk result ((done : List (List ℕ)) → D.reads disk.old ≡ at_rest done →
        D.reads disk.new ≡ at_rest (done ++ block.now ∷ [])) }
    ensures place { IfOk result (λ next. next + 1 ≡ length (D.reads disk.new)) }
    ensures settled { OnOk result (D.moment disk.new ≡ settled (D.reads disk.new)) }
    ensures crash { (done later : List (List ℕ)) → AllByRecursion IsLogBlock (done ++ block.now ∷ later) →
        D.reads disk.old ≡ at_rest done → LeavesSince (D.past disk.old) (D.past disk.new) (D.moment disk.new)
        (IsLogOf (length done) (done ++ block.now ∷ later)) }
    ensures failures { IsCounted (D.failures disk.old) (D.failures disk.new) result }
{
    let next = stage(disk, room, gate, digest, block)?;
    open_gate(disk, gate)?;
    Ok(next)
}

/// Makes room for the entries of `count` blocks, and in which each of their records can be spelled.
pub fn make_room(index: &mut Index, room: &mut Vec<u8>, count: usize) -> Result<(), AllocError>
    ensures blocks { blocks_in index.new ≡ blocks_in index.old }
    ensures entries { index.new.entries.items ≡ index.old.entries.items }
    ensures more { OnOk result (vec_len index.new.entries + count ≤ vec_capacity index.new.entries) }
    ensures room { OnOk result (0 < count → block_size_limit + 37 ≤ length room.new.items) }
    ensures none { count ≡ 0 → IsOk result }
{
    if count == 0 {
        return Ok(());
    }
    index.reserve(count)?;
    if room.len() < MOST_WRITTEN {
        room.resize(MOST_WRITTEN, 0)?;
    }
    Ok(())
}

/// Puts the blocks, one after the other, behind the closed gate at this place and the blocks of the index, which has
/// room for them, and adds each to the index once it is sure. Spells each in this room.
pub fn put_all<D: Disk>(
    disk: &mut D,
    gate: &mut usize,
    blocks: &[Vec<u8>],
    index: &mut Index,
    room: &mut [u8],
) -> Result<(), DiskFailed>
    requires room { 0 < length blocks.now → block_size_limit + 37 ≤ length room.old }
    requires more { vec_len index.old.entries + length blocks.now ≤ vec_capacity index.old.entries }
    requires sizes { AllByRecursion IsLogBlock (lists_of blocks.now) }
    requires known { AllByRecursion IsLogBlock (blocks_in index.old) }
    requires entries { AreEntriesOf 0 (blocks_in index.old) index.old.entries.items }
    requires rest { D.reads disk.old ≡ at_rest (blocks_in index.old) }
    requires settled { D.moment disk.old ≡ settled (D.reads disk.old) }
    requires place { gate.old + 1 ≡ length (D.reads disk.old) }
    ensures goes { GoesOn (blocks_in index.old) (lists_of blocks.now) (blocks_in index.new) }
    ensures all { OnOk result (blocks_in index.new ≡ blocks_in index.old ++ lists_of blocks.now) }
    ensures none { blocks.now ≡ [] → IsOk result }
    ensures known { AllByRecursion IsLogBlock (blocks_in index.new) }
    ensures entries { AreEntriesOf 0 (blocks_in index.new) index.new.entries.items }
    ensures rest { OnOk result (D.reads disk.new ≡ at_rest (blocks_in index.new)) }
    ensures settled { OnOk result (D.moment disk.new ≡ settled (D.reads disk.new)) }
    ensures place { OnOk result (gate.new + 1 ≡ length (D.reads disk.new)) }
    ensures crash { LeavesSince (D.past disk.old) (D.past disk.new) (D.moment disk.new)
        (IsLogOf (length (blocks_in index.old)) (blocks_in index.old ++ lists_of blocks.now)) }
    ensures sure { Leaves (IsLogOf (length (blocks_in index.new)) (blocks_in index.old ++ lists_of blocks.now))
        (D.moment disk.new) }
    ensures failures { IsCounted (D.failures disk.old) (D.failures disk.new) result }
{
    for block in blocks {
        let digest = Sha256::digest(block);
        let place = *gate;
        *gate = put(disk, room, place, &digest, block)?;
        index.add(place, &digest, block);
    }
    Ok(())
}

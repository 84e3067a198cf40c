ghost use Rattle.std.specs.Prelude.{◌≡◌, IfOk, IfSome, Some};
ghost use Rattle.std.specs.List.{AllByRecursion};
ghost use Rattle.model.specs.Log.{IsLogBlock};
ghost use Rattle.immlog.specs.Views.{lists_of};
ghost use Rattle.immlog.specs.Numbered.{numbered};

use super::fake_file::FakeFile;
use super::fixture::{MEMORY, boxed, log_on};
use super::kept_disk::KeptDisk;
use file_disk::FileDisk;
use immlog::{Disk, DiskFailed, Log, LogBlocks, Nobody, OpenLogFault, ReadFault};
use std::alloc::Global;
use std::process::Abort;
use std::thread::Threads;

/// How many blocks are put on, one after the other.
const APPENDED: usize = 10;

/// The first of the calls by which a log is opened on a file: those before, of its disk, make sure what it holds and
/// read it.
const OPENING: u64 = 4;

/// A log on a file of no system.
type FileLog = Log<FileDisk<FakeFile>>;

fn two_blocks(rt: &(impl Abort + AllocGlobal)) -> Vec<Vec<u8>>
    ensures { AllByRecursion IsLogBlock (lists_of result.items) }
{
    let first = b"one".to_vec(rt.alloc()).expect(rt, MEMORY);
    let second = b"two".to_vec(rt.alloc()).expect(rt, MEMORY);
    let mut blocks = Vec::new(rt.alloc());
    blocks.push(first).expect(rt, MEMORY);
    blocks.push(second).expect(rt, MEMORY);
    blocks
}

/// What a program leaves that stopped while it put blocks onto a log: how many it told durable, and the file.
#[derive(Drop)]
struct Left {
    durable: usize,
    file: FakeFile,
}

/// What is left where a program that puts these blocks on, `times` times, stops at the failing call of this file. None
/// where it stops before there is a log.
fn left_on(alloc: Global, file: FakeFile, blocks: &[Vec<u8>], times: usize) -> Option<Left>
    requires { AllByRecursion IsLogBlock (lists_of blocks.now) }
{
    let disk = FileDisk::open(alloc, file).ok()?;
    let mut log = Log::create(alloc, disk).ok()?;
    for _ in 0..times {
        if log.append(blocks).is_err() {
            break;
        }
    }
    let durable = log.durable();
    let file = log.into_disk().into_file();
    Some(Left { durable, file })
}

/// How many blocks are opened of the log in this file, which is read anew, or why none are.
fn opened_on(
    rt: &(impl AllocGlobal + Threads + Sync),
    file: FakeFile,
) -> Result<usize, OpenLogFault> {
    let Ok(disk) = FileDisk::open(rt.alloc(), file) else {
        return Err(OpenLogFault::DiskFault);
    };
    match Log::open(rt, rt.alloc(), disk, &mut Nobody::new()) {
        Ok(log) => Ok(log.durable()),
        Err((fault, _disk)) => Err(fault),
    }
}

/// How many blocks were durable after two were put onto a log whose disk fails in the call after `calls` others, and
/// how many are opened then; None where no log was made or opened.
fn opened_after(
    rt: &(impl Abort + AllocGlobal + Threads + Sync),
    calls: u64,
) -> Option<(usize, usize)> {
    let blocks = two_blocks(rt);
    let left = left_on(rt.alloc(), FakeFile::new(rt.alloc(), calls), &blocks, 1)?;
    let Left { durable, file } = left;
    let opened = opened_on(rt, file).ok()?;
    Some((durable, opened))
}

#[test]
fn blocks_are_opened_again(rt: HostRuntime) {
    assert_eq!(rt; opened_after(&rt, 1000), Some((2, 2)));
}

#[test]
fn each_device_call_fails_once(rt: HostRuntime) {
    for calls in 0..100 {
        if let Some((durable, opened)) = opened_after(&rt, calls) {
            assert!(rt; durable <= opened, "after {calls} calls");
        }
    }
}

/// The log of two blocks that stands on this file.
fn log_of_two(rt: &(impl Abort + AllocGlobal), file: FakeFile) -> Box<FileLog> {
    let blocks = two_blocks(rt);
    let mut log = log_on(rt, file);
    assert!(rt; log.append(&blocks).is_ok());
    boxed(rt, log)
}

/// The log gives this for the number of a block.
fn gives(rt: &impl Abort, log: &mut FileLog, number: u64, want: Option<&[u8]>) {
    let found = log.block(number).expect(rt, "a read");
    assert!(rt; found.as_deref() == want, "block {number}");
}

// Blocks count from 1. They are read from the file again, also after it was written.
#[test]
fn blocks_are_read_again(rt: HostRuntime) {
    let mut log = log_of_two(&rt, FakeFile::new(rt.alloc(), u64::MAX));
    gives(&rt, &mut log, 0, None);
    gives(&rt, &mut log, 1, Some(b"one"));
    gives(&rt, &mut log, 2, Some(b"two"));
    gives(&rt, &mut log, 3, None);
    gives(&rt, &mut log, u64::MAX, None);
}

/// This block comes next.
fn comes_next(rt: &impl Abort, blocks: &mut LogBlocks<FileDisk<FakeFile>>, want: &[u8]) {
    let next = blocks.next().expect(rt, "a block");
    let found = next.expect(rt, "a read");
    assert!(rt; found.as_slice() == want);
}

// All blocks come in their order, and the log is there again then.
#[test]
fn blocks_one_after_the_other(rt: HostRuntime) {
    let log = Box::into_inner(log_of_two(&rt, FakeFile::new(rt.alloc(), u64::MAX)));
    let mut blocks = log.into_blocks();
    comes_next(&rt, &mut blocks, b"one");
    comes_next(&rt, &mut blocks, b"two");
    assert!(rt; blocks.next().is_none());
    assert!(rt; blocks.into_log().durable() == 2);
}

/// A disk on this file.
fn disk_on(rt: &(impl Abort + AllocGlobal), file: FakeFile) -> FileDisk<FakeFile> {
    FileDisk::open(rt.alloc(), file).expect(rt, "a disk")
}

// A file's disk tells what the file gave when it was opened, until it is changed; then it is opened anew to be read.
#[test]
fn reads_end_with_the_first_change(rt: HostRuntime) {
    let mut disk = disk_on(&rt, FakeFile::new(rt.alloc(), u64::MAX));
    let mut room = [0; 8];
    assert!(rt; disk.read(0, &mut room) == Ok(0));
    assert!(rt; disk.sync() == Ok(()));
    assert!(rt; disk.read(0, &mut room) == Ok(0));
    assert!(rt; disk.write_at(0, b"one") == Ok(()));
    assert!(rt; disk.read(0, &mut room) == Err(DiskFailed));
    assert!(rt; disk.sync() == Ok(()));
    let mut disk = disk_on(&rt, disk.into_file());
    assert!(rt; disk.read(1, &mut room) == Ok(2));
    assert!(rt; room == *b"ne\0\0\0\0\0\0");
}

fn one_block(rt: &(impl Abort + AllocGlobal)) -> Vec<Vec<u8>>
    ensures { AllByRecursion IsLogBlock (lists_of result.items) }
{
    let block = b"one".to_vec(rt.alloc()).expect(rt, MEMORY);
    let mut blocks = Vec::new(rt.alloc());
    blocks.push(block).expect(rt, MEMORY);
    blocks
}

/// What another program leaves that opens the log of this file, and stops at its failing call. None where it opens it.
fn left_again(rt: &(impl AllocGlobal + Threads + Sync), file: FakeFile) -> Option<FakeFile> {
    let disk = FileDisk::open(rt.alloc(), file).ok()?;
    match Log::open(rt, rt.alloc(), disk, &mut Nobody::new()) {
        Ok(_) => None,
        Err((_fault, disk)) => Some(disk.into_file()),
    }
}

/// Counts how many blocks more are opened than were told durable, after a second program stopped in whichever call of
/// its opening: none, one, or something else.
fn count_opened(
    rt: &(impl AllocGlobal + Threads + Sync),
    left: &Left,
    counts: &mut [u64; 3],
) -> Option<()> {
    for calls in OPENING..u64::MAX {
        let file = left.file.try_clone().ok()?;
        let Some(again) = left_again(rt, file.failing_after(calls)) else {
            break;
        };
        // No call fails any more.
        let opened = opened_on(rt, again.failing_after(u64::MAX)).ok()?;
        let more = opened.wrapping_sub(left.durable).min(2);
        counts[more] = counts[more].saturating_add(1);
    }
    Some(())
}

/// A file that fails in the call after `calls` others, with a torn write or not.
fn failing(alloc: Global, calls: u64, torn: bool) -> FakeFile {
    if torn {
        FakeFile::torn(alloc, calls)
    } else {
        FakeFile::new(alloc, calls)
    }
}

/// Counts this for each call of ten appends in which the first program stops, torn writes or not.
fn count_stops(
    rt: &(impl Abort + AllocGlobal + Threads + Sync),
    torn: bool,
    counts: &mut [u64; 3],
) {
    let block = one_block(rt);
    for calls in 0..100 {
        let file = failing(rt.alloc(), calls, torn);
        if let Some(left) = left_on(rt.alloc(), file, &block, APPENDED)
            && left.durable < APPENDED
        {
            if count_opened(rt, &left, counts).is_none() {
                counts[2] = counts[2].saturating_add(1);
            }
        }
    }
}

// An append makes six calls: a record and its gate are each sought, written and made sure. Whichever of them fails, no
// block is opened that wasn't told durable: where it is the last one, the gate is closed again, by two calls more,
// though the file then gives what it was told. An opening makes three: what the log holds is made sure, what stands
// behind its end is cut, and that is made sure.
#[test]
fn stops_in_ten_appends(rt: HostRuntime) {
    let mut counts = [0; 3];
    count_stops(&rt, false, &mut counts);
    assert!(rt; counts == [60 * 3, 0, 0]);
}

// The same where a write leaves half of its bytes. A gate whose write fails is then neither open nor closed, and an
// opening makes three calls more: that gate is sought, written and made sure.
#[test]
fn torn_writes_in_ten_appends(rt: HostRuntime) {
    let mut counts = [0; 3];
    count_stops(&rt, true, &mut counts);
    assert!(rt; counts == [50 * 3 + 10 * 6, 0, 0]);
}

/// One block of `size` bytes. None where a log takes none of that size.
fn block_of(alloc: Global, size: usize) -> Option<Vec<Vec<u8>>>
    ensures { IfSome result (λ blocks. AllByRecursion IsLogBlock (lists_of blocks.items)) }
{
    if size == 0 || size > 1_048_576 {
        return None;
    }
    let block = vec![in alloc; 7u8; size].ok()?;
    let mut blocks = Vec::new(alloc);
    blocks.push(block).ok()?;
    Some(blocks)
}

/// Puts a block of this size on.
fn put_on(rt: &(impl Abort + AllocGlobal), log: &mut FileLog, size: usize) {
    let block = block_of(rt.alloc(), size).expect(rt, "a block");
    assert!(rt; log.append(&block).is_ok());
}

/// A file with the log of blocks of these sizes.
fn file_of(rt: &(impl Abort + AllocGlobal), sizes: &[usize]) -> FakeFile {
    let mut log = log_on(rt, FakeFile::new(rt.alloc(), u64::MAX));
    for size in sizes {
        put_on(rt, &mut log, *size);
    }
    log.into_disk().into_file()
}

// An opening reads 4,194,304 bytes at a time: four of these records, and then two. Wherever a byte of a block is
// another one, the place is told where its record begins.
#[test]
fn a_spoilt_block_is_told_behind_any_others(rt: HostRuntime) {
    let file = file_of(&rt, &[1_000_000; 6]);
    for record in [0, 1, 3, 4, 5] {
        let place = record * 1_000_037;
        let copy = file.try_clone().expect(&rt, MEMORY);
        let opened = opened_on(&rt, copy.spoilt_at(place + 500_000));
        assert!(rt; opened == Err(OpenLogFault::Damaged(place)));
    }
    assert!(rt; opened_on(&rt, file) == Ok(6));
}

// The gate behind four records is the last byte that is read with them, or the first that is read next, or the fourth
// record ends one byte past what is read with the others.
#[test]
fn a_log_ends_where_a_read_does(rt: HostRuntime) {
    for last in [1_048_538, 1_048_539, 1_048_540] {
        let sizes = [1_048_539, 1_048_539, 1_048_539, last];
        let file = file_of(&rt, &sizes);
        assert_eq!(rt; opened_on(&rt, file), Ok(4), "the last of {last} bytes");
    }
}

// A file gives another byte of the first block than was written.
#[test]
fn a_changed_block_is_told_as_damaged(rt: HostRuntime) {
    let file = FakeFile::new(rt.alloc(), u64::MAX).spoilt_at(38);
    let mut log = log_of_two(&rt, file);
    let first = log.block(1);
    assert!(rt; matches!(&first, Err(ReadFault::Damaged(1))));
    gives(&rt, &mut log, 2, Some(b"two"));
    assert!(rt; !log.is_broken());
}

/// The block of this number, of a log on a disk that keeps what it holds: what is found is that block.
fn kept_block(log: &mut Log<KeptDisk>, number: u64) -> Result<Option<Vec<u8>>, ReadFault>
    ensures { IfOk result (λ found. IfSome found (λ bytes.
        numbered log.old.blocks number ≡ Some bytes.items)) }
{
    log.block(number)
}

#[test]
fn a_disk_that_keeps_gives_the_block(rt: HostRuntime) {
    let log = Box::into_inner(log_of_two(&rt, FakeFile::new(rt.alloc(), u64::MAX)));
    let disk = KeptDisk::new(log.into_disk().into_file().into_bytes());
    let Ok(mut log) = Log::open(&rt, rt.alloc(), disk, &mut Nobody::new()) else {
        panic!(rt; "a log");
    };
    let second = kept_block(&mut log, 2).expect(&rt, "a read");
    assert!(rt; second.as_deref() == Some(b"two".as_slice()));
}

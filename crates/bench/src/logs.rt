//! How long it takes to put blocks onto a log in a file, beside writes and syncs of that file alone, and to open a log
//! of a gigabyte, beside reading and hashing.

ghost use Rattle.std.specs.Prelude.{IfSome};
ghost use Rattle.std.specs.List.{AllByRecursion};
ghost use Rattle.immlog.specs.Views.{lists_of};
ghost use Rattle.model.specs.Log.{IsLogBlock};

use crate::timing::{Telling, nanos_if, now, print};
use file_disk::FileDisk;
use immlog::{Disk, Log, Nobody};
use sha2::{Digest, Sha256};
use std::alloc::Global;
use std::fs::{self, OpenFile, OpenOptions};
use std::io::{self, Read, Write};
use std::rt::{Clock, Files};
use std::thread::Threads;

/// The file, in the folder in which the program is run. It is removed in the end.
const PATH: &str = "bench.log";

/// The sizes of the blocks that are put on, in bytes, and how many there are of each.
const APPENDED: &[(usize, usize)] = &[
    (1_000, 1),
    (1_000, 10),
    (1_000, 1_000),
    (100_000, 1),
    (100_000, 10),
    (100_000, 1_000),
];

/// The size of the block that is put on again and again.
const APPENDED_ON: usize = 20_000;

/// How often a log is put together of the last of these, to be opened: it then has a gigabyte.
const OPENED: usize = 10;

/// The file, with nothing in it.
fn made<R: Files>(rt: &R) -> Option<R::File> {
    OpenOptions::new()
        .read(true)
        .write(true)
        .create(true)
        .truncate(true)
        .open(rt, PATH)
        .ok()
}

/// The file, with what is in it.
fn opened<R: Files>(rt: &R) -> Option<R::File> {
    OpenOptions::new()
        .read(true)
        .write(true)
        .open(rt, PATH)
        .ok()
}

/// `many` blocks of one size. None where a log takes none of that size.
#[tactic(auto, using(crate::proofs::LogBlocks::all_and_one))]
fn blocks_of(alloc: Global, many: usize, size: usize) -> Option<Vec<Vec<u8>>>
    ensures { IfSome result (λ blocks. AllByRecursion IsLogBlock (lists_of blocks.items)) }
{
    if size == 0 || size > 1_048_576 {
        return None;
    }
    let mut blocks = Vec::new(alloc);
    for n in 0..many {
        let block = vec![in alloc; (n % 256) as u8; size].ok()?;
        blocks.push(block).ok()?;
    }
    Some(blocks)
}

/// How long it takes to put the blocks onto a new log.
fn time_append<R: Files + AllocGlobal + Clock>(rt: &R, size: usize, many: usize) -> Option<u128> {
    let blocks = blocks_of(rt.alloc(), many, size)?;
    let disk = FileDisk::open(rt.alloc(), made(rt)?).ok()?;
    let mut log = Log::create(rt.alloc(), disk).ok()?;
    let start = now(rt);
    let done = log.append(&blocks).is_ok();
    nanos_if(rt, start, done)
}

/// Writes the bytes `many` times, each behind those before and made sure, and one byte behind them, made sure as well:
/// as many writes and syncs as a log makes for as many blocks.
fn write_each<F: Write + OpenFile>(file: &mut F, bytes: &[u8], many: usize) -> io::Result<()> {
    for _ in 0..many {
        file.write_all(bytes)?;
        file.sync_all()?;
        file.write_all(&[1])?;
        file.sync_all()?;
    }
    Ok(())
}

/// How long this takes.
fn time_writes<R: Files + AllocGlobal + Clock>(rt: &R, size: usize, many: usize) -> Option<u128> {
    let bytes = vec![in rt.alloc(); 7u8; size].ok()?;
    let mut file = made(rt)?;
    let start = now(rt);
    let done = write_each(&mut file, &bytes, many).is_ok();
    nanos_if(rt, start, done)
}

/// Puts blocks of a gigabyte together onto a new log. None where that can't be done.
fn fill<R: Files + AllocGlobal>(rt: &R) -> Option<()> {
    let blocks = blocks_of(rt.alloc(), 1_000, 100_000)?;
    let disk = FileDisk::open(rt.alloc(), made(rt)?).ok()?;
    let mut log = Log::create(rt.alloc(), disk).ok()?;
    for _ in 0..OPENED {
        log.append(&blocks).ok()?;
    }
    Some(())
}

/// How long it takes to open the log, which has `blocks` blocks.
fn time_open<R: Files + AllocGlobal + Clock + Threads + Sync>(
    rt: &R,
    blocks: usize,
) -> Option<u128> {
    let file = opened(rt)?;
    let start = now(rt);
    let disk = FileDisk::open(rt.alloc(), file).ok()?;
    let log = match Log::open(rt, rt.alloc(), disk, &mut Nobody::new()) {
        Ok(log) => log,
        Err(_) => return None,
    };
    nanos_if(rt, start, log.durable() == blocks)
}

/// How long it takes to read the file and to hash it, on one thread.
fn time_hash<R: Files + AllocGlobal + Clock>(rt: &R) -> Option<u128> {
    let mut file = opened(rt)?;
    let mut bytes = Vec::new(rt.alloc());
    let start = now(rt);
    let read = file.read_to_end(&mut bytes).is_ok();
    let digest: [u8; 32] = Sha256::digest(&bytes);
    nanos_if(rt, start, read & (digest[0] as usize + bytes.len() > 0))
}

/// The log of the file, which is made where it is missing or has no byte.
fn log_of<R: Files + AllocGlobal + Threads + Sync>(rt: &R) -> Option<Log<FileDisk<R::File>>> {
    let file = OpenOptions::new()
        .read(true)
        .write(true)
        .create(true)
        .open(rt, PATH)
        .ok()?;
    let disk = FileDisk::open(rt.alloc(), file).ok()?;
    if disk.is_empty() {
        return Log::create(rt.alloc(), disk).ok();
    }
    Log::open(rt, rt.alloc(), disk, &mut Nobody::new()).ok()
}

/// Puts these blocks onto the log again and again, and prints each time how many it then has.
fn append_on<R: Print, D: Disk>(rt: &R, log: &mut Log<D>, blocks: &[Vec<u8>]) -> io::Result<()>
    requires { AllByRecursion IsLogBlock (lists_of blocks.now) }
{
    for _ in 0..u64::MAX {
        if log.append(blocks).is_err() {
            return Err(io::ErrorKind::Other.into());
        }
        println!(rt; "durable {}", log.durable())?;
    }
    Ok(())
}

/// Opens the log, prints how many blocks it has, and puts blocks onto it until the program is killed. `.ci/kills` does
/// that.
pub fn append<R: Files + AllocGlobal + Print + Threads + Sync>(rt: &R) -> io::Result<()> {
    let Some(blocks) = blocks_of(rt.alloc(), 1, APPENDED_ON) else {
        return Err(io::ErrorKind::Other.into());
    };
    let Some(mut log) = log_of(rt) else {
        return Err(io::ErrorKind::Other.into());
    };
    println!(rt; "opened {}", log.durable())?;
    append_on(rt, &mut log, &blocks)
}

/// Prints what it takes to put the blocks on, and to write as much.
fn measure_appends<R: Files + AllocGlobal + Clock + Print>(rt: &R) -> io::Result<()> {
    for (size, many) in APPENDED {
        let (length, calls) = (*size as u64, *many as u64);
        let nanos = time_append(rt, *size, *many);
        print(
            rt,
            Telling::Times,
            "Log::append of blocks of",
            length,
            calls,
            nanos,
        )?;
        let nanos = time_writes(rt, *size, *many);
        print(
            rt,
            Telling::Times,
            "writes and syncs alone of",
            length,
            calls,
            nanos,
        )?;
    }
    Ok(())
}

/// Prints what it takes to open a log of a gigabyte, and to read and hash its file.
fn measure_opening<R: Files + AllocGlobal + Clock + Print + Threads + Sync>(
    rt: &R,
) -> io::Result<()> {
    let blocks = 1_000 * OPENED;
    if fill(rt).is_none() {
        return Err(io::ErrorKind::Other.into());
    }
    let nanos = time_open(rt, blocks);
    print(
        rt,
        Telling::Times,
        "Log::open of blocks",
        blocks as u64,
        1,
        nanos,
    )?;
    let nanos = time_hash(rt);
    print(
        rt,
        Telling::Times,
        "read and hashed, blocks",
        blocks as u64,
        1,
        nanos,
    )
}

/// Runs each measurement, and prints what it took a block, and of an opening in all.
pub fn measure<R: Files + AllocGlobal + Clock + Print + Threads + Sync>(rt: &R) -> io::Result<()> {
    measure_appends(rt)?;
    measure_opening(rt)?;
    fs::remove_file(rt, PATH)
}

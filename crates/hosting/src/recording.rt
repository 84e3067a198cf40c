//! Who writes down what a node counts, for whoever watches it.

use crate::floor::Floor;
use crate::news::Counts;
use chain_core::Census;
use metrics::{Figures, metrics_text};
use shared::{Caller, Room};
use std::alloc::{AllocError, Global};
use std::fs::File;
use std::io::{ErrorKind, Read};
use std::sync::Wait;
use std::time::Duration;
use std::{fs, io, thread};
use witness_pool::SigScheme;

/// How long it sleeps before the figures are written down again, in seconds.
const PAUSE: u64 = 1;

/// How each file of figures begins.
const SIGN: &[u8; 27] = b"# HELP chaindb_chain_height";

/// Where the figures are written: a file that is always whole, since another one takes its place.
#[derive(Debug, Drop)]
pub struct Record {
    /// The file that is read.
    path: String,
    /// The one that is written, and then renamed.
    next: String,
}

impl Record {
    /// In the file of this path. What is written stands beside it until it is whole, under the same name with `.next`
    /// behind it.
    pub fn at(alloc: Global, path: &str) -> Result<Record, AllocError> {
        let mut next = String::from_str(alloc, path)?;
        next.push_str(".next")?;
        Ok(Record {
            path: String::from_str(alloc, path)?,
            next,
        })
    }

    /// Puts this text in the place of what is there, which stays where it can't be written.
    fn put(&self, system: &HostRuntime, text: &[u8]) -> io::Result<()> {
        fs::write(system, &*self.next, text)?;
        fs::rename(system, &*self.next, &*self.path)
    }

    /// Writes these figures.
    fn write(&self, system: &HostRuntime, figures: &Figures) -> io::Result<()> {
        let text = metrics_text(system.alloc(), figures)?;
        self.put(system, &text)
    }
}

/// Whether the file of this path is empty, or one that figures were written to, whole or not.
fn is_of_figures(system: &HostRuntime, path: &str) -> bool {
    let Ok(mut file) = File::open(system, path) else {
        return false;
    };
    let mut begin = [0; SIGN.len()];
    match file.read(&mut begin) {
        Ok(many) => begin.get(..many) == SIGN.get(..many),
        Err(_) => false,
    }
}

/// Whether figures may be written to the file of this path: it is missing, or such a file.
fn is_free(system: &HostRuntime, path: &str) -> bool {
    match fs::symlink_metadata(system, path) {
        Ok(metadata) => metadata.file_type().is_file() && is_of_figures(system, path),
        Err(fault) => fault.kind() == ErrorKind::NotFound,
    }
}

/// Makes an empty file of this path for a node's figures, by way of the one under the same name with `.next` behind it,
/// which is written and then renamed, as each second from then on. Answers whether it could: not where either can't be
/// written, or is anything else than a file that is empty or that figures were written to. So neither a log nor any
/// other file is overwritten: where a log is to be made, make it before. Err where memory runs out.
pub fn begin_figures(system: &HostRuntime, path: &str) -> Result<bool, AllocError> {
    let record = Record::at(system.alloc(), path)?;
    let free = is_free(system, &record.path) && is_free(system, &record.next);
    Ok(free && record.put(system, b"").is_ok())
}

/// How many bytes of memory the process has, where the system tells it.
fn resident_bytes(system: &HostRuntime) -> Option<u64> {
    let text = fs::read_to_string(system, "/proc/self/status").ok()?;
    for line in text.lines() {
        if let Some(rest) = line.strip_prefix("VmRSS:") {
            let kilobytes = rest.split_whitespace().next()?.parse::<u64>().ok()?;
            return kilobytes.checked_mul(1_024);
        }
    }
    None
}

/// The figures of what a core holds and a node has counted.
fn figures_of(census: &Census, counts: &Counts, resident_bytes: Option<u64>) -> Figures {
    Figures {
        height: census.height,
        slot: census.slot,
        immutable: census.immutable,
        durable: counts.flushes.durable,
        kept_blocks: census.immutable.saturating_add(census.live),
        live: census.live,
        transactions: census.waiting,
        transaction_bytes: census.waiting_bytes,
        outputs: census.outputs,
        followers: census.followers,
        lanes: counts.clients,
        waiting_lanes: counts.waiting,
        peers: counts.peers,
        kept: counts.tally.kept,
        refused: counts.tally.refused,
        discarded: counts.discarded,
        flushes: counts.flushes.made,
        failed_flushes: counts.flushes.failed,
        flush_microseconds: counts.flushes.microseconds,
        last_flush_microseconds: counts.flushes.last,
        memory_refusals: counts.memory_refusals,
        resident_bytes,
    }
}

/// Writes down the figures of now.
fn write_now<S: SigScheme, B: Room, R: Wait>(
    rt: &R,
    floor: &Floor<S, B>,
    caller: &mut Caller<B>,
    record: &Record,
) -> io::Result<()> {
    let census = floor.shared.census(rt, caller);
    let counts = floor.news.counts(rt);
    let figures = figures_of(&census, &counts, resident_bytes(&floor.system));
    record.write(&floor.system, &figures)
}

/// Writes down the figures each second, until no flush comes any more. Those that can't be written are left out.
pub fn run_record<S: SigScheme, B: Room, R: Wait>(
    rt: &R,
    floor: &Floor<S, B>,
    mut caller: Caller<B>,
    record: &Record,
) {
    for _ in rt.forever() {
        if !floor.news.begin_record(rt) {
            return;
        }
        let _written = write_now(rt, floor, &mut caller, record);
        floor.news.end_record(rt);
        thread::sleep(&floor.system, Duration::from_secs(PAUSE));
    }
}

/// Writes down the figures of the end, once no flush comes any more.
pub fn record_last<S: SigScheme, B: Room, R: Wait>(
    rt: &R,
    floor: &Floor<S, B>,
    caller: &mut Caller<B>,
    record: &Record,
) {
    floor.news.wait_for_record(rt);
    let _written = write_now(rt, floor, caller, record);
}

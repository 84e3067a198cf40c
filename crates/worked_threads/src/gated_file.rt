//! A file whose first write waits until another thread was answered.

use super::fake_file::FakeFile;
use std::alloc::Global;
use std::fs::{Metadata, OpenFile};
use std::io::{Read, Seek, SeekFrom, Write};
use std::sync::Arc;
use std::sync::atomic::{AtomicBool, Ordering};
use std::{io, thread};

/// What a thread that writes and one that calls tell each other.
#[derive(Drop)]
pub struct Crossing {
    armed: AtomicBool,
    begun: AtomicBool,
    answered: AtomicBool,
    met: AtomicBool,
}

/// Waits until the flag stands, or a million turns have passed. Whether it stands.
fn wait_for(flag: &AtomicBool) -> bool {
    for _ in 0..1_000_000u32 {
        if flag.load(Ordering::SeqCst) {
            return true;
        }
        thread::yield_now();
    }
    false
}

impl Crossing {
    /// Nothing was told.
    pub fn new() -> Crossing {
        Crossing {
            armed: AtomicBool::new(false),
            begun: AtomicBool::new(false),
            answered: AtomicBool::new(false),
            met: AtomicBool::new(false),
        }
    }

    /// The next write is to wait.
    pub fn arm(&self) {
        self.armed.store(true, Ordering::SeqCst);
    }

    /// A write: the first one that is to wait does so until a call was answered that began after it.
    fn write_begins(&self) {
        if self.armed.swap(false, Ordering::SeqCst) {
            self.begun.store(true, Ordering::SeqCst);
            self.met.store(wait_for(&self.answered), Ordering::SeqCst);
        }
    }

    /// Waits until a write has begun. Whether one has.
    pub fn has_begun(&self) -> bool {
        wait_for(&self.begun)
    }

    /// A call was answered.
    pub fn answer(&self) {
        self.answered.store(true, Ordering::SeqCst);
    }

    /// Whether a write waited for a call, and that one was answered.
    pub fn has_met(&self) -> bool {
        self.met.load(Ordering::SeqCst)
    }
}

/// A file in memory that tells of its writes.
#[derive(Drop)]
pub struct GatedFile {
    pub file: FakeFile,
    pub crossing: Arc<Crossing, Global>,
}

impl Read for GatedFile {
    fn read(&mut self, buf: &mut [u8]) -> io::Result<usize> {
        self.file.read(buf)
    }
}

impl Write for GatedFile {
    fn write(&mut self, buf: &[u8]) -> io::Result<usize> {
        self.crossing.write_begins();
        self.file.write(buf)
    }

    fn flush(&mut self) -> io::Result<()> {
        self.file.flush()
    }
}

impl Seek for GatedFile {
    fn seek(&mut self, to: SeekFrom) -> io::Result<u64> {
        self.file.seek(to)
    }
}

impl OpenFile for GatedFile {
    fn metadata(&self) -> io::Result<Metadata> {
        self.file.metadata()
    }

    fn set_len(&self, size: u64) -> io::Result<()> {
        self.file.set_len(size)
    }

    fn sync_all(&self) -> io::Result<()> {
        self.file.sync_all()
    }

    fn sync_data(&self) -> io::Result<()> {
        self.file.sync_data()
    }
}

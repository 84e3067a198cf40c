//! A disk that is a file.

ghost use Rattle.std.specs.Prelude.{◌≡◌, ◌↔◌, ◌+◌, ◌<◌, ◌≤◌, ◌^◌, [], ◌∷◌, length, take, false, IfOk, IsTrue};
ghost use Rattle.std.specs.Option.{ForSome};
ghost use Rattle.model.specs.Disk.{MayLeave, IsWritten, settled, touched};
ghost use Rattle.file_disk.specs.Steps.{bytes_after, is_as_opened, moment_of, past_of, steps_of};

use crate::giving::{from_place, give};
use crate::step::Step;
use http_server::Log;
use immlog::{Disk, DiskFailed, fill, note_bytes};
use std::alloc::Global;
use std::fs::OpenFile;
use std::io;
use std::io::{Read, Seek, SeekFrom, Write};

/// The most bytes that a disk holds.
const MOST_BYTES: usize = 0x7fff_ffff_ffff_ffff;

/// A file as a disk. In memory it keeps what the file gave when it was opened until the first change, and nothing from
/// then on: no contract can say what a file of the system gives later, so each read then fails, and nothing is promised
/// of what [`Disk::fetch`] gives. Each change is noted in a list that only proofs read, which takes no memory; so no
/// call takes any. Once the system failed in a write, a cut or a sync it isn't known what the file holds: from then on
/// each call fails but [`Disk::put_back`]. [`FileDisk::into_file`] gives the file, on which a disk may be opened anew,
/// to be read or after a failure. That the file holds what was written, and that after a sync that succeeds a crash
/// leaves it, is trusted of the system.
#[derive(Drop)]
pub struct FileDisk<F: Read + Write + Seek + OpenFile + Drop> {
    file: F,
    held: Option<Vec<u8>>,
    len: usize,
    steps: Log<Step, ()>,
    failures: u64,
    has_failed: bool,
    ghost as_opened: { ForSome held (λ bytes. IsTrue (is_as_opened (steps_of steps.items))) },
    ghost same: { ForSome held (λ bytes. bytes.items ≡ bytes_after (steps_of steps.items)) },
    ghost long: { len ≡ length (bytes_after (steps_of steps.items)) },
    ghost left: { MayLeave (moment_of (steps_of steps.items)) (bytes_after (steps_of steps.items)) },
    ghost small: { length (bytes_after (steps_of steps.items)) < 2 ^ 63 },
}

/// All that the file gives, from its first byte on.
fn read_file<F: Read + Seek>(alloc: Global, file: &mut F) -> io::Result<Vec<u8>> {
    let mut bytes = Vec::new(alloc);
    file.seek(SeekFrom::Start(0))?;
    file.read_to_end(&mut bytes)?;
    Ok(bytes)
}

/// Writes the bytes from a place of the file on.
fn write_file<F: Write + Seek>(file: &mut F, place: usize, bytes: &[u8]) -> io::Result<()> {
    file.seek(SeekFrom::Start(place as u64))?;
    file.write_all(bytes)?;
    file.flush()
}

/// Reads what the file has from a place on, and answers how many bytes that were.
fn fetch_file<F: Read + Seek>(file: &mut F, place: usize, into: &mut [u8]) -> io::Result<usize>
    ensures { IfOk result (λ count. count ≤ length into.old) }
{
    file.seek(SeekFrom::Start(place as u64))?;
    fill(file, into)
}

impl<F: Read + Write + Seek + OpenFile + Drop> FileDisk<F> {
    /// The disk that this file is, which can be read and written. What it holds is made sure, and then read, once. Err
    /// where the system or memory fails. Takes memory for its bytes, which goes at the first change.
    pub fn open(alloc: Global, file: F) -> io::Result<FileDisk<F>>
        // What a read gives is sure.
        ensures { IfOk result (λ disk.
            moment_of (steps_of disk.steps.items) ≡ settled (bytes_after (steps_of disk.steps.items))) }
    {
        let mut file = file;
        file.sync_all()?;
        let bytes = read_file(alloc, &mut file)?;
        if bytes.len() > MOST_BYTES {
            return Err(io::ErrorKind::Other.into());
        }
        let steps = Log::new().and(&Step::Written(0, note_bytes(&bytes)), &());
        Ok(FileDisk {
            file,
            len: bytes.len(),
            held: Some(bytes),
            steps: steps.and(&Step::Synced, &()),
            failures: 0,
            has_failed: false,
        })
    }

    /// The file, on which a disk may be opened anew, also after a failure. Touches nothing.
    pub fn into_file(self) -> F
        ensures { result ≡ self.file }
    {
        let FileDisk {
            file,
            held: _,
            len: _,
            steps: _,
            failures: _,
            has_failed: _,
        } = self;
        file
    }

    /// Whether it holds no byte.
    pub fn is_empty(&self) -> bool
        ensures { IsTrue result ↔ (bytes_after (steps_of self.now.steps.items) ≡ []) }
    {
        self.len == 0
    }

    /// Notes that these bytes are written from a place on. What the file gave isn't kept any more.
    fn note_write(&mut self, place: usize, bytes: &[u8])
        requires place { place ≤ length (bytes_after (steps_of self.old.steps.items)) }
        requires small { place + length bytes.now < 2 ^ 63 }
        ensures written { IsWritten (bytes_after (steps_of self.old.steps.items)) place bytes.now
            (bytes_after (steps_of self.new.steps.items)) }
        ensures moment { moment_of (steps_of self.new.steps.items)
            ≡ touched place (place + length bytes.now) (moment_of (steps_of self.old.steps.items)) }
        ensures past { past_of (steps_of self.new.steps.items)
            ≡ moment_of (steps_of self.old.steps.items) ∷ past_of (steps_of self.old.steps.items) }
        ensures failures { self.new.failures ≡ self.old.failures }
    {
        self.held = None;
        self.len = self.len.max(place + bytes.len());
        self.steps = self
            .steps
            .and(&Step::Written(place, note_bytes(bytes)), &());
    }

    /// Notes that the file is cut to this length. What the file gave isn't kept any more.
    fn note_cut(&mut self, len: usize)
        requires { len ≤ length (bytes_after (steps_of self.old.steps.items)) }
        ensures cut { bytes_after (steps_of self.new.steps.items)
            ≡ take len (bytes_after (steps_of self.old.steps.items)) }
        ensures moment { moment_of (steps_of self.new.steps.items)
            ≡ touched len (length (bytes_after (steps_of self.old.steps.items)))
            (moment_of (steps_of self.old.steps.items)) }
        ensures past { past_of (steps_of self.new.steps.items)
            ≡ moment_of (steps_of self.old.steps.items) ∷ past_of (steps_of self.old.steps.items) }
        ensures failures { self.new.failures ≡ self.old.failures }
    {
        self.held = None;
        self.len = len;
        self.steps = self.steps.and(&Step::Cut(len), &());
    }
}

#[tactic(auto, unfolding(model::specs::Disk::one_more))]
impl<F: Read + Write + Seek + OpenFile + Drop> Disk for FileDisk<F> {
    ghost reads = { λ d. bytes_after (steps_of d.steps.items) };

    ghost moment = { λ d. moment_of (steps_of d.steps.items) };

    ghost past = { λ d. past_of (steps_of d.steps.items) };

    ghost failures = { λ d. d.failures };

    ghost keeps = { false };

    ghost read_is_left = { λ d. d.left };

    ghost fits = { λ d. d.small };

    fn read(&mut self, place: usize, into: &mut [u8]) -> Result<usize, DiskFailed> {
        if !self.has_failed
            && let Some(bytes) = &self.held
        {
            return Ok(give(from_place(bytes, place), into));
        }
        self.failures = self.failures.wrapping_add(1);
        Err(DiskFailed)
    }

    fn fetch(&mut self, place: usize, into: &mut [u8]) -> Result<usize, DiskFailed> {
        if !self.has_failed
            && let Ok(count) = fetch_file(&mut self.file, place, into)
        {
            return Ok(count);
        }
        self.failures = self.failures.wrapping_add(1);
        Err(DiskFailed)
    }

    fn write_at(&mut self, place: usize, bytes: &[u8]) -> Result<(), DiskFailed> {
        if self.has_failed || bytes.len() > MOST_BYTES - place {
            self.failures = self.failures.wrapping_add(1);
            return Err(DiskFailed);
        }
        self.note_write(place, bytes);
        if write_file(&mut self.file, place, bytes).is_err() {
            self.has_failed = true;
            self.failures = self.failures.wrapping_add(1);
            return Err(DiskFailed);
        }
        Ok(())
    }

    fn put_back(&mut self, place: usize, bytes: &[u8]) {
        if bytes.len() <= MOST_BYTES - place {
            self.note_write(place, bytes);
            let _ = write_file(&mut self.file, place, bytes);
        }
    }

    fn cut(&mut self, len: usize) -> Result<(), DiskFailed> {
        if self.has_failed {
            self.failures = self.failures.wrapping_add(1);
            return Err(DiskFailed);
        }
        self.note_cut(len);
        if self.file.set_len(len as u64).is_err() {
            self.has_failed = true;
            self.failures = self.failures.wrapping_add(1);
            return Err(DiskFailed);
        }
        Ok(())
    }

    fn sync(&mut self) -> Result<(), DiskFailed> {
        if self.has_failed {
            self.failures = self.failures.wrapping_add(1);
            return Err(DiskFailed);
        }
        if self.file.sync_all().is_err() {
            self.has_failed = true;
            self.failures = self.failures.wrapping_add(1);
            return Err(DiskFailed);
        }
        self.steps = self.steps.and(&Step::Synced, &());
        Ok(())
    }
}

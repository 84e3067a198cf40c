//! A file of no system.

use std::alloc::{AllocError, Global};
use std::cell::Cell;
use std::fs::{Metadata, OpenFile};
use std::io;
use std::io::{Read, Seek, SeekFrom, Write};

/// What a torn write of one byte leaves: half of a byte there isn't, but another byte.
const TORN: u8 = 2;

/// A file in memory. Of the calls on it, those for its size and `flush` aside, one that is chosen fails; a write that
/// does puts no byte there, or half of its bytes.
#[derive(Drop)]
pub struct FakeFile {
    bytes: Vec<u8>,
    /// How many of the bytes it has.
    len: Cell<usize>,
    place: usize,
    calls_left: Cell<u64>,
    is_torn: bool,
    /// Where a read gives another byte than is there.
    spoilt: Option<usize>,
}

impl FakeFile {
    /// One without a byte, which fails in the call after `calls` others.
    pub fn new(alloc: Global, calls: u64) -> FakeFile {
        FakeFile {
            bytes: Vec::new(alloc),
            len: Cell::new(0),
            place: 0,
            calls_left: Cell::new(calls),
            is_torn: false,
            spoilt: None,
        }
    }

    /// The same, of which a write that fails puts half of its bytes there, or 2 in place of one byte.
    pub fn torn(alloc: Global, calls: u64) -> FakeFile {
        FakeFile {
            is_torn: true,
            ..FakeFile::new(alloc, calls)
        }
    }

    /// The same file, which fails in the call after `calls` others.
    pub fn failing_after(self, calls: u64) -> FakeFile {
        FakeFile {
            calls_left: Cell::new(calls),
            ..self
        }
    }

    /// The same file, of which a read gives another byte at this place than was written there.
    pub fn spoilt_at(self, place: usize) -> FakeFile {
        FakeFile {
            spoilt: Some(place),
            ..self
        }
    }

    /// What it has.
    pub fn into_bytes(self) -> Vec<u8> {
        let FakeFile {
            bytes,
            len: _,
            place: _,
            calls_left: _,
            is_torn: _,
            spoilt: _,
        } = self;
        bytes
    }

    /// Another file of the same bytes.
    pub fn try_clone(&self) -> Result<FakeFile, AllocError> {
        Ok(FakeFile {
            bytes: self.bytes.clone()?,
            len: Cell::new(self.len.get()),
            place: self.place,
            calls_left: Cell::new(self.calls_left.get()),
            is_torn: self.is_torn,
            spoilt: self.spoilt,
        })
    }

    /// Whether this call works.
    fn works(&self) -> io::Result<()> {
        let left = self.calls_left.get();
        self.calls_left.set(left.wrapping_sub(1));
        if left == 0 {
            return Err(io::ErrorKind::Other.into());
        }
        Ok(())
    }

    /// Puts a byte at the place, or behind the others.
    fn put(&mut self, byte: u8) -> io::Result<()> {
        if self.place < self.bytes.len() {
            self.bytes[self.place] = byte;
        } else {
            self.bytes.push(byte)?;
        }
        self.place = self.place.saturating_add(1);
        Ok(())
    }

    /// Puts the bytes there.
    fn put_all(&mut self, bytes: &[u8]) -> io::Result<()> {
        self.bytes.truncate(self.len.get());
        for byte in bytes {
            self.put(*byte)?;
        }
        self.len.set(self.bytes.len());
        Ok(())
    }

    /// Puts there what a torn write of these bytes leaves.
    fn put_torn(&mut self, bytes: &[u8]) -> io::Result<()> {
        if bytes.len() == 1 {
            return self.put_all(&[TORN]);
        }
        self.put_all(&bytes[..bytes.len() / 2])
    }
}

impl Read for FakeFile {
    fn read(&mut self, buf: &mut [u8]) -> io::Result<usize> {
        self.works()?;
        self.bytes.truncate(self.len.get());
        let from = self.place.min(self.bytes.len());
        let count = buf.len().min(self.bytes.len() - from);
        buf[..count].copy_from_slice(&self.bytes[from..from + count]);
        if let Some(place) = self.spoilt
            && from <= place
            && place - from < count
        {
            buf[place - from] ^= 1;
        }
        self.place = from + count;
        Ok(count)
    }
}

impl Write for FakeFile {
    fn write(&mut self, buf: &[u8]) -> io::Result<usize> {
        if let Err(error) = self.works() {
            if self.is_torn {
                self.put_torn(buf)?;
            }
            return Err(error);
        }
        self.put_all(buf)?;
        Ok(buf.len())
    }

    fn flush(&mut self) -> io::Result<()> {
        Ok(())
    }
}

impl Seek for FakeFile {
    fn seek(&mut self, to: SeekFrom) -> io::Result<u64> {
        self.works()?;
        match to {
            SeekFrom::Start(place) => {
                self.place = place as usize;
                Ok(place)
            }
            _ => Err(io::ErrorKind::Unsupported.into()),
        }
    }
}

impl OpenFile for FakeFile {
    fn metadata(&self) -> io::Result<Metadata> {
        Ok(Metadata::of_file(self.len.get() as u64))
    }

    fn set_len(&self, size: u64) -> io::Result<()> {
        self.works()?;
        self.len.set((size as usize).min(self.len.get()));
        Ok(())
    }

    fn sync_all(&self) -> io::Result<()> {
        self.works()
    }

    fn sync_data(&self) -> io::Result<()> {
        self.works()
    }
}

//! A reader that keeps what it reads.

use std::alloc::Global;
use std::io::{Read, Result};

/// A reader, and what was read from it, where that is asked for and there is memory for it.
#[derive(Drop)]
pub struct Recorded<R> {
    reader: R,
    kept: Option<Vec<u8>>,
}

impl<R> Recorded<R> {
    /// Nothing was read so far.
    pub fn new(alloc: Global, reader: R, is_kept: bool) -> Recorded<R> {
        let kept = if is_kept { Some(Vec::new(alloc)) } else { None };
        Recorded { reader, kept }
    }

    /// What was read so far.
    pub fn kept(&self) -> Option<&[u8]> {
        match &self.kept {
            Some(kept) => Some(kept.as_slice()),
            None => None,
        }
    }
}

impl<R: Read> Read for Recorded<R> {
    fn read(&mut self, buf: &mut [u8]) -> Result<usize> {
        let size = self.reader.read(buf)?;
        if let Some(kept) = &mut self.kept {
            let (read, _) = buf.split_at(size.min(buf.len()));
            if kept.extend_from_slice(read).is_err() {
                self.kept = None;
            }
        }
        Ok(size)
    }
}

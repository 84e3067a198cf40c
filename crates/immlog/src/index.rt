//! What a log keeps in memory of the blocks on its disk.

ghost use Rattle.std.specs.Prelude.{◌≡◌, ◌+◌, ◌<◌, ◌≤◌, [], ◌∷◌, ◌++◌, None, length, slice_get, MatchOption};
ghost use Rattle.std.specs.Prelude.{OnOk, OnErr, vec_len, vec_capacity};
ghost use Rattle.model.specs.Log.{records};
ghost use Rattle.immlog.specs.Index.{AreEntriesOf, IsBeginOf, blocks_in};
ghost use Rattle.immlog.specs.Numbered.{IsSpan, numbered};

use crate::blocks::Blocks;
use crate::records::BEFORE_BLOCK;
use std::alloc::{AllocError, Global};

/// Where the record of a block begins on the disk, and the SHA-256 (FIPS 180-4) of the block.
#[derive(Clone, Copy, Debug)]
pub struct IndexEntry {
    pub place: usize,
    pub digest: [u8; 32],
}

/// Where a block stands on the disk, and its SHA-256.
#[derive(Clone, Copy, Debug)]
pub struct Span {
    /// The place of its first byte.
    pub place: usize,
    /// How many bytes it has.
    pub len: usize,
    pub digest: [u8; 32],
}

/// The index of a log: 40 bytes for each block.
#[derive(Drop)]
pub struct Index {
    /// The blocks, which only proofs read: they take no memory.
    blocks: Blocks,
    entries: Vec<IndexEntry>,
}

impl Index {
    /// An index of no block. Takes no memory.
    pub fn new(alloc: Global) -> Index
        ensures blocks { blocks_in result ≡ [] }
        ensures entries { result.entries.items ≡ [] }
    {
        Index {
            blocks: Blocks::new(),
            entries: Vec::new(alloc),
        }
    }

    /// How many blocks there are.
    pub fn len(&self) -> usize
        ensures { result ≡ vec_len self.now.entries }
    {
        self.entries.len()
    }

    /// The entry of a block, counted from 0.
    fn entry(&self, at: usize) -> Option<IndexEntry>
        ensures { result ≡ slice_get self.now.entries.items at }
    {
        self.entries.get(at).copied()
    }

    /// Where the record of this entry begins, or where all records end.
    fn begin_of(&self, at: usize, end: usize) -> usize
        ensures { IsBeginOf self.now.entries.items at end result }
    {
        match self.entry(at) {
            Some(entry) => entry.place,
            None => end,
        }
    }

    /// Where the block of this number, counted from 1, stands in a log whose records end at this place.
    pub fn span(&self, number: u64, end: usize) -> Option<Span>
        requires entries { AreEntriesOf 0 (blocks_in self.now) self.now.entries.items }
        requires end { end ≡ length (records (blocks_in self.now)) }
        ensures { MatchOption result (numbered (blocks_in self.now) number ≡ None)
            (IsSpan (blocks_in self.now) number) }
    {
        let at = number.checked_sub(1)? as usize;
        let entry = self.entry(at)?;
        let next = self.begin_of(at + 1, end);
        Some(Span {
            place: entry.place + BEFORE_BLOCK,
            len: next - entry.place - BEFORE_BLOCK,
            digest: entry.digest,
        })
    }

    /// Makes room for this many more blocks.
    pub fn reserve(&mut self, more: usize) -> Result<(), AllocError>
        ensures blocks { blocks_in self.new ≡ blocks_in self.old }
        ensures entries { self.new.entries.items ≡ self.old.entries.items }
        ensures room { OnOk result (vec_len self.new.entries + more ≤ vec_capacity self.new.entries) }
    {
        self.entries.reserve(more)?;
        Ok(())
    }

    /// Adds a block, whose record begins at this place. Err where there is no memory: nothing changes.
    pub fn push(&mut self, place: usize, digest: &[u8; 32], block: &[u8]) -> Result<(), AllocError>
        ensures blocks { OnOk result (blocks_in self.new ≡ blocks_in self.old ++ block.now ∷ []) }
        ensures entries { OnOk result (self.new.entries.items
            ≡ self.old.entries.items ++ record { place = place; digest = digest.now } ∷ []) }
        ensures same { OnErr result ((blocks_in self.new ≡ blocks_in self.old)
            × (self.new.entries.items ≡ self.old.entries.items)) }
    {
        let digest = *digest;
        self.entries.push(IndexEntry { place, digest })?;
        self.blocks.add(block);
        Ok(())
    }

    /// Adds a block, whose record begins at this place, where there is room.
    pub fn add(&mut self, place: usize, digest: &[u8; 32], block: &[u8])
        requires { vec_len self.old.entries < vec_capacity self.old.entries }
        ensures blocks { blocks_in self.new ≡ blocks_in self.old ++ block.now ∷ [] }
        ensures entries { self.new.entries.items
            ≡ self.old.entries.items ++ record { place = place; digest = digest.now } ∷ [] }
        ensures len { vec_len self.new.entries ≡ vec_len self.old.entries + 1 }
        ensures capacity { vec_capacity self.new.entries ≡ vec_capacity self.old.entries }
    {
        self.blocks.add(block);
        self.entries.push_reserved(IndexEntry {
            place,
            digest: *digest,
        });
    }
}

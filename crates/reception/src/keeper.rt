//! Who keeps places free among the live blocks.

use block::MAX_BLOCK_SIZE;
use genesis::Genesis;
use ident::BlockHash;
use shared::{Caller, Room, Shared};
use std::alloc::{AllocError, Global};
use std::sync::Wait;
use witness_pool::SigScheme;

/// What is done where a block arrives that has no place among the live ones.
#[derive(Clone, Copy, Debug, Drop, PartialEq, Eq)]
pub enum WhenFull {
    /// Nothing: it is refused as VolatileFull.
    Refuse,
    /// Blocks that no way leads to are discarded, those furthest from the tip first, until a tenth of what may be live
    /// is free, or none is left.
    Discard,
}

/// Which part of what may be live is to be free: a tenth.
const PART: u64 = 10;

/// How many blocks are looked for at once that no way leads to.
const AT_ONCE: usize = 1_000;

/// How much may be live, so that a tenth of it is free.
#[derive(Clone, Copy, Debug)]
pub struct Places {
    /// How many blocks are then live at most.
    blocks: u64,
    /// A block of how many bytes then has a place.
    bytes: usize,
}

impl Places {
    /// Within the limits of this genesis.
    pub fn of(genesis: &Genesis) -> Places {
        let blocks = genesis.max_volatile();
        let bytes = match genesis.max_volatile_bytes() {
            Some(most) => most.div_ceil(PART),
            None => 0,
        };
        Places {
            blocks: blocks.saturating_sub(blocks.div_ceil(PART)),
            bytes: bytes as usize,
        }
    }
}

/// Discards blocks that no way leads to, by calls of its own.
#[derive(Drop)]
pub struct Keeper<B: Room> {
    caller: Caller<B>,
    places: Places,
    discarded: u64,
}

impl<B: Room> Keeper<B> {
    /// One who calls as this caller.
    pub fn new(caller: Caller<B>, places: Places) -> Keeper<B> {
        Keeper {
            caller,
            places,
            discarded: 0,
        }
    }

    /// How many blocks it discarded.
    pub fn discarded(&self) -> u64 {
        self.discarded
    }

    /// How many blocks the selected chain has. Waits for nothing.
    pub fn height<S: SigScheme>(&mut self, shared: &Shared<S, B>) -> u64 {
        shared.height(&mut self.caller)
    }

    /// Whether a tenth of what may be live is free.
    fn has_places<S: SigScheme, R: Wait>(&mut self, rt: &R, shared: &Shared<S, B>) -> bool {
        shared.live_blocks(rt, &mut self.caller) <= self.places.blocks
            && !shared.is_full_for(rt, &mut self.caller, self.places.bytes)
    }

    /// Discards these blocks, one after the other, until a tenth is free.
    fn discard_some<S: SigScheme, R: Wait>(
        &mut self,
        rt: &R,
        shared: &Shared<S, B>,
        hashes: &[BlockHash],
    ) {
        for hash in hashes {
            if self.has_places(rt, shared) {
                return;
            }
            if shared.discard(rt, &mut self.caller, *hash).is_ok() {
                self.discarded = self.discarded.saturating_add(1);
            }
        }
    }

    /// Discards the blocks furthest from the tip that no way leads to, until a tenth is free or none is left. Err where
    /// memory runs out for their hashes. Each call that it makes waits for the lock by itself.
    fn free_places<S: SigScheme, R: Wait>(
        &mut self,
        rt: &R,
        alloc: Global,
        shared: &Shared<S, B>,
    ) -> Result<(), AllocError> {
        for _ in rt.forever() {
            if self.has_places(rt, shared) {
                return Ok(());
            }
            let hashes = shared.unconnected(rt, &mut self.caller, alloc, AT_ONCE)?;
            if hashes.is_empty() {
                return Ok(());
            }
            self.discard_some(rt, shared, &hashes);
        }
        unreachable!()
    }

    /// Where a block of this size has no place, makes places free. What is too large for a block is refused anyway.
    pub fn make_place<S: SigScheme, R: Wait>(
        &mut self,
        rt: &R,
        alloc: Global,
        shared: &Shared<S, B>,
        size: usize,
    ) -> Result<(), AllocError> {
        if size <= MAX_BLOCK_SIZE && shared.is_full_for(rt, &mut self.caller, size) {
            self.free_places(rt, alloc, shared)
        } else {
            Ok(())
        }
    }
}

//! The records at the front of bytes, by the lengths that they tell, and the digests of their blocks.

ghost use Rattle.std.specs.Prelude.{◌≡◌, [], ◌∷◌, MatchOption, IfOk};
ghost use Rattle.sha2.specs.Sha256.{sha256};
ghost use Rattle.immlog.specs.Frames.{NoRecordHere};
ghost use Rattle.immlog.specs.Framed.{block_digests, AreFrames, AreFirstFrames, IsSoundCount};

use crate::put::OPEN;
use crate::records::{BEFORE_BLOCK, first_frame, is_same};
use rayon::prelude::*;
use sha2::{Digest, Sha256};
use std::alloc::{AllocError, Global};
use std::thread::Threads;

/// How many records are found at once, at most: those of larger blocks than 219 bytes fill the room before.
const MOST_FRAMES: usize = 16_384;

/// A record by the length that it tells: whether its digest is that of its block isn't looked at.
#[derive(Clone, Copy)]
pub struct Frame<'a> {
    pub digest: &'a [u8; 32],
    pub block: &'a [u8],
}

/// The record that the bytes begin with, if they begin with one by the length that it tells, and what follows it.
fn front_frame(bytes: &[u8]) -> Option<(Frame<'_>, &[u8])>
    ensures { MatchOption result (NoRecordHere bytes.now)
        (λ found. AreFrames bytes.now (found.0 ∷ []) found.1.now) }
{
    let (gate, behind) = bytes.split_first()?;
    if *gate != OPEN {
        return None;
    }
    let (digest, block) = first_frame(behind)?;
    let rest = &bytes[BEFORE_BLOCK + block.len()..];
    Some((Frame { digest, block }, rest))
}

/// The records that stand whole at the front of the bytes, one after the other, up to the most that are found at once.
pub fn first_frames<'a>(alloc: Global, bytes: &'a [u8]) -> Result<Vec<Frame<'a>>, AllocError>
    ensures { IfOk result (λ frames. AreFirstFrames bytes.now frames.items) }
{
    let mut frames = Vec::new(alloc);
    let mut rest = bytes;
    while frames.len() < MOST_FRAMES {
        let Some((frame, more)) = front_frame(rest) else {
            return Ok(frames);
        };
        frames.push(frame)?;
        rest = more;
    }
    Ok(frames)
}

/// The digest of the block of each record. Threads share the blocks, up to two for each processor and at most 64; where
/// there is one block, none is started.
pub fn digests_of<R: Threads + Sync>(
    rt: &R,
    alloc: Global,
    frames: &[Frame<'_>],
) -> Result<Vec<[u8; 32]>, AllocError>
    ensures { IfOk result (λ digests. digests.items ≡ block_digests frames.now) }
{
    frames
        .par_iter()
        // A block may be a megabyte: one is worth a thread of its own.
        .with_min_len(1)
        .map(
            |frame: &Frame<'_>| -> [u8; 32]
                ensures { result ≡ sha256 frame.now.block.now }
            { Sha256::digest(frame.block) },
        )
        .collect(rt, alloc)
}

/// How many of the first records tell the digest that their block has.
pub fn count_sound(frames: &[Frame<'_>], digests: &[[u8; 32]]) -> usize
    requires { digests.now ≡ block_digests frames.now }
    ensures { IsSoundCount frames.now result }
{
    for (n, frame) in frames.iter().enumerate() {
        if !is_same(frame.digest, &digests[n]) {
            return n;
        }
    }
    frames.len()
}

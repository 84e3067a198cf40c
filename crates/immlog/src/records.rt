//! Records, read from bytes.

ghost use Rattle.std.specs.Prelude.{◌≡◌, ◌↔◌, ◌<◌, ◌≤◌, ℕ};
ghost use Rattle.std.specs.Prelude.{IsTrue, MatchOption};
ghost use Rattle.model.specs.Limits.{block_size_limit};
ghost use Rattle.immlog.specs.Frames.{BeginsWithFrame, BeginsWithRecord, NoRecordBehind};

use sha2::{Digest, Sha256};

/// How many bytes a block has at most.
const MAX_BLOCK: usize = 1_048_576;

/// How many bytes of a record stand before its block: the gate, the length of the block and its digest.
pub const BEFORE_BLOCK: usize = 37;

/// Whether a block may have `len` bytes.
pub fn is_block_size(len: usize) -> bool
    ensures { IsTrue result ↔ ((0 < len) × (len ≤ block_size_limit)) }
{
    0 < len && len <= MAX_BLOCK
}

/// Whether two digests are the same.
pub fn is_same(one: &[u8; 32], other: &[u8; 32]) -> bool
    ensures { IsTrue result ↔ (one.now ≡ other.now) }
{
    *one == *other
}

/// The digest and the block of the record whose gate stands before these bytes, if one begins there by the length that
/// it tells. Whether the digest is that of the block isn't looked at.
pub fn first_frame(bytes: &[u8]) -> Option<(&[u8; 32], &[u8])>
    ensures { MatchOption result (NoRecordBehind bytes.now)
        (λ frame. BeginsWithFrame frame.0.now frame.1.now bytes.now) }
{
    let (size, rest) = bytes.split_first_chunk::<4>()?;
    let (digest, rest) = rest.split_first_chunk::<32>()?;
    let (block, _) = rest.split_at_checked(u32::from_be_bytes(*size) as usize)?;
    if is_block_size(block.len()) {
        Some((digest, block))
    } else {
        None
    }
}

/// The digest and the block of the record whose gate stands before these bytes, if one begins there.
pub fn first_record(bytes: &[u8]) -> Option<(&[u8; 32], &[u8])>
    ensures { MatchOption result (NoRecordBehind bytes.now)
        (λ frame. BeginsWithRecord frame.0.now frame.1.now bytes.now) }
{
    let (digest, block) = first_frame(bytes)?;
    if is_same(digest, &Sha256::digest(block)) {
        Some((digest, block))
    } else {
        None
    }
}

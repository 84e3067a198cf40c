//! A block that is read again.

ghost use Rattle.std.specs.Prelude.{◌≡◌, ℕ, List, true, length, IfOk, IfSome, IsErrOf};
ghost use Rattle.sha2.specs.Sha256.{sha256};
ghost use Rattle.model.specs.Disk.{one_more};
ghost use Rattle.immlog.specs.Fetched.{IsThere, IsFetched};

use crate::disk::Disk;
use crate::index::Span;
use crate::records::is_same;
use crate::recover::room_for;
use sha2::{Digest, Sha256};
use std::alloc::Global;

/// Why nothing is read where a block stands.
pub enum FetchFault {
    /// The disk failed in this call.
    DiskFault,
    /// Memory ran out for the block.
    OutOfMemory,
}

/// What the disk gives where a block stands, if it has the digest of that block.
pub fn fetch_block<D: Disk>(
    alloc: Global,
    disk: &mut D,
    span: &Span,
) -> Result<Option<Vec<u8>>, FetchFault>
    ensures like { IfOk result (λ found. IfSome found (λ bytes.
        (length bytes.items ≡ span.now.len) × (sha256 bytes.items ≡ span.now.digest))) }
    // Of a disk that keeps what it holds it is the block.
    ensures exact { (block : List ℕ) → D.keeps ≡ true → IsThere (D.reads disk.old) span.now block
        → IfOk result (IsFetched block) }
    ensures same { D.reads disk.new ≡ D.reads disk.old }
    ensures still { D.moment disk.new ≡ D.moment disk.old }
    ensures clock { D.past disk.new ≡ D.past disk.old }
    ensures worked { (IsErrOf result FetchFault.DiskFault → ⊥) → D.failures disk.new ≡ D.failures disk.old }
    ensures failed { IsErrOf result FetchFault.DiskFault → D.failures disk.new ≡ one_more (D.failures disk.old) }
{
    let Ok(mut bytes) = room_for(alloc, span.len) else {
        return Err(FetchFault::OutOfMemory);
    };
    let Ok(count) = disk.fetch(span.place, &mut bytes) else {
        return Err(FetchFault::DiskFault);
    };
    if count == span.len && is_same(&span.digest, &Sha256::digest(&bytes)) {
        Ok(Some(bytes))
    } else {
        Ok(None)
    }
}

//! A snapshot, and who reads and writes its text, as they are shown.

use crate::reader::SnapshotReader;
use crate::snapshot::Snapshot;
use crate::writer::SnapshotWriter;
use std::fmt;

impl fmt::Debug for Snapshot {
    /// Writes where the chain ends, the fees, the digest and how many outputs are unspent.
    fn fmt<W: fmt::Write>(&self, f: &mut fmt::Formatter<W>) -> fmt::Result {
        f.debug_struct("Snapshot")
            .field("tip", &self.tip)
            .field("fees", &self.fees)
            .field("digest", &self.digest)
            .field("outputs", &self.utxo.len())
            .finish_non_exhaustive()
    }
}

impl fmt::Debug for SnapshotReader {
    /// Writes the network's lovelace and its digest.
    fn fmt<W: fmt::Write>(&self, f: &mut fmt::Formatter<W>) -> fmt::Result {
        f.debug_struct("SnapshotReader")
            .field("supply", &self.supply)
            .field("digest", &self.digest)
            .finish_non_exhaustive()
    }
}

impl<'a> fmt::Debug for SnapshotWriter<'a> {
    /// Writes nothing of what is left.
    fn fmt<W: fmt::Write>(&self, f: &mut fmt::Formatter<W>) -> fmt::Result {
        f.debug_struct("SnapshotWriter").finish_non_exhaustive()
    }
}

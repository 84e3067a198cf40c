//! A disk that keeps what it holds.

ghost use Rattle.std.specs.Prelude.{◌≡◌, ◌<◌, ◌^◌, true, length, replicate, refl};
ghost use Rattle.model.specs.Disk.{settled, one_more};

use immlog::{Disk, DiskFailed};

/// Bytes in memory, which nothing changes: each write is refused, and each cut of what is there. So it fetches just
/// what a read gives.
#[derive(Drop)]
pub struct KeptDisk {
    bytes: Vec<u8>,
    syncs: u64,
    failures: u64,
    ghost small: { length bytes.items < 2 ^ 63 },
}

impl KeptDisk {
    /// The disk of these bytes.
    pub fn new(bytes: Vec<u8>) -> KeptDisk {
        KeptDisk {
            bytes,
            syncs: 0,
            failures: 0,
        }
    }

    /// A failure, which is counted.
    #[tactic(auto, unfolding(model::specs::Disk::one_more))]
    fn fail(&mut self) -> DiskFailed
        ensures bytes { self.new.bytes ≡ self.old.bytes }
        ensures syncs { self.new.syncs ≡ self.old.syncs }
        ensures failures { self.new.failures ≡ one_more self.old.failures }
    {
        self.failures = self.failures.wrapping_add(1);
        DiskFailed
    }
}

impl Disk for KeptDisk {
    ghost reads = { λ disk. disk.bytes.items };

    ghost moment = { λ disk. settled disk.bytes.items };

    ghost past = { λ disk. replicate disk.syncs (settled disk.bytes.items) };

    ghost failures = { λ disk. disk.failures };

    ghost keeps = { true };

    ghost read_is_left = { λ disk. record { stays = λ place below outside. refl; whole = λ none. refl } };

    ghost fits = { λ disk. disk.small };

    fn read(&mut self, place: usize, into: &mut [u8]) -> Result<usize, DiskFailed> {
        let count = self.bytes.len().saturating_sub(place).min(into.len());
        if count != 0 {
            into[..count].copy_from_slice(&self.bytes[place..place + count]);
        }
        Ok(count)
    }

    fn fetch(&mut self, place: usize, into: &mut [u8]) -> Result<usize, DiskFailed> {
        self.read(place, into)
    }

    fn write_at(&mut self, _place: usize, _bytes: &[u8]) -> Result<(), DiskFailed> {
        Err(self.fail())
    }

    fn put_back(&mut self, _place: usize, _bytes: &[u8]) {}

    fn cut(&mut self, len: usize) -> Result<(), DiskFailed> {
        if len == self.bytes.len() {
            return Ok(());
        }
        Err(self.fail())
    }

    fn sync(&mut self) -> Result<(), DiskFailed> {
        match self.syncs.checked_add(1) {
            Some(syncs) => {
                self.syncs = syncs;
                Ok(())
            }
            None => Err(self.fail()),
        }
    }
}

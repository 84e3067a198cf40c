//! The blocks of a log one after the other.

ghost use Rattle.std.specs.Prelude.{◌≡◌};
ghost use Rattle.immlog.specs.LogBlocks.{blocks_left};

use crate::disk::Disk;
use crate::faults::ReadFault;
use crate::log::Log;

/// The blocks of a log that are still to come, the first one first, each read again as [`Log::block`] does it, and in
/// memory only while it is used. After a block that can't be had the next one comes; where the disk failed each that is
/// left is told as one of a broken log.
///
/// ```text
/// let mut blocks = log.into_blocks();
/// while let Some(block) = blocks.next() {
///     println!(rt; "{} bytes", block?.len())?;
/// }
/// let log = blocks.into_log();
/// ```
#[derive(Drop)]
pub struct LogBlocks<D: Disk> {
    log: Log<D>,
    /// How many have come.
    passed: u64,
}

impl<D: Disk> LogBlocks<D> {
    pub(crate) fn new(log: Log<D>) -> LogBlocks<D>
        ensures left { blocks_left result ≡ log.blocks }
        ensures log { result.log ≡ log }
    {
        LogBlocks { log, passed: 0 }
    }

    /// The log, as the calls left it: with the same blocks, and broken where the disk failed.
    pub fn into_log(self) -> Log<D>
        ensures { result ≡ self.log }
    {
        let LogBlocks { log, passed: _ } = self;
        log
    }
}

impl<D: Disk + Drop> Iterator for LogBlocks<D> {
    ghost use Rattle.std.specs.Prelude.{◌-◌, length};
    ghost use Rattle.std.specs.Iterator.{at_most};
    ghost use Rattle.immlog.specs.LogBlocks.{GivesBlock};

    type Item = Result<Vec<u8>, ReadFault>;

    ghost next_gives = { GivesBlock D.keeps };

    ghost remaining = { λ b. at_most (length b.log.blocks - b.passed) };

    /// The next block, or None where all have come. Err as [`Log::block`] tells it.
    fn next(&mut self) -> Option<Result<Vec<u8>, ReadFault>> {
        if self.passed >= self.log.durable() as u64 {
            return None;
        }
        self.passed += 1;
        self.log.block(self.passed).transpose()
    }
}

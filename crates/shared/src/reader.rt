//! What peers sent is read before it comes under the lock.

ghost use Rattle.std.specs.Prelude.{◌≡◌, IfOk, IfErr};
ghost use Rattle.witness_pool.specs.Workers.{AreWorkers};
ghost use Rattle.shared.specs.HeldArrivals.{seen_arrival, held_arrival};

use crate::held::{Held, SeenArrival};
use block::{NotRead, Seen};
use inbox::Arrival;
use std::alloc::{AllocFailed, Global};
use std::thread::Threads;
use witness_pool::{Gate, Pool, PoolFault, SigScheme};

/// Reads bytes of blocks, and has their transactions checked by a number of workers of a pool.
#[derive(Drop)]
pub struct Reader<G> {
    pub alloc: Global,
    pub pool: Pool<G>,
    pub workers: usize,
    ghost fits: { AreWorkers workers },
}

impl<G: Gate> Reader<G> {
    /// The arrival with what its bytes are read as, unless they were read before. Copies no bytes. Where memory runs
    /// out the arrival comes back.
    pub fn read<S: SigScheme + Send, R: Threads + Sync>(
        &self,
        rt: &R,
        held: Held<S>,
    ) -> Result<SeenArrival<S>, AllocFailed<Arrival>>
        ensures read { IfOk result (λ read. seen_arrival read ≡ held_arrival held) }
        ensures back { IfErr result (λ failed. failed.value ≡ held_arrival held) }
    {
        let Arrival { peer, bytes } = match held {
            Held::Unread(arrival) => arrival,
            Held::Seen(arrival) => return Ok(arrival),
        };
        match Seen::read_with(rt, self.alloc, &self.pool, self.workers, bytes) {
            Ok(seen) => Ok(SeenArrival { peer, seen }),
            Err(
                NotRead {
                    fault: PoolFault::OutOfMemory,
                    bytes,
                },
            ) => Err(AllocFailed {
                value: Arrival { peer, bytes },
            }),
            Err(
                NotRead {
                    fault: PoolFault::BadWorkers,
                    bytes: _,
                },
            ) => unreachable!(),
        }
    }
}

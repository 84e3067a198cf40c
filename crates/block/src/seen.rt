//! Bytes that arrived, with what they were read as.

ghost use Rattle.std.specs.Prelude.{◌≡◌, IfOk, IfErr, OnOk, OnErr};
ghost use Rattle.block.specs.Facts.{AreFactsOf};
ghost use Rattle.block.specs.Read.{IsRead, IsBadBytes, IsReadable};
ghost use Rattle.witness_pool.specs.Workers.{AreWorkers, IsPoolFault};

use crate::block_ref::look;
use crate::checked_block::{CheckedBlock, check_all};
use crate::facts::Facts;
use crate::fault::{BadBytes, NotRead};
use std::alloc::{AllocError, AllocFailed, Global};
use std::marker::Model;
use std::thread::Threads;
use witness_pool::{CheckedTx, Gate, MAX_WORKERS, Pool, PoolFault, SigScheme};

/// What bytes were read as.
#[derive(Drop)]
enum Found<S: SigScheme> {
    /// This block, which holds the bytes.
    Block(CheckedBlock<S>),
    /// No block, for this reason. The bytes stand beside it.
    Bad(BadBytes, Vec<u8>),
}

/// Bytes that arrived, with the block that they spell and the verdicts on its transactions, or with the reason why they
/// spell none. The type keeps these to be those of the bytes, so one thread may compute them and another one use them.
#[derive(Drop)]
pub struct Seen<S: SigScheme> {
    found: Found<S>,
}

impl<S: SigScheme> Model for Seen<S> {
    ghost use Rattle.std.specs.Prelude.{ℕ, List};
    ghost use Rattle.model.specs.Codes.{coded_bytes};

    ghost Value = { List ℕ };

    ghost coded = { coded_bytes };

    ghost use Rattle.block.specs.HeldSeen.{seen_bytes, IsHeldSeen};

    ghost view = { seen_bytes };

    ghost invariant = { IsHeldSeen };
}

impl<S: SigScheme> Seen<S> {
    /// The bytes with what they are read as, on this thread. The bytes are moved in and never copied. Err where memory
    /// runs out, with the bytes: such as are refused take none, except for the transactions that are read before that
    /// is known.
    ///
    /// The cost grows with the bytes: a digest of the body's text, one of the header's, those that identify
    /// transactions and scripts, and for each signature one call of the scheme and one digest. It is the same whether
    /// or not the core then keeps the block.
    ///
    /// ```text
    /// let seen = Seen::<TestScheme>::read(alloc, bytes)?; // on any thread
    /// let reply = core.arrive_seen(seen)?;                // on the one that has the core
    /// ```
    pub fn read(alloc: Global, bytes: Vec<u8>) -> Result<Seen<S>, AllocFailed<Vec<u8>>>
        ensures seen { IfOk result (λ seen. seen ≡ bytes.items) }
        ensures back { IfErr result (λ failed. failed.value ≡ bytes) }
        // Memory is asked for while transactions are read, and else only for a block that was read.
        ensures memory { OnErr result (IsReadable bytes.items) }
    {
        let found = match look(alloc, &bytes) {
            Ok(Ok(found)) => found,
            Ok(Err(bad)) => return Ok(Seen::of_bad(bad, bytes)),
            Err(AllocError) => return Err(AllocFailed { value: bytes }),
        };
        let (facts, transactions) = found.into_parts();
        match check_all(alloc, transactions) {
            Ok(transactions) => Seen::of_parts(alloc, bytes, facts, transactions),
            Err(AllocError) => Err(AllocFailed { value: bytes }),
        }
    }

    /// The bytes that arrived. Copies nothing.
    pub fn bytes(&self) -> &[u8]
        ensures { result.now ≡ self.now }
    {
        match &self.found {
            Found::Block(block) => block.bytes(),
            Found::Bad(_, bytes) => bytes,
        }
    }

    /// The block that the bytes spell, with the verdicts on its transactions; else the first reason that applies why
    /// they spell none. Copies nothing.
    pub fn block(&self) -> Result<&CheckedBlock<S>, BadBytes>
        ensures block { IfOk result (λ block. IsRead block.now self.now) }
        ensures bad { IfErr result (λ bad. IsBadBytes self.now bad) }
    {
        match &self.found {
            Found::Block(block) => Ok(block),
            Found::Bad(bad, _) => Err(*bad),
        }
    }

    /// What [`Seen::block`] has, moved out. Takes no memory.
    pub fn into_result(self) -> Result<CheckedBlock<S>, BadBytes>
        ensures block { IfOk result (λ block. IsRead block self) }
        ensures bad { IfErr result (λ bad. IsBadBytes self bad) }
    {
        match self.found {
            Found::Block(block) => Ok(block),
            Found::Bad(bad, _) => Err(bad),
        }
    }

    /// The text of a block with what it was read as, which are moved in. Where there is no memory for the block the
    /// bytes come back.
    fn of_parts(
        alloc: Global,
        bytes: Vec<u8>,
        facts: Facts,
        transactions: Vec<CheckedTx<S>>,
    ) -> Result<Seen<S>, AllocFailed<Vec<u8>>>
        requires { AreFactsOf facts transactions.items bytes.items }
        ensures seen { IfOk result (λ seen. seen ≡ bytes.items) }
        ensures back { IfErr result (λ failed. failed.value ≡ bytes) }
    {
        let block = CheckedBlock::of_parts(alloc, bytes, facts, transactions)?;
        Ok(Seen {
            found: Found::Block(block),
        })
    }

    /// Bytes that are no block.
    fn of_bad(bad: BadBytes, bytes: Vec<u8>) -> Seen<S>
        requires { IsBadBytes bytes.items bad }
        ensures { result ≡ bytes.items }
    {
        Seen {
            found: Found::Bad(bad, bytes),
        }
    }
}

impl<S: SigScheme + Send> Seen<S> {
    /// The bytes with what they are read as: as [`Seen::read`] has it, with the verdicts computed by this many workers
    /// of the pool, 1 to 16. Any other number is refused first, whatever the bytes are. With each fault the bytes come
    /// back. Threads are started as [`Pool::check`] has it, and none for bytes that are refused.
    pub fn read_with<R: Threads + Sync, G: Gate>(
        rt: &R,
        alloc: Global,
        pool: &Pool<G>,
        workers: usize,
        bytes: Vec<u8>,
    ) -> Result<Seen<S>, NotRead>
        ensures seen { IfOk result (λ seen. seen ≡ bytes.items) }
        ensures workers { OnOk result (AreWorkers workers) }
        ensures fault { IfErr result (λ e. IsPoolFault workers e.fault) }
        ensures back { IfErr result (λ e. e.bytes ≡ bytes) }
        // Memory is asked for while transactions are read, and else only for a block that was read.
        ensures memory { IfErr result (λ e. e.fault ≡ PoolFault.OutOfMemory → IsReadable bytes.items) }
    {
        if workers == 0 || workers > MAX_WORKERS {
            let fault = PoolFault::BadWorkers;
            return Err(NotRead { fault, bytes });
        }
        let found = match look(alloc, &bytes) {
            Ok(Ok(found)) => found,
            Ok(Err(bad)) => return Ok(Seen::of_bad(bad, bytes)),
            Err(AllocError) => return Err(NotRead::from(AllocFailed { value: bytes })),
        };
        let (facts, transactions) = found.into_parts();
        match pool.check(rt, alloc, workers, transactions) {
            Ok(transactions) => Ok(Seen::of_parts(alloc, bytes, facts, transactions)?),
            Err(fault) => Err(NotRead { fault, bytes }),
        }
    }
}

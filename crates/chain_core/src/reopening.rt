//! The chain that a core is opened on.

ghost use Rattle.std.specs.Prelude.{◌≡◌, ℕ, List, IfOk, IfErr};
ghost use Rattle.model.specs.Signature.{Verifies};
ghost use Rattle.model.specs.Block.{Block};
ghost use Rattle.model.specs.Applying.{LedgerState as Before, IsApplied};
ghost use Rattle.block.specs.Read.{IsRead, IsReadFault};
ghost use Rattle.ledger.specs.Judgement.{IsApplyFault};
ghost use Rattle.chain_core.specs.Reopening.{IsNotNext};

use crate::node_core::Core;
use block::{CheckedBlock, ReadFault};
use genesis::Genesis;
use ledger::{ApplyFault, LedgerState, apply_block_diff};
use std::alloc::{AllocError, Global};
use std::marker::Model;
use thiserror::Error;
use witness_pool::SigScheme;

/// Why no core is opened on blocks.
#[derive(Clone, Copy, Debug, Drop, PartialEq, Eq, Error)]
pub enum ReopenFault {
    /// The block of this number, counted from 1, is the first whose bytes are the text of no block, or that can't come
    /// after those before it.
    #[error("invalid block {0}")]
    InvalidBlock(u64),
    /// Memory ran out.
    #[error("out of memory")]
    OutOfMemory,
}

impl From<AllocError> for ReopenFault {
    ghost use Rattle.std.specs.Prelude.{◌≡◌};
    ghost use Rattle.chain_core.specs.declared.reopening.ReopenFault.TheVariants.{OutOfMemory};

    ghost from_gives = { λ _ e. e ≡ OutOfMemory };

    fn from(_error: AllocError) -> ReopenFault {
        ReopenFault::OutOfMemory
    }
}

/// The blocks of a chain with the state that they leave.
#[derive(Drop)]
pub struct OpenedChain<S: SigScheme> {
    pub state: LedgerState,
    pub chain: Vec<CheckedBlock<S>>,
}

/// Why no chain has bytes as its block of this number that aren't read.
fn unread(number: u64, fault: ReadFault) -> ReopenFault
    ensures { (verifies : Verifies) (s : Before) (bytes : List ℕ) →
        IsReadFault bytes fault → IsNotNext verifies s number bytes result }
{
    match fault {
        ReadFault::OutOfMemory => ReopenFault::OutOfMemory,
        ReadFault::TooLarge | ReadFault::Malformed | ReadFault::BodyHashMismatch => {
            ReopenFault::InvalidBlock(number)
        }
    }
}

/// Why no chain has a block as that of this number that isn't applied.
fn unfit(number: u64, fault: ApplyFault) -> ReopenFault
    ensures { (verifies : Verifies) (s : Before) (b : Block) (bytes : List ℕ) →
        IsRead b bytes → IsApplyFault verifies s b fault → IsNotNext verifies s number bytes result }
{
    match fault {
        ApplyFault::OutOfMemory => ReopenFault::OutOfMemory,
        ApplyFault::Refused(_) => ReopenFault::InvalidBlock(number),
    }
}

/// What the bytes of the next block, which is to have this number, are read as, and the state that it leaves.
fn next_block<S: SigScheme>(
    alloc: Global,
    state: LedgerState,
    number: u64,
    bytes: &[u8],
) -> Result<(LedgerState, CheckedBlock<S>), ReopenFault>
    ensures read { IfOk result (λ made. IsRead made.1 bytes.now) }
    ensures applied { IfOk result (λ made. IsApplied S.verifies state made.1 made.0) }
    ensures fault { IfErr result (IsNotNext S.verifies state number bytes.now) }
{
    let block = match CheckedBlock::read(alloc, bytes) {
        Ok(block) => block,
        Err(fault) => return Err(unread(number, fault)),
    };
    match apply_block_diff(state, &block) {
        Ok((after, _diff)) => Ok((after, block)),
        Err(fault) => Err(unfit(number, fault)),
    }
}

/// A chain on which a core will be opened, block after block: a program that restarts needs no text but that of the
/// block that comes next, where [`Core::reopen`] wants all of them.
///
/// ```text
/// let mut reopening = Reopening::<TestScheme>::new(alloc, genesis)?;
/// for text in texts { // the texts of `core.block(1)` to `core.block(core.immutable())`, kept
///     reopening = reopening.push(text)?;
/// }
/// let core = reopening.finish()?;
/// ```
///
/// In contracts it is the genesis and the chain so far, which is valid.
pub struct Reopening<S: SigScheme> {
    alloc: Global,
    genesis: Genesis,
    state: LedgerState,
    chain: Vec<CheckedBlock<S>>,
}

// By hand, so that each exit calls it: the derived one is copied to each exit of each owner.
impl<S: SigScheme> Drop for Reopening<S> {
    fn drop(self) {
        let Reopening {
            alloc: _,
            genesis: _,
            state: _,
            chain: _,
        } = self;
    }
}

impl<S: SigScheme> Model for Reopening<S> {
    ghost use Rattle.chain_core.specs.ChainSoFar.{ChainSoFar, coded_so_far};

    ghost Value = { ChainSoFar };

    ghost coded = { coded_so_far };

    ghost use Rattle.chain_core.specs.ReopeningInside.{so_far, IsReadInside};

    ghost view = { so_far };

    ghost invariant = { IsReadInside S.verifies };
}

impl<S: SigScheme> Reopening<S> {
    ghost use Rattle.std.specs.Prelude.{◌≡◌, List, [], ◌∷◌, ◌++◌, IfOk, IfErr};
    ghost use Rattle.model.specs.Block.{Block as Plain};
    ghost use Rattle.model.specs.Ledger.{network_of};
    ghost use Rattle.block.specs.Read.{IsRead};
    ghost use Rattle.chain_core.specs.Held.{opening_held};
    ghost use Rattle.chain_core.specs.Immutable.{texts_of};
    ghost use Rattle.chain_core.specs.Reopening.{IsChainOf, IsReopenFault, WereImmutable};
    ghost use Rattle.chain_core.specs.declared.reopening.ReopenFault.TheVariants as reopen;

    /// The chain of this genesis without a block. Err where memory runs out. Takes one insertion for each output of the
    /// genesis.
    pub fn new(alloc: Global, genesis: Genesis) -> Result<Reopening<S>, AllocError>
        ensures genesis { IfOk result (λ begun. begun.genesis ≡ genesis) }
        ensures chain { IfOk result (λ begun. begun.chain ≡ []) }
    {
        let state = LedgerState::new(alloc, &genesis)?;
        let chain = Vec::new(alloc);
        Ok(Reopening {
            alloc,
            genesis,
            state,
            chain,
        })
    }

    /// The chain with the block of these bytes as its next one. Where they are the text of no block, or the block can't
    /// come next, its number is told, counted from 1; or memory ran out. The chain is then gone.
    ///
    /// Reads, hashes and judges the block once, at its own slot, and copies its bytes once.
    pub fn push(self, bytes: &[u8]) -> Result<Reopening<S>, ReopenFault>
        ensures genesis { IfOk result (λ next. next.genesis ≡ self.genesis) }
        // It has the block that is read of the bytes, and nothing else is new.
        ensures block { IfOk result (λ next. (b : Plain)
            × IsRead b bytes.now × (next.chain ≡ self.chain ++ b ∷ [])) }
        // So its texts are those of before, and then the bytes.
        ensures texts { IfOk result (λ next. texts_of next.chain ≡ texts_of self.chain ++ bytes.now ∷ []) }
        // They are those of a valid chain.
        ensures chain { IfOk result (λ next.
            IsChainOf (network_of self.genesis S.verifies) (texts_of next.chain) next.chain) }
        // Else it is the first block that is none or can't come next, or memory ran out.
        ensures fault { IfErr result (IsReopenFault (network_of self.genesis S.verifies)
            (texts_of self.chain ++ bytes.now ∷ [])) }
        // No block is told of the blocks that a node kept of those that no rollback reaches.
        ensures again { IfErr result (λ fault. WereImmutable (network_of self.genesis S.verifies)
            (texts_of self.chain ++ bytes.now ∷ []) → fault ≡ reopen.OutOfMemory) }
    {
        let Reopening {
            alloc,
            genesis,
            state,
            mut chain,
        } = self;
        let number = chain.len() as u64 + 1;
        let (after, block) = next_block(alloc, state, number, bytes)?;
        let Ok(()) = chain.push(block) else {
            return Err(ReopenFault::OutOfMemory);
        };
        Ok(Reopening {
            alloc,
            genesis,
            state: after,
            chain,
        })
    }

    /// The core whose selected chain this is: none of its blocks is ever rolled back, no transaction waits, and no
    /// follower is open. Err where memory runs out. Indexes each block by its hash, 8 bytes each; reads and copies
    /// none.
    pub fn finish(self) -> Result<Core<S>, AllocError>
        ensures core { IfOk result (λ core. core ≡ opening_held self.genesis self.chain) }
        // The chain is valid, and each block is read of its text.
        ensures chain { IsChainOf (network_of self.genesis S.verifies) (texts_of self.chain) self.chain }
    {
        let Reopening {
            alloc,
            genesis,
            state,
            chain,
        } = self;
        Core::on(alloc, genesis, OpenedChain { state, chain })
    }
}

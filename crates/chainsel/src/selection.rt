//! What a selection answers.

use block::CheckedBlock;
use ident::BlockHash;
use ledger::LedgerState;
use ledgerdb::Prepared;
use witness_pool::SigScheme;

/// What becomes of the selected chain when a block comes.
#[derive(Drop)]
pub enum Choice<S: SigScheme> {
    /// It stays: no candidate is longer.
    Keep,
    /// It becomes the longest candidate, of several the one with the least hash at its end.
    Switch(Switch<S>),
}

/// How one selected chain becomes the next.
#[derive(Drop)]
pub struct Switch<S: SigScheme> {
    /// How many of its last blocks are rolled back, at most k.
    pub back: usize,
    /// The blocks that are put on, the oldest first.
    pub blocks: Vec<CheckedBlock<S>>,
    /// The states that these make, for the ledger database that the selection was asked with.
    pub prepared: Prepared,
}

/// What a selection answers.
#[derive(Drop)]
pub struct Selection<S: SigScheme> {
    /// What becomes of the selected chain.
    pub choice: Choice<S>,
    /// The hashes of the blocks that were found to be in no valid chain, now or ever: live ones, or the one that came.
    pub invalid: Vec<BlockHash>,
    /// Where a block was found dead on a fork that isn't taken, the state before it, or before the block that came, if
    /// that comes first on the fork: for [`ledgerdb::LedgerDb::keep_side`], so that the next block there is judged on
    /// it. None where the chain changes, where no block was found dead, or where it was judged on such a state.
    pub side: Option<LedgerState>,
    /// Where a block was found dead and the chain stays, those before it on its fork, with their transactions, which
    /// were read for that: for [`blockstore::BlockStore::hold`], so that the next block there has them read no more.
    pub read: Vec<CheckedBlock<S>>,
}

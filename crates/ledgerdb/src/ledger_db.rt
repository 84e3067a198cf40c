//! The state of a chain, and what its last blocks changed.

use crate::applying::apply_all;
use crate::diffs::{drop_newest, drop_oldest, nth_newest, undo_last};
use crate::fork_fault::ForkFault;
use crate::prepared::Prepared;
use block::{Block, CheckedBlock};
use ledger::{BlockDiff, LedgerState, misfit_before};
use std::alloc::{AllocError, Global};
use std::collections::LinkedList;
use std::marker::Model;
use witness_pool::SigScheme;

/// The most differences that a list holds.
const MOST_DIFFS: u64 = 0x7fff_ffff_ffff_ffff;

/// How many states beside the chain are kept.
const MOST_SIDES: usize = 8;

/// The state of a chain and what each of its last k blocks changed, so that a fork from up to k blocks back can be
/// judged without applying the chain anew (the Consensus and Storage Layer report, ledger database). One state is
/// whole, the newest; those before it are had by undoing. Each block takes memory for what it changed.
///
/// Beside these it keeps up to eight states of chains, the selected one or a beginning of it among them, until the next
/// commit: those on which blocks were judged and refused, so that the next block there is judged without applying the
/// whole fork once more.
#[derive(Drop)]
pub struct LedgerDb {
    alloc: Global,
    k: u64,
    state: LedgerState,
    diffs: LinkedList<BlockDiff>,
    sides: LinkedList<LedgerState>,
}

impl Model for LedgerDb {
    ghost use Rattle.ledgerdb.specs.Values.{Database, coded_database};

    ghost Value = { Database };

    ghost coded = { coded_database };

    ghost use Rattle.ledgerdb.specs.Inside.{database_of, IsBounded};

    ghost view = { database_of };

    ghost invariant = { IsBounded };
}

impl LedgerDb {
    ghost use Rattle.std.specs.Prelude.{◌≡◌, ◌+◌, ◌-◌, ◌^◌, ◌≤◌, min, List, [], ◌∷◌, ◌++◌, length, Contains};
    ghost use Rattle.std.specs.Prelude.{IfOk, IfErr, OnOk, OnErr, MatchOption};
    ghost use Rattle.std.specs.List.{AllByRecursion};
    ghost use Rattle.model.specs.Genesis.{Genesis};
    ghost use Rattle.model.specs.Block.{Block};
    ghost use Rattle.model.specs.Ledger.{Network, network_on};
    ghost use Rattle.model.specs.Chain.{Follows};
    ghost use Rattle.model.specs.Applying.{IsStateOf, AreStates, last_state};
    ghost use Rattle.ledgerdb.specs.Values.{depth, count, state_back, latest};
    ghost use Rattle.ledgerdb.specs.Chains.{without_last, IsDatabaseOf, IsPreparedOf};
    ghost use Rattle.ledgerdb.specs.Faults.{IsForkFault, IsFaultOnChain};

    /// A database whose only state is the anchor, which will keep the states of the last k blocks after it. A k of 2^63
    /// or more counts as 2^63 - 1, which is more states than any memory holds. Takes no memory: no room is taken ahead.
    pub fn new(alloc: Global, anchor: LedgerState, k: u64) -> LedgerDb
        ensures depth { depth result ≡ 0 }
        ensures k { result.k ≡ min k (2 ^ 63 - 1) }
        ensures state { state_back result 0 ≡ anchor }
        // It is a database of each chain whose state the anchor is.
        ensures chain { (network : Network) (chain : List Block) →
            IsStateOf network chain anchor → IsDatabaseOf network chain result }
        ensures sides { result.sides ≡ [] }
    {
        LedgerDb {
            alloc,
            k: k.min(MOST_DIFFS),
            state: anchor,
            diffs: LinkedList::new(alloc),
            sides: LinkedList::new(alloc),
        }
    }

    /// How many blocks may be rolled back: at most k.
    pub fn depth(&self) -> usize
        ensures depth { result ≡ depth self.now }
        ensures within { result ≤ self.now.k }
    {
        self.diffs.len()
    }

    /// The newest state. Copies nothing, and takes no memory.
    pub fn state(&self) -> &LedgerState
        ensures state { result.now ≡ state_back self.now 0 }
        ensures chain { (network : Network) (chain : List Block) →
            IsDatabaseOf network chain self.now → IsStateOf network chain result.now }
    {
        &self.state
    }

    /// The state `back` blocks ago, `back` at most the depth. Takes time and memory that grow with what these blocks
    /// changed. Err where there is none.
    pub fn state_at(&self, back: usize) -> Result<LedgerState, AllocError>
        requires { back ≤ depth self.now }
        ensures state { IfOk result (λ state. state ≡ state_back self.now back) }
        ensures chain { IfOk result (λ state. (network : Network) (chain : List Block) →
            IsDatabaseOf network chain self.now → IsStateOf network (without_last back chain) state) }
    {
        undo_last(self.state.try_clone()?, &self.diffs, back)
    }

    /// What is needed to roll the last `back` blocks back, `back` at most the depth, and to put these blocks in their
    /// place: the state that they leave and what each of them changes, each block applied once. Else the first block
    /// that isn't applied, counted from 0, with its first fault; or OutOfMemory, where the blocks before some place are
    /// applied and the one at it has none of the first four faults, or where there are no blocks and memory runs out
    /// while others are rolled back. The database stays. Takes the time to apply the blocks, and time and memory that
    /// grow with what the blocks rolled back changed.
    ///
    /// ```text
    /// match db.fork(2, &blocks) {
    ///     Ok(prepared) => db.commit(prepared),
    ///     Err(ForkFault::Refused(index, fault)) => println!(rt; "block {index}: {fault}")?,
    ///     Err(ForkFault::OutOfMemory) => .., // try again later
    /// }
    /// ```
    pub fn fork<S: SigScheme>(
        &self,
        back: usize,
        blocks: &[CheckedBlock<S>],
    ) -> Result<Prepared, ForkFault>
        requires { back ≤ depth self.now }
        ensures back { IfOk result (λ prepared. prepared.back ≡ back) }
        ensures count { IfOk result (λ prepared. count prepared ≡ length blocks.now) }
        ensures root { IfOk result (λ prepared. prepared.root ≡ state_back self.now back) }
        ensures applied { IfOk result (λ prepared.
            AreStates S.verifies (state_back self.now back) blocks.now prepared.states) }
        ensures refused { IfErr result (IsForkFault S.verifies (state_back self.now back) blocks.now) }
        // The same, said of the chain whose database it is.
        ensures chain { IfOk result (λ prepared. (genesis : Genesis) (opened chain : List Block) →
            IsDatabaseOf (network_on genesis S.verifies opened) chain self.now →
            IsPreparedOf (network_on genesis S.verifies opened) (without_last back chain) blocks.now prepared) }
        ensures chain_refused { IfErr result (λ fault. (genesis : Genesis) (opened chain : List Block) →
            IsDatabaseOf (network_on genesis S.verifies opened) chain self.now →
            IsFaultOnChain (network_on genesis S.verifies opened) (without_last back chain) blocks.now fault) }
    {
        let root = match self.state_at(back) {
            Ok(root) => root,
            Err(_) => return Err(self.without_memory(back, blocks)),
        };
        let (state, diffs) = apply_all(self.alloc, root, blocks)?;
        Ok(Prepared { back, state, diffs })
    }

    /// What is told of a fork where memory ran out while blocks were rolled back: the first fault of the first block
    /// except for its transactions, which takes no state to be known.
    fn without_memory<S: SigScheme>(&self, back: usize, blocks: &[CheckedBlock<S>]) -> ForkFault
        requires { back ≤ depth self.now }
        ensures { IsForkFault S.verifies (state_back self.now back) blocks.now result }
    {
        let Some(block) = blocks.first() else {
            return ForkFault::OutOfMemory;
        };
        let diff = nth_newest(&self.diffs, back);
        match misfit_before(&self.state, diff, block) {
            Some(fault) => ForkFault::Refused(0, fault),
            None => ForkFault::OutOfMemory,
        }
    }

    /// The newest state once this fork is committed. Copies nothing, and takes no memory.
    pub fn state_after<'a>(&'a self, prepared: &'a Prepared) -> &'a LedgerState
        ensures state { result.now ≡ last_state prepared.now.root prepared.now.states }
        // The same, said of the chain whose database it is.
        ensures chain { (network : Network) (chain blocks : List Block) →
            IsDatabaseOf network chain self.now →
            IsPreparedOf network (without_last prepared.now.back chain) blocks prepared.now →
            IsStateOf network (without_last prepared.now.back chain ++ blocks) result.now }
    {
        &prepared.state
    }

    /// Rolls back as many blocks as the fork does, and puts its blocks in their place. At most k states stay after the
    /// anchor: older ones are dropped, and the anchor moves on. No state beside the chain is kept. Takes no memory, and
    /// time that grows with the blocks rolled back and put on, not with k.
    pub fn commit(&mut self, prepared: Prepared)
        requires { prepared.back ≤ depth self.old }
        ensures depth { depth self.new ≡ min self.old.k (depth self.old - prepared.back + count prepared) }
        ensures k { self.new.k ≡ self.old.k }
        ensures state { state_back self.new 0 ≡ last_state prepared.root prepared.states }
        ensures chain { (network : Network) (chain blocks : List Block) →
            IsDatabaseOf network chain self.old →
            IsPreparedOf network (without_last prepared.back chain) blocks prepared →
            IsDatabaseOf network (without_last prepared.back chain ++ blocks) self.new }
        ensures sides { self.new.sides ≡ [] }
    {
        self.sides.clear();
        let k = self.k as usize;
        let mut newer = prepared.diffs;
        drop_newest(&mut self.diffs, prepared.back);
        drop_oldest(&mut self.diffs, k.saturating_sub(newer.len()));
        drop_oldest(&mut newer, k);
        self.diffs.append(&mut newer).unwrap();
        self.state = prepared.state;
    }

    /// Keeps no state beside the chain any more. Takes no memory.
    pub fn drop_sides(&mut self)
        ensures { self.new ≡ record self.old { sides = [] } }
    {
        self.sides.clear();
    }

    /// The state beside the chain that the block may come next after, if one is kept. Takes no memory.
    pub fn side_before(&self, block: &Block) -> Option<&LedgerState>
        ensures { MatchOption result
            (AllByRecursion (λ s. Follows s.tip block.now → ⊥) self.now.sides)
            (λ s. Contains self.now.sides s.now × Follows s.now.tip block.now) }
    {
        let mut rest = self.sides.iter();
        while let Some(side) = rest.next() {
            if side.precedes(block) {
                return Some(side);
            }
        }
        None
    }

    /// Keeps this state beside the chain until the next commit, and of all such states the latest eight. Err where
    /// memory runs out, and then nothing changes.
    pub fn keep_side(&mut self, state: LedgerState) -> Result<(), AllocError>
        ensures ok { OnOk result (self.new ≡ record self.old { sides = latest (self.old.sides ++ state ∷ []) }) }
        ensures err { OnErr result (self.new ≡ self.old) }
    {
        self.sides.push_back(state)?;
        drop_oldest(&mut self.sides, MOST_SIDES);
        Ok(())
    }
}

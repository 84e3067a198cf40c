//! The selected chain with what selection stands on.

ghost use Rattle.std.specs.Prelude.{◌≡◌, ◌≤◌, ◌+◌, ◌-◌, ◌++◌, [], List, ℕ, length, IfOk, OnOk, OnErr};
ghost use Rattle.std.specs.Prelude.{◌≢◌, IsTrue, false, drop, min, max};
ghost use Rattle.std.specs.List.{AllByRecursion};
ghost use Rattle.std.specs.Option.{option_map};
ghost use Rattle.model.specs.Genesis.{Genesis};
ghost use Rattle.model.specs.Cbor.{text_of};
ghost use Rattle.model.specs.Transaction.{SpellsTransaction, item_of_transaction};
ghost use Rattle.utxo_rules.specs.DetailView.{detail_of};
ghost use Rattle.mempool.specs.Calls.{IsWantAtSubmission};
ghost use Rattle.mempool.specs.View.{reply_of, evaluation_of};
ghost use Rattle.model.specs.Block.{Block, SpellsBlock, block_text, block_hash_of};
ghost use Rattle.model.specs.Ledger.{Network, network_on};
ghost use Rattle.model.specs.Chain.{immutable_length};
ghost use Rattle.model.specs.Applying.{IsStateOf};
ghost use Rattle.model.specs.History.{State, HasBeside};
ghost use Rattle.model.specs.Asked.{ExplainsSubmission};
ghost use Rattle.model.specs.Evaluating.{IsEvaluation};
ghost use Rattle.blockstore.specs.Stored.{IsSet, blocks_of};
ghost use Rattle.blockstore.specs.Insertion.{IsFull};
ghost use Rattle.chainsel.specs.Ready.{IsReady};
ghost use Rattle.ledgerdb.specs.Values.{depth, count};
ghost use Rattle.ledgerdb.specs.Chains.{without_last, IsDatabaseOf, IsPreparedOf};
ghost use Rattle.chain.specs.Chained.{chain_of};
ghost use Rattle.chain.specs.Indexed.{first_hashes};
ghost use Rattle.chain_core.specs.ChainDbs.{IsWhole, IsAdded, AreMarked, IsTakenIn, IsCutBack, IsCommitted};
ghost use Rattle.chain_core.specs.ChainDbs.{IsBeside, IsTaken, IsDiscarded, HasState, IsIndexed, network_db};
ghost use Rattle.chain_core.specs.Mempools.{IsResynced, IsWantOf};

use crate::finding::{Place, place_in};
use crate::reopening::OpenedChain;
use block::{CheckedBlock, Tip};
use blockstore::{BlockStore, Capacity, InsertFault, LiveBlock};
use chain::{Chain, HashIndex};
use chainsel::{Choice, Selection, Switch, select};
use genesis::Genesis;
use ident::BlockHash;
use ledger::LedgerState;
use ledgerdb::LedgerDb;
use mempool::{Evaluation, Mempool, Resynced, SubmitReply};
use std::alloc::{AllocError, Global};
use utxo_rules::Detail;
use witness_pool::{CheckedTx, SigScheme};

/// How many blocks of the old selected chain were rolled back, and how many of the new one were put on.
#[derive(Clone, Copy)]
pub struct Change {
    pub back: u64,
    pub added: u64,
}

/// The selected chain, the live blocks, the states of the chain's last blocks, the mempool beside it, and the index of
/// the blocks that are never rolled back, by their hashes. A new block can clash only with one of these or a live one.
/// No other block is indexed, so nothing ever has to be taken out of the index.
#[derive(Drop)]
pub struct ChainDb<S: SigScheme> {
    pub chain: Chain<S>,
    pub store: BlockStore<S>,
    pub db: LedgerDb,
    pub mempool: Mempool<S>,
    pub past: HashIndex,
    /// How many blocks the chain had at first.
    pub opened: usize,
}

/// Marks the blocks of these hashes as blocks that no valid chain will ever have. Takes no memory.
fn mark_all<S: SigScheme>(store: &mut BlockStore<S>, invalid: &[BlockHash])
    ensures marked { AreMarked store.old invalid.now store.new }
    ensures set { IsSet store.old → IsSet store.new }
{
    for hash in invalid {
        store.mark_invalid(*hash);
    }
}

/// Holds these blocks with their transactions, which were read, where they are live. Takes no memory.
fn hold_all<S: SigScheme>(store: &mut BlockStore<S>, read: &[CheckedBlock<S>])
    ensures { store.new ≡ store.old }
{
    for block in read {
        if let Ok(block) = block.try_clone() {
            store.hold(block);
        }
    }
}

impl<S: SigScheme> ChainDb<S> {
    /// On a chain with its state, before anything else is kept: none of its blocks is ever rolled back. Err where
    /// memory runs out. Indexes each block by its hash.
    pub fn open(
        alloc: Global,
        genesis: &Genesis,
        on: OpenedChain<S>,
    ) -> Result<ChainDb<S>, AllocError>
        requires state { (opened : List Block) →
            IsStateOf (network_on genesis.now S.verifies opened) on.chain.items on.state }
        requires spelled { AllByRecursion (λ b. SpellsBlock b (block_text b)) on.chain.items }
        ensures opened { IfOk result (λ a. a.opened ≡ length on.chain.items) }
        ensures chain { IfOk result (λ a. chain_of a.chain ≡ on.chain.items) }
        ensures blocks { IfOk result (λ a. a.store.blocks ≡ []) }
        ensures mempool { IfOk result (λ a. a.mempool.waiting.txs ≡ []) }
        ensures whole { IfOk result (λ a. IsWhole (network_on genesis.now S.verifies on.chain.items) a) }
    {
        let OpenedChain { state, chain } = on;
        let mempool = Mempool::new(alloc, genesis.max_mempool(), state.utxo())?;
        let capacity = Capacity {
            blocks: genesis.max_volatile(),
            bytes: genesis.max_volatile_bytes(),
        };
        let opened = chain.len();
        let chain = Chain::from_blocks(alloc, chain);
        let mut past = HashIndex::new(alloc);
        past.reserve(opened)?;
        past.push_up_to(&chain, opened);
        let store = BlockStore::behind(alloc, capacity, chain.tip());
        let db = LedgerDb::new(alloc, state, genesis.k());
        Ok(ChainDb {
            chain,
            store,
            db,
            mempool,
            past,
            opened,
        })
    }

    /// The blocks of the chain that are in memory: all, where none has left. In constant time; takes no memory.
    pub fn in_memory(&self) -> &[CheckedBlock<S>]
        ensures behind { result.now ≡ drop (length self.now.chain.gone) (chain_of self.now.chain) }
        ensures all { self.now.chain.gone ≡ [] → result.now ≡ chain_of self.now.chain }
    {
        self.chain.resident_after(self.chain.gone_len())
    }

    /// How many blocks of the chain are never rolled back. Takes no memory.
    pub fn immutable(&self) -> usize
        ensures count { result ≡ length (chain_of self.now.chain) - depth self.now.db }
        ensures immutable { (network : Network) → IsWhole network self.now
            → result ≡ immutable_length network (chain_of self.now.chain) }
    {
        chainsel::immutable(&self.chain, &self.db)
    }

    /// The state of the chain. Takes no memory.
    pub fn state(&self) -> &LedgerState
        ensures { (network : Network) → IsWhole network self.now
            → IsStateOf network (chain_of self.now.chain) result.now }
    {
        self.db.state()
    }

    /// Keeps the block, for which there is room, selects the chain anew, and brings the mempool up to date with it.
    /// Where memory runs out nothing changes.
    pub fn add(
        &mut self,
        alloc: Global,
        genesis: &Genesis,
        block: LiveBlock<S>,
    ) -> Result<Change, AllocError>
        requires whole { IsWhole (network_db genesis.now S.verifies self.old) self.old }
        requires ready { IsReady (network_db genesis.now S.verifies self.old) (chain_of self.old.chain)
            self.old.store self.old.db block }
        requires room { IsFull self.old.store (length (block_text block)) → ⊥ }
        ensures ok { IfOk result (λ change.
            IsAdded (network_db genesis.now S.verifies self.old) self.old block self.new change) }
        ensures chain { OnErr result (chain_of self.new.chain ≡ chain_of self.old.chain) }
        ensures gone { OnErr result (self.new.chain.gone ≡ self.old.chain.gone) }
        ensures store { OnErr result (self.new.store ≡ self.old.store) }
        ensures db { OnErr result (self.new.db ≡ self.old.db) }
        ensures mempool { OnErr result (self.new.mempool ≡ self.old.mempool) }
        ensures past { OnErr result (self.new.past.hashes ≡ self.old.past.hashes) }
        ensures opened { self.new.opened ≡ self.old.opened }
    {
        let Selection {
            choice,
            invalid,
            side,
            read,
        } = select(alloc, &self.store, &self.db, &self.chain, &block)?;
        match choice {
            Choice::Keep => {
                self.insert(block, &invalid, &read)?;
                self.keep_side(side);
                Ok(Change { back: 0, added: 0 })
            }
            Choice::Switch(switch) => {
                let resynced = self.make_ready(&switch)?;
                self.insert(block, &invalid, &switch.blocks)?;
                self.mempool.put(resynced);
                Ok(self.switch_to(switch))
            }
        }
    }

    /// What stays of the mempool beside the chain that the switch makes. Makes room for the new blocks in the chain and
    /// in the index: no switch makes more blocks immutable than it puts on. Where memory runs out some of the room may
    /// be there, which changes no answer.
    fn make_ready(&mut self, switch: &Switch<S>) -> Result<Resynced<S>, AllocError>
        requires { switch.now.prepared.back ≤ depth self.old.db }
        ensures resynced { IfOk result (λ resynced. (genesis : Genesis) (opened chain blocks : List Block) →
            IsDatabaseOf (network_on genesis S.verifies opened) chain self.old.db →
            IsPreparedOf (network_on genesis S.verifies opened) (without_last switch.now.prepared.back chain) blocks
            switch.now.prepared → IsResynced (network_on genesis S.verifies opened)
            (without_last switch.now.prepared.back chain ++ blocks) self.old.mempool.waiting.txs resynced) }
        ensures room { OnOk result
            (length self.new.chain.resident + length switch.now.blocks.items ≤ self.new.chain.room) }
        ensures past_room { OnOk result
            (length self.new.past.hashes + length switch.now.blocks.items ≤ self.new.past.room) }
        ensures past { self.new.past.hashes ≡ self.old.past.hashes }
        ensures chain { self.new.chain ≡ record self.old.chain { room = self.new.chain.room } }
        ensures frame { self.new ≡ record self.old { chain = self.new.chain; past = self.new.past } }
    {
        let resynced = self.resync(switch)?;
        self.chain.reserve(switch.blocks.len())?;
        self.past.reserve(switch.blocks.len())?;
        Ok(resynced)
    }

    /// What stays of the mempool beside the chain that the switch makes.
    fn resync(&self, switch: &Switch<S>) -> Result<Resynced<S>, AllocError>
        requires { switch.now.prepared.back ≤ depth self.now.db }
        ensures { IfOk result (λ resynced. (genesis : Genesis) (opened chain blocks : List Block) →
            IsDatabaseOf (network_on genesis S.verifies opened) chain self.now.db →
            IsPreparedOf (network_on genesis S.verifies opened) (without_last switch.now.prepared.back chain) blocks
            switch.now.prepared → IsResynced (network_on genesis S.verifies opened)
            (without_last switch.now.prepared.back chain ++ blocks) self.now.mempool.waiting.txs resynced) }
    {
        let state = self.db.state_after(&switch.prepared);
        self.mempool
            .resync(state.params(), state.utxo(), state.slot() + 1)
    }

    /// Takes the block into the store, where nothing is said against it, marks the blocks of these hashes, and holds
    /// those that were read with their transactions. Where memory runs out nothing changes.
    fn insert(
        &mut self,
        block: LiveBlock<S>,
        invalid: &[BlockHash],
        read: &[CheckedBlock<S>],
    ) -> Result<(), AllocError>
        requires alone { AllByRecursion (λ b. block_hash_of b ≢ block_hash_of block) (blocks_of self.old.store) }
        requires room { IsFull self.old.store (length (block_text block)) → ⊥ }
        ensures ok { OnOk result (IsTakenIn self.old.store block invalid.now self.new.store) }
        ensures frame { self.new ≡ record self.old { store = self.new.store } }
        ensures err { OnErr result (self.new.store ≡ self.old.store) }
    {
        match self.store.insert(block) {
            Ok(()) => {
                mark_all(&mut self.store, invalid);
                hold_all(&mut self.store, read);
                Ok(())
            }
            Err(InsertFault::OutOfMemory) => Err(AllocError),
            Err(InsertFault::Known | InsertFault::Clash | InsertFault::VolatileFull) =>
                unreachable!(),
        }
    }

    /// Keeps the state, if there is one, beside the chain. It is left out where there is no memory for it: no answer
    /// rests on it, and the fork before it is judged once more.
    fn keep_side(&mut self, side: Option<LedgerState>)
        ensures frame { self.new ≡ record self.old { db = self.new.db } }
        ensures sides { IsBeside self.old.db side self.new.db }
    {
        if let Some(state) = side {
            let _ = self.db.keep_side(state);
        }
    }

    /// Rolls back and puts on what the switch says, for which there is room; drops the live blocks that are then too
    /// old, and indexes the blocks that became immutable.
    fn switch_to(&mut self, switch: Switch<S>) -> Change
        requires gone { self.old.chain.gone ≡ [] }
        requires back { switch.back ≤ length (chain_of self.old.chain) }
        requires depth { switch.prepared.back ≤ depth self.old.db }
        requires room { length self.old.chain.resident + length switch.blocks.items ≤ self.old.chain.room }
        // No block that is indexed is rolled back, and the index has room for those that become immutable.
        requires indexed { IsIndexed self.old }
        requires stays { length self.old.past.hashes ≤ length (chain_of self.old.chain) - switch.back }
        requires past_room { length (chain_of self.old.chain) - switch.back + length switch.blocks.items
            - min self.old.db.k (depth self.old.db - switch.prepared.back + count switch.prepared)
            ≤ self.old.past.room }
        ensures gone { self.new.chain.gone ≡ [] }
        ensures chain { chain_of self.new.chain
            ≡ without_last switch.back (chain_of self.old.chain) ++ switch.blocks.items }
        ensures db { IsCommitted self.old.db switch.prepared self.new.db }
        ensures store { IsCutBack self.old.store (chain_of self.new.chain)
            (length (chain_of self.new.chain) - depth self.new.db) self.new.store }
        ensures past { self.new.past.hashes ≡ first_hashes
            (max (length self.old.past.hashes) (length (chain_of self.new.chain) - depth self.new.db))
            (chain_of self.new.chain) }
        ensures change { (result.back ≡ switch.back) × (result.added ≡ length switch.blocks.items) }
        ensures frame { self.new ≡ record self.old {
          chain = self.new.chain;
          store = self.new.store;
          db = self.new.db;
          past = self.new.past;
        } }
    {
        let change = Change {
            back: switch.back as u64,
            added: switch.blocks.len() as u64,
        };
        self.chain.truncate(self.chain.len() - switch.back);
        self.chain.append(switch.blocks);
        self.db.commit(switch.prepared);
        let immutable = self.immutable();
        let Some(tip) = self.chain.tip_of_first(immutable) else {
            unreachable!();
        };
        let root = Tip {
            number: immutable as u64,
            ..tip
        };
        self.store.drop_up_to(root);
        self.past.push_up_to(&self.chain, immutable);
        change
    }

    /// Keeps the live block with this hash no more, if it is beside the selected chain: answers whether there was one.
    /// A few look-ups, and what [`BlockStore::discard`] takes; takes no memory.
    pub fn discard(&mut self, hash: BlockHash) -> bool
        requires { IsIndexed self.old }
        ensures discarded { IsTrue result → (network : Network) (s : State) → IsWhole network self.old →
            HasState network self.old s → IsDiscarded network s hash.bytes self.new }
        ensures none { result ≡ false → (network : Network) (s : State) → IsWhole network self.old →
            HasState network self.old s → HasBeside network s hash.bytes → ⊥ }
        ensures same { result ≡ false → self.new ≡ self.old }
        ensures frame { self.new ≡ record self.old { store = self.new.store; db = self.new.db } }
    {
        let Place::Beside(_) = place_in(self, hash) else {
            return false;
        };
        self.store.discard(hash);
        self.db.drop_sides();
        true
    }

    /// Bytes of a transaction are submitted, and judged at the slot after the tip's. Where memory runs out nothing
    /// changes; it runs out only where the bytes begin as a transaction does, and not at one without parts.
    pub fn submit(&mut self, bytes: &[u8]) -> Result<SubmitReply, AllocError>
        ensures ok { IfOk result (λ reply. (genesis : Genesis) (opened : List Block) →
            IsWhole (network_on genesis S.verifies opened) self.old →
            IsTaken (network_on genesis S.verifies opened) self.old bytes.now (reply_of reply) self.new) }
        ensures whole { (genesis : Genesis) (opened : List Block) →
            IsWhole (network_on genesis S.verifies opened) self.old →
            IsWhole (network_on genesis S.verifies opened) self.new }
        ensures frame { self.new ≡ record self.old { mempool = self.new.mempool } }
        ensures err { OnErr result (self.new.mempool ≡ self.old.mempool) }
        ensures memory { OnErr result (IsWantAtSubmission bytes.now) }
    {
        let state = self.db.state();
        self.mempool.submit(state.params(), state.slot() + 1, bytes)
    }

    /// The same of a transaction with its verdicts, whatever bytes spell it.
    pub fn submit_checked(&mut self, tx: CheckedTx<S>) -> Result<SubmitReply, AllocError>
        ensures ok { IfOk result (λ reply. (genesis : Genesis) (opened : List Block) →
            IsWhole (network_on genesis S.verifies opened) self.old →
            (bytes : List ℕ) → SpellsTransaction tx bytes →
            IsTaken (network_on genesis S.verifies opened) self.old bytes (reply_of reply) self.new) }
        ensures whole { (genesis : Genesis) (opened : List Block) →
            IsWhole (network_on genesis S.verifies opened) self.old →
            IsWhole (network_on genesis S.verifies opened) self.new }
        ensures spelled { SpellsTransaction tx (text_of (item_of_transaction tx)) }
        ensures frame { self.new ≡ record self.old { mempool = self.new.mempool } }
        ensures err { OnErr result (self.new.mempool ≡ self.old.mempool) }
        ensures memory { OnErr result ((genesis : Genesis) (opened : List Block) →
            IsWhole (network_on genesis S.verifies opened) self.old →
            (bytes : List ℕ) → SpellsTransaction tx bytes → IsWantOf (network_on genesis S.verifies opened)
            (chain_of self.old.chain) self.old.mempool.waiting.txs bytes) }
    {
        let state = self.db.state();
        self.mempool
            .submit_checked(state.params(), state.slot() + 1, tx)
    }

    /// Why these bytes would be refused if they were submitted, with what that is about. None where they would be for
    /// no reason.
    pub fn explain(&self, bytes: &[u8]) -> Result<Option<Detail>, AllocError>
        ensures told { IfOk result (λ told. (genesis : Genesis) (opened : List Block) (s : State) →
            IsWhole (network_on genesis S.verifies opened) self.now →
            HasState (network_on genesis S.verifies opened) self.now s → self.now.mempool.waiting.txs ≡ s.mempool →
            ExplainsSubmission (network_on genesis S.verifies opened) s bytes.now (option_map detail_of told)) }
        ensures memory { OnErr result (IsWantAtSubmission bytes.now) }
    {
        let state = self.db.state();
        self.mempool
            .explain(state.params(), state.slot() + 1, bytes)
    }

    /// What these bytes would be answered at this slot if they were submitted, with what the reason is about.
    pub fn evaluate(&self, slot: u64, bytes: &[u8]) -> Result<Evaluation, AllocError>
        ensures told { IfOk result (λ told. (genesis : Genesis) (opened : List Block) (s : State) →
            IsWhole (network_on genesis S.verifies opened) self.now →
            HasState (network_on genesis S.verifies opened) self.now s → self.now.mempool.waiting.txs ≡ s.mempool →
            IsEvaluation (network_on genesis S.verifies opened) s slot bytes.now (evaluation_of told)) }
        ensures memory { OnErr result (IsWantAtSubmission bytes.now) }
    {
        let state = self.db.state();
        self.mempool.evaluate(state.params(), slot, bytes)
    }
}

//! What a shared core is asked about its chain's end, and about blocks and transactions.

ghost use Rattle.std.specs.Prelude.{◌≡◌, ◌↔◌, ◌⊎◌, length, map, Contains, IsTrue, MatchOption, IfOk, OnErr};
ghost use Rattle.std.specs.Option.{option_map};
ghost use Rattle.model.specs.Block.{block_hash_of};
ghost use Rattle.model.specs.Chain.{genesis_tip, tip_after, tip_point, NoneHas};
ghost use Rattle.model.specs.History.{live_of, IsFullFor};
ghost use Rattle.model.specs.Asked.{IsPlaceOf, IsTxPlaceOf, IsWhyOf, ExplainsSubmission};
ghost use Rattle.ident.specs.PointView.{point_of};
ghost use Rattle.utxo_rules.specs.DetailView.{detail_of};
ghost use Rattle.chain_core.specs.Asking.{place_of, tx_place_of};
ghost use Rattle.chain_core.specs.Census.{IsCensus};
ghost use Rattle.chain_core.specs.Ways.{why_of};
ghost use Rattle.shared.specs.Starts.{network_from};
ghost use Rattle.shared.specs.Asking.{IsAsked, AreFurthest};

use crate::caller::Caller;
use crate::handles::{copy_hashes, share_text};
use crate::room::Room;
use crate::shared::Shared;
use block::Block;
use chain_core::{Census, Place, TxPlace, Why};
use ident::{BlockHash, Point, TxId};
use std::alloc::{AllocError, Global};
use std::sync::Wait;
use utxo_rules::Detail;
use witness_pool::SigScheme;

/// Where a selected chain ends.
#[derive(Clone, Copy, Debug, PartialEq, Eq)]
pub struct ChainTip {
    /// Its last block, or the genesis point.
    pub point: Point,
    /// The slot of its last block, and 0 where it has none.
    pub slot: u64,
}

// The journal has nothing of a question: the caller has then seen all of it, and looked at the height. Where memory
// runs out it has not, and nothing changes.
impl<S: SigScheme, B: Room> Shared<S, B> {
    /// Where the selected chain ends, its point and its slot together: between [`Shared::tip`] and [`Shared::slot`]
    /// another block may come. Waits for the lock. In constant time; takes no memory.
    pub fn chain_tip<R: Wait>(&self, rt: &R, caller: &mut Caller<B>) -> ChainTip
        ensures { IsAsked (network_from B.start S.verifies) caller.old caller.new
            (λ s. (point_of result.point ≡ tip_point s.chain)
            × (result.slot ≡ (tip_after genesis_tip s.chain).slot)) }
    {
        let mut desk = self.desk.lock(rt);
        desk.tell(&self.heights, &mut caller.seat);
        let core = desk.core();
        ChainTip {
            point: core.tip(),
            slot: core.slot(),
        }
    }

    /// Where the block with this hash is, as [`chain_core::Core::place`] answers it. Waits for the lock. A look-up or
    /// two; takes no memory.
    pub fn place<R: Wait>(&self, rt: &R, caller: &mut Caller<B>, hash: BlockHash) -> Place
        ensures { IsAsked (network_from B.start S.verifies) caller.old caller.new
            (λ s. IsPlaceOf (network_from B.start S.verifies) s hash.bytes (place_of result)) }
    {
        let mut desk = self.desk.lock(rt);
        desk.tell(&self.heights, &mut caller.seat);
        desk.core().place(hash)
    }

    /// The block with this hash, without its transactions: that of the selected chain, or else the live one, and None
    /// where there is neither. It is shared with the core, and none of its bytes are copied; a block that is discarded
    /// or passed by later stays with who asked. Err where 2^63 - 1 owners share it already. Waits for the lock. A
    /// look-up or two; takes no memory.
    pub fn block_by_hash<R: Wait>(
        &self,
        rt: &R,
        caller: &mut Caller<B>,
        hash: BlockHash,
    ) -> Result<Option<Block>, AllocError>
        ensures block { IfOk result (λ found. IsAsked (network_from B.start S.verifies) caller.old caller.new
            (λ s. MatchOption found
            (NoneHas s.chain hash.bytes × NoneHas (live_of (network_from B.start S.verifies) s) hash.bytes)
            (λ b. (Contains s.chain b ⊎ Contains (live_of (network_from B.start S.verifies) s) b)
            × (block_hash_of b ≡ hash.bytes)))) }
        ensures err { OnErr result (caller.new ≡ caller.old) }
    {
        let mut desk = self.desk.lock(rt);
        let found = share_text(desk.core().block_by_hash(hash))?;
        desk.tell(&self.heights, &mut caller.seat);
        Ok(found)
    }

    /// Where the transaction with this identifier stands: at its position in the mempool, or else in the last of the
    /// last k blocks of the selected chain that has it. Waits for the lock, and holds it while the mempool is walked
    /// and the identifiers in these blocks are compared; takes no memory.
    pub fn transaction<R: Wait>(&self, rt: &R, caller: &mut Caller<B>, id: TxId) -> TxPlace
        ensures { IsAsked (network_from B.start S.verifies) caller.old caller.new
            (λ s. IsTxPlaceOf (network_from B.start S.verifies) s id.bytes (tx_place_of result)) }
    {
        let mut desk = self.desk.lock(rt);
        desk.tell(&self.heights, &mut caller.seat);
        desk.core().transaction(id)
    }

    /// Why the block with this hash isn't selected: the first reason that applies, as [`chain_core::Core::why`] answers
    /// it. Err where memory runs out. Waits for the lock, and holds it for what that call costs, up to judging all
    /// blocks that lead back from this one to the chain: arrivals wait meanwhile, so who serves others bounds how often
    /// they may ask.
    pub fn why<R: Wait>(
        &self,
        rt: &R,
        caller: &mut Caller<B>,
        hash: BlockHash,
    ) -> Result<Why, AllocError>
        ensures why { IfOk result (λ why. IsAsked (network_from B.start S.verifies) caller.old caller.new
            (λ s. IsWhyOf (network_from B.start S.verifies) s hash.bytes (why_of why))) }
        ensures err { OnErr result (caller.new ≡ caller.old) }
    {
        let mut desk = self.desk.lock(rt);
        let found = desk.core().why(hash)?;
        desk.tell(&self.heights, &mut caller.seat);
        Ok(found)
    }

    /// Why these bytes would be refused if they were submitted now: the reason against the transaction, with what it is
    /// about; None where a submission would be refused for no reason, as [`chain_core::Core::explain_submission`] says.
    /// Err where memory runs out. Waits for the lock, and holds it for what that call costs, which is linear in the
    /// bytes.
    pub fn explain_submission<R: Wait>(
        &self,
        rt: &R,
        caller: &mut Caller<B>,
        bytes: &[u8],
    ) -> Result<Option<Detail>, AllocError>
        ensures told { IfOk result (λ told. IsAsked (network_from B.start S.verifies) caller.old caller.new
            (λ s. ExplainsSubmission (network_from B.start S.verifies) s bytes.now (option_map detail_of told))) }
        ensures err { OnErr result (caller.new ≡ caller.old) }
    {
        let mut desk = self.desk.lock(rt);
        let found = desk.core().explain_submission(bytes)?;
        desk.tell(&self.heights, &mut caller.seat);
        Ok(found)
    }

    /// How much the core holds, all at one moment, as [`chain_core::Core::census`] says. Waits for the lock. In constant
    /// time; takes no memory.
    pub fn census<R: Wait>(&self, rt: &R, caller: &mut Caller<B>) -> Census
        ensures { IsAsked (network_from B.start S.verifies) caller.old caller.new
            (λ s. IsCensus (network_from B.start S.verifies) s result) }
    {
        let mut desk = self.desk.lock(rt);
        desk.tell(&self.heights, &mut caller.seat);
        desk.core().census()
    }

    /// How many live blocks there are, as [`chain_core::Core::live_blocks`] counts them. Waits for the lock. In
    /// constant time; takes no memory.
    pub fn live_blocks<R: Wait>(&self, rt: &R, caller: &mut Caller<B>) -> u64
        ensures { IsAsked (network_from B.start S.verifies) caller.old caller.new
            (λ s. result ≡ length (live_of (network_from B.start S.verifies) s)) }
    {
        let mut desk = self.desk.lock(rt);
        desk.tell(&self.heights, &mut caller.seat);
        desk.core().live_blocks()
    }

    /// Whether there is no place for a live block of `size` bytes more, as [`chain_core::Core::is_full_for`] says.
    /// Waits for the lock. In constant time; takes no memory.
    pub fn is_full_for<R: Wait>(&self, rt: &R, caller: &mut Caller<B>, size: usize) -> bool
        ensures { IsAsked (network_from B.start S.verifies) caller.old caller.new
            (λ s. IsTrue result ↔ IsFullFor (network_from B.start S.verifies) s size) }
    {
        let mut desk = self.desk.lock(rt);
        desk.tell(&self.heights, &mut caller.seat);
        desk.core().is_full_for(size)
    }

    /// The hashes of the live blocks that no way leads to, as [`chain_core::Core::unconnected`] finds them, those with
    /// the greatest numbers first, and at most `most` of them. Err where memory runs out. Waits for the lock, and holds
    /// it for a step for each of them and for each block that is passed over, whose time grows with the logarithm of
    /// the number of live blocks.
    pub fn unconnected<R: Wait>(
        &self,
        rt: &R,
        caller: &mut Caller<B>,
        alloc: Global,
        most: usize,
    ) -> Result<Vec<BlockHash>, AllocError>
        ensures hashes { IfOk result (λ hashes. IsAsked (network_from B.start S.verifies) caller.old caller.new
            (λ s. AreFurthest (network_from B.start S.verifies) s most (map (λ h. h.bytes) hashes.items))) }
        ensures err { OnErr result (caller.new ≡ caller.old) }
    {
        let mut desk = self.desk.lock(rt);
        let hashes = copy_hashes(alloc, desk.core().unconnected(), most)?;
        desk.tell(&self.heights, &mut caller.seat);
        Ok(hashes)
    }
}

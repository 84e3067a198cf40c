//! What is told of blocks and transactions.

ghost use Rattle.std.specs.Prelude.{◌≡◌, map, IfOk, OnErr};
ghost use Rattle.std.specs.Arc.{arc_value};
ghost use Rattle.model.specs.Transaction.{transaction_id_of};
ghost use Rattle.conversing.specs.RequestView.{id_view};
ghost use Rattle.ledger.specs.View.{fault_of};
ghost use Rattle.chain_core.specs.Asking.{tx_place_of};
ghost use Rattle.chain_core.specs.Ways.{why_of};
ghost use Rattle.shared.specs.Starts.{network_from};
ghost use Rattle.serving.specs.Lanes.{HasLooked};
ghost use Rattle.serving.specs.Replies.{Replies};
ghost use Rattle.serving.specs.BlockTelling.{IsToldAs, IsFinding, TellsBlockAt, TellsBlockOf, TellsStanding};
ghost use Rattle.serving.specs.BlockTelling.{TellsMempool, TellsWhy, IsFaultTold, IsCauseOf, place_told};

use crate::node::Node;
use crate::pending_reply::PendingReply;
use crate::reasons::{told_fault, told_reason};
use block::Block;
use chain_core::{TxPlace, Why};
use conversing::{Cause, Found, Outcome, Standing, ToldBlock};
use ident::{BlockHash, TxId};
use ledger::BlockFault;
use shared::{Caller, Room};
use std::alloc::{AllocError, Global};
use std::sync::{Arc, Wait};
use witness_pool::{CheckedTx, SigScheme};

/// A block as it is told.
pub fn told_block(block: &Block) -> ToldBlock<'_>
    ensures { IsToldAs block.now result }
{
    let hash = block.hash().bytes;
    ToldBlock {
        number: block.number(),
        slot: block.slot(),
        hash,
        bytes: block.bytes(),
    }
}

/// What tells that no block was found.
const NO_BLOCK: Outcome<'static> = Outcome::Answered(Found::NoBlock);

/// What tells a block that was found.
fn found_block(block: &Block) -> Outcome<'_>
    ensures { IsFinding (Some block.now) result }
{
    let told = told_block(block);
    Outcome::Answered(Found::Block(told))
}

/// Where a transaction stands, as it is told.
fn standing_of(place: TxPlace) -> Standing
    ensures { place_told result ≡ tx_place_of place }
{
    match place {
        TxPlace::Waits(position) => Standing::Waits(position),
        TxPlace::Block { number, index } => Standing::Block { number, index },
        TxPlace::Unknown => Standing::Unknown,
    }
}

/// The identifier of a transaction that is shared.
fn id_of<S: SigScheme>(handle: &Arc<CheckedTx<S>>) -> [u8; 32]
    ensures { result ≡ transaction_id_of (arc_value handle.now) }
{
    handle.tx().id().bytes
}

/// The identifiers of transactions, in their order.
fn ids_of<S: SigScheme>(
    alloc: Global,
    handles: &[Arc<CheckedTx<S>>],
) -> Result<Vec<[u8; 32]>, AllocError>
    ensures { IfOk result (λ ids. ids.items ≡ map (λ handle. transaction_id_of (arc_value handle)) handles.now) }
{
    let mut ids = Vec::with_capacity(alloc, handles.len())?;
    for handle in handles {
        ids.push(id_of(handle))?;
    }
    Ok(ids)
}

/// What is said against the block of this hash, as it is told.
fn fault_told(hash: BlockHash, fault: BlockFault) -> Cause<'static>
    ensures { IsFaultTold (fault_of fault) hash.bytes result }
{
    let hash = hash.bytes;
    match fault {
        BlockFault::TxFault(index, reason) => Cause::InvalidTransaction {
            hash,
            index: index as u64,
            reason: told_reason(reason),
        },
        _ => Cause::Invalid {
            hash,
            reason: told_fault(fault),
        },
    }
}

/// Why a block isn't selected, as it is told.
fn cause_of(why: Why) -> Cause<'static>
    ensures { IsCauseOf (why_of why) result }
{
    match why {
        Why::Unknown => Cause::Unknown,
        Why::Selected => Cause::Selected,
        Why::Waits(hash) => Cause::Waits(hash.bytes),
        Why::Misfit(hash) => Cause::Misfit(hash.bytes),
        Why::Invalid(hash, fault) => fault_told(hash, fault),
        Why::NotLonger => Cause::NotLonger,
    }
}

impl<S: SigScheme, B: Room, R: Wait> Node<'_, S, B, R> {
    /// The reply to `queryBlock` with a number. Err where the block has too many owners, and then nothing changes.
    pub fn tell_block_at(
        &self,
        caller: &mut Caller<B>,
        number: u64,
        reply: PendingReply,
    ) -> Result<Vec<u8>, AllocError>
        ensures ok { IfOk result (λ line. let network = network_from B.start S.verifies in Replies (id_view reply.id)
            (TellsBlockAt network number caller.old caller.new) (HasLooked network caller.old caller.new)
            line.items) }
        ensures err { OnErr result (caller.new ≡ caller.old) }
    {
        let found = self.shared.block(self.rt, caller, number)?;
        match &found {
            Some(block) => {
                let outcome = found_block(block.block());
                Ok(reply.tell(&outcome))
            }
            None => Ok(reply.tell(&NO_BLOCK)),
        }
    }

    /// The reply to `queryBlock` with a hash. Err where the block has too many owners, and then nothing changes.
    pub fn tell_block_of(
        &self,
        caller: &mut Caller<B>,
        hash: [u8; 32],
        reply: PendingReply,
    ) -> Result<Vec<u8>, AllocError>
        ensures ok { IfOk result (λ line. let network = network_from B.start S.verifies in Replies (id_view reply.id)
            (TellsBlockOf network hash caller.old caller.new) (HasLooked network caller.old caller.new)
            line.items) }
        ensures err { OnErr result (caller.new ≡ caller.old) }
    {
        let hash = BlockHash::from_bytes(hash);
        let found = self.shared.block_by_hash(self.rt, caller, hash)?;
        match &found {
            Some(block) => {
                let outcome = found_block(block);
                Ok(reply.tell(&outcome))
            }
            None => Ok(reply.tell(&NO_BLOCK)),
        }
    }

    /// The reply to `queryTransaction`.
    pub fn tell_standing(
        &self,
        caller: &mut Caller<B>,
        id: [u8; 32],
        reply: PendingReply,
    ) -> Vec<u8>
        ensures { let network = network_from B.start S.verifies in Replies (id_view reply.id)
            (TellsStanding network id caller.old caller.new) (HasLooked network caller.old caller.new) result.items }
    {
        let id = TxId::from_bytes(id);
        let place = self.shared.transaction(self.rt, caller, id);
        let standing = standing_of(place);
        reply.tell(&Outcome::Answered(Found::Transaction(standing)))
    }

    /// The reply to `queryMempool`. Err where memory runs out before it was asked, and then nothing changes.
    pub fn tell_mempool(
        &self,
        caller: &mut Caller<B>,
        reply: PendingReply,
    ) -> Result<Vec<u8>, AllocError>
        ensures ok { IfOk result (λ line. let network = network_from B.start S.verifies in Replies (id_view reply.id)
            (TellsMempool network caller.old caller.new) (HasLooked network caller.old caller.new) line.items) }
        ensures err { OnErr result (caller.new ≡ caller.old) }
    {
        let handles = self.shared.mempool(self.rt, caller, self.alloc)?;
        match ids_of(self.alloc, &handles) {
            Ok(ids) => Ok(reply.tell(&Outcome::Answered(Found::Mempool(&ids)))),
            Err(AllocError) => Ok(reply.fail()),
        }
    }

    /// The reply to `why`. Err where memory runs out before it was known, and then nothing changes.
    pub fn tell_why(
        &self,
        caller: &mut Caller<B>,
        hash: [u8; 32],
        reply: PendingReply,
    ) -> Result<Vec<u8>, AllocError>
        ensures ok { IfOk result (λ line. let network = network_from B.start S.verifies in Replies (id_view reply.id)
            (TellsWhy network hash caller.old caller.new) (HasLooked network caller.old caller.new) line.items) }
        ensures err { OnErr result (caller.new ≡ caller.old) }
    {
        let hash = BlockHash::from_bytes(hash);
        let why = self.shared.why(self.rt, caller, hash)?;
        let cause = cause_of(why);
        Ok(reply.tell(&Outcome::Answered(Found::Why(cause))))
    }
}

//! Where a transaction stands.

ghost use Rattle.std.specs.Prelude.{◌≡◌, ◌↔◌, IsTrue, MatchOption};
ghost use Rattle.model.specs.Transaction.{transaction_id_of};
ghost use Rattle.model.specs.Ledger.{Network};
ghost use Rattle.model.specs.History.{State};
ghost use Rattle.model.specs.Asked.{NoTxHas, IsFirstAt, IsLastWith, NoLateBlockHas, IsTxPlaceOf};
ghost use Rattle.chain_core.specs.Asking.{tx_place_of};
ghost use Rattle.chain_core.specs.ChainDbs.{IsWhole, HasState};

use crate::chain_db::ChainDb;
use block::CheckedBlock;
use ident::TxId;
use mempool::Mempool;
use witness_pool::{CheckedTx, SigScheme};

/// Where a transaction stands.
#[derive(Clone, Copy, Debug, PartialEq, Eq)]
pub enum TxPlace {
    /// In the mempool, at this position, counted from 0.
    Waits(u64),
    /// In a block of the selected chain.
    Block {
        /// The number of the block.
        number: u64,
        /// Its place among the block's transactions, counted from 0.
        index: u64,
    },
    /// In neither of these.
    Unknown,
}

/// Whether the transaction has this identifier.
fn has_id<S: SigScheme>(tx: &CheckedTx<S>, id: TxId) -> bool
    ensures { IsTrue result ↔ (transaction_id_of tx.now ≡ id.bytes) }
{
    tx.tx().id() == id
}

/// The position of the first transaction of the mempool with this identifier. Walks the mempool.
fn position_in<S: SigScheme>(mempool: &Mempool<S>, id: TxId) -> Option<u64>
    ensures { MatchOption result (NoTxHas mempool.now.waiting.txs id.bytes)
        (IsFirstAt mempool.now.waiting.txs id.bytes) }
{
    let _most = mempool.len(); // a position is below this, and fits
    let mut position = 0;
    for tx in mempool.iter() {
        if has_id(tx, id) {
            return Some(position);
        }
        position += 1;
    }
    None
}

/// The index of the first of the transactions with this identifier.
fn index_in<S: SigScheme>(transactions: &[CheckedTx<S>], id: TxId) -> Option<u64>
    ensures { MatchOption result (NoTxHas transactions.now id.bytes) (IsFirstAt transactions.now id.bytes) }
{
    for (index, tx) in transactions.iter().enumerate() {
        if has_id(tx, id) {
            return Some(index as u64);
        }
    }
    None
}

/// The last block of the chain that has the transaction of this identifier, of the last `depth` ones: its number, and
/// the index of the transaction in it. Compares the identifiers of these blocks one by one, from the last block on.
fn last_with<S: SigScheme>(chain: &[CheckedBlock<S>], depth: u64, id: TxId) -> Option<(u64, u64)>
    ensures { MatchOption result (NoLateBlockHas depth chain.now id.bytes)
        (λ found. IsLastWith depth chain.now id.bytes found.0 found.1) }
{
    let from = (chain.len() as u64).saturating_sub(depth) as usize;
    for place in (from..chain.len()).rev() {
        if let Some(index) = index_in(chain[place].transactions(), id) {
            return Some((place as u64 + 1, index));
        }
    }
    None
}

/// Where the transaction with this identifier stands, where blocks are rolled back no further than `k`.
pub fn tx_place_in<S: SigScheme>(chain_db: &ChainDb<S>, k: u64, id: TxId) -> TxPlace
    ensures { (network : Network) (s : State) → k ≡ network.genesis.k → IsWhole network chain_db.now
        → HasState network chain_db.now s → chain_db.now.mempool.waiting.txs ≡ s.mempool
        → IsTxPlaceOf network s id.bytes (tx_place_of result) }
{
    if let Some(position) = position_in(&chain_db.mempool, id) {
        return TxPlace::Waits(position);
    }
    match last_with(chain_db.in_memory(), k, id) {
        Some((number, index)) => TxPlace::Block { number, index },
        None => TxPlace::Unknown,
    }
}

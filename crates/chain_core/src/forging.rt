//! Forging: the block that comes next on the selected chain, of what waits in the mempool.

ghost use Rattle.std.specs.Prelude.{◌≡◌, List, IfOk, IfErr};
ghost use Rattle.model.specs.Block.{Block};
ghost use Rattle.model.specs.Genesis.{Genesis, IsGenesis};
ghost use Rattle.model.specs.Ledger.{network_on};
ghost use Rattle.chain.specs.Chained.{chain_of};
ghost use Rattle.chain_core.specs.ChainDbs.{IsWhole};
ghost use Rattle.chain_core.specs.ForgedBlocks.{IsForgedAs, IsForgeFault};
ghost use Rattle.chain_core.specs.declared.forging.ForgeFault.TheVariants as fault;

use crate::chain_db::ChainDb;
use block::NUMBER_LIMIT;
use ident::Point;
use std::alloc::{AllocError, Global};
use thiserror::Error;
use witness_pool::SigScheme;

/// A block that was forged.
#[derive(Debug, Drop)]
pub struct Forged {
    /// Its text (RFC 8949, section 4.2.1).
    pub bytes: Vec<u8>,
    /// Its place on the chain: its number and its hash.
    pub point: Point,
}

/// Why no block is forged, in the order in which the reasons are looked for.
#[derive(Clone, Copy, Debug, PartialEq, Eq, Error)]
pub enum ForgeFault {
    /// The slot isn't greater than the tip's.
    #[error("the slot isn't after the tip's")]
    SlotNotAfterTip,
    /// The slot, or the number that comes after the tip's, is 2^63 or more.
    #[error("the slot or the block's number is 2^63 or more")]
    OutOfRange,
    /// Memory ran out, and neither of the others applies.
    #[error("out of memory")]
    OutOfMemory,
}

impl From<AllocError> for ForgeFault {
    ghost from_gives = { λ _ e. e ≡ fault.OutOfMemory };

    fn from(_error: AllocError) -> ForgeFault {
        ForgeFault::OutOfMemory
    }
}

/// The block that comes next on the chain in this slot, with what it takes of the mempool, or why there is none.
pub fn forge<S: SigScheme>(
    alloc: Global,
    chain_db: &ChainDb<S>,
    slot: u64,
) -> Result<Forged, ForgeFault>
    ensures forged { IfOk result (λ f. (genesis : Genesis) (opened : List Block) → IsGenesis genesis
        → IsWhole (network_on genesis S.verifies opened) chain_db.now
        → IsForgedAs (network_on genesis S.verifies opened) (chain_of chain_db.now.chain)
        chain_db.now.mempool.waiting.txs slot f.bytes.items f.point) }
    ensures fault { IfErr result (λ e. (genesis : Genesis) (opened : List Block) →
        IsWhole (network_on genesis S.verifies opened) chain_db.now →
        IsForgeFault (network_on genesis S.verifies opened) (chain_of chain_db.now.chain) slot e) }
{
    let state = chain_db.state();
    if slot <= state.slot() {
        return Err(ForgeFault::SlotNotAfterTip);
    }
    let number = (chain_db.chain.len() as u64).saturating_add(1); // where it saturates it is out of range
    if slot >= NUMBER_LIMIT || number >= NUMBER_LIMIT {
        return Err(ForgeFault::OutOfRange);
    }
    let body = chain_db
        .mempool
        .forged_body(state.params(), state.utxo(), slot)?;
    let previous = chain_db.chain.tip().hash;
    // Number and slot were looked at.
    let Ok((bytes, hash)) = block::write_with_body(alloc, number, slot, previous, &body) else {
        return Err(ForgeFault::OutOfMemory);
    };
    Ok(Forged {
        bytes,
        point: Point { number, hash },
    })
}

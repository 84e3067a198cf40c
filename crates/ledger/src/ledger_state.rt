//! The state that blocks are applied to.

ghost use Rattle.std.specs.Prelude.{◌≡◌, ◌↔◌, ◌+◌, ◌<◌, List, [], replicate, unwrap_or, IsTrue, IfOk};
ghost use Rattle.std.specs.List.{AllByRecursion};
ghost use Rattle.model.specs.Limits.{hash_size, number_limit};
ghost use Rattle.model.specs.Signature.{Verifies};
ghost use Rattle.model.specs.Utxo.{outputs_of, coin_of};
ghost use Rattle.model.specs.Genesis.{supply_of};
ghost use Rattle.model.specs.Block.{Block, IsBlock};
ghost use Rattle.model.specs.Ledger.{Network, network_of};
ghost use Rattle.model.specs.Chain.{Follows};
ghost use Rattle.model.specs.Applying.{opening_state, IsStateOf};
ghost use Rattle.utxo_rules.specs.View.{params_of};

use crate::opening::open_utxo;
use block::{Block, Tip};
use genesis::Genesis;
use ident::Point;
use std::alloc::{AllocError, Global};
use std::marker::Model;
use utxo_rules::{Params, Utxo};

/// What a chain leaves: its unspent outputs, its fees and where it ends, with what the network asks of the next block.
/// A copy takes no memory and shares what the two have in common, so that a program can keep thousands of states. What
/// the outputs hold and the fees are less than 2^63 lovelace together.
#[derive(Drop)]
pub struct LedgerState {
    pub(crate) alloc: Global,
    pub(crate) params: Params,
    pub(crate) utxo: Utxo,
    pub(crate) fees: u64,
    pub(crate) tip: Tip,
}

impl Model for LedgerState {
    ghost use Rattle.model.specs.Applying as model;
    ghost use Rattle.model.specs.Codes.{coded_ledger_state};

    ghost Value = { model.LedgerState };

    ghost coded = { coded_ledger_state };

    ghost use Rattle.ledger.specs.Held.{ledger_state_of, IsHeldState};

    ghost view = { ledger_state_of };

    ghost invariant = { IsHeldState };
}

impl LedgerState {
    /// The state before the first block: the outputs of the genesis stand at 32 zero bytes, counted from 0, and there
    /// are no fees. Err where memory runs out. Takes one insertion for each output.
    pub fn new(alloc: Global, genesis: &Genesis) -> Result<LedgerState, AllocError>
        ensures opening { IfOk result (λ state. state ≡ opening_state genesis.now) }
        // It is that of the chain without a block, whatever the scheme of signatures.
        ensures chain { IfOk result (λ state. (verifies : Verifies) →
            IsStateOf (network_of genesis.now verifies) [] state) }
    {
        Ok(LedgerState {
            alloc,
            params: *genesis.params(),
            utxo: open_utxo(alloc, genesis)?,
            fees: 0,
            tip: Tip::genesis(),
        })
    }

    /// What the network asks of transactions and blocks.
    pub fn params(&self) -> &Params
        ensures { params_of result.now ≡ self.now.params }
    {
        &self.params
    }

    /// The unspent outputs. Copies nothing.
    pub fn utxo(&self) -> &Utxo
        ensures { result.now ≡ self.now.ledger.utxo }
    {
        &self.utxo
    }

    /// The fees of all transactions so far, in lovelace. With what the unspent outputs hold they are below 2^63.
    pub fn fees(&self) -> u64
        ensures fees { result ≡ self.now.ledger.fees }
        ensures small { coin_of (outputs_of self.now.ledger.utxo) + self.now.ledger.fees < number_limit }
        // With what the unspent outputs hold they are what the genesis of the chain granted.
        ensures supply { (network : Network) (chain : List Block) → AllByRecursion IsBlock chain
            → IsStateOf network chain self.now
            → coin_of (outputs_of self.now.ledger.utxo) + result ≡ supply_of network.genesis }
    {
        self.fees
    }

    /// The slot of the last block, and 0 before the first.
    pub fn slot(&self) -> u64
        ensures slot { result ≡ self.now.tip.slot }
        ensures small { result < number_limit }
    {
        self.tip.slot
    }

    /// Where the chain ends: the number and hash of the last block, or the genesis point.
    pub fn tip(&self) -> Point
        ensures number { result.number ≡ self.now.tip.number }
        ensures hash { result.hash.bytes ≡ unwrap_or self.now.tip.hash (replicate hash_size 0) }
    {
        match self.tip.hash {
            Some(hash) => Point {
                number: self.tip.number,
                hash,
            },
            None => Point {
                number: self.tip.number,
                hash: Point::genesis().hash,
            },
        }
    }

    /// Whether the block may come next, by its header alone: it has the number after that of the last block, names that
    /// one as the block before it, and has a later slot. Takes no memory.
    pub fn precedes(&self, block: &Block) -> bool
        ensures { IsTrue result ↔ Follows self.now.tip block.now }
    {
        self.tip.precedes(block)
    }

    /// The same state again, in constant time and with no memory. Err where 2^63 copies share its outputs already.
    pub fn try_clone(&self) -> Result<LedgerState, AllocError>
        ensures { IfOk result (λ copy. copy ≡ self.now) }
    {
        Ok(LedgerState {
            alloc: self.alloc,
            params: self.params,
            utxo: self.utxo.try_clone()?,
            fees: self.fees,
            tip: self.tip,
        })
    }
}

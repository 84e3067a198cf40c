//! An index of what keys have.

ghost use Rattle.std.specs.Prelude.{◌≡◌, ◌≢◌, ◌++◌, Some, None, IfOk, IfErr, OnOk, OnErr, map, List, ℕ};
ghost use Rattle.chain_core.specs.Views.{instruction_of, next_reply_of};
ghost use Rattle.watching.specs.Chains.{Watched};
ghost use Rattle.watching.specs.Ledgers.{IsTaken};
ghost use Rattle.script.specs.RequestView.{key_address_of};
ghost use Rattle.watching.specs.declared.watch_fault.WatchFault.TheVariants as fault;
ghost use Rattle.scenario.specs.Indexes.{AreBalancesText, IsIndexAfter, first_index, outputs_of_keys};
ghost use Rattle.scenario.specs.IndexView.{key_index_of};

use crate::balance::balance_lines;
use block::Tip;
use chain_core::{Instruction, NextFault};
use genesis::Genesis;
use ledger::LedgerState;
use script::{KeyAddress, Name, Owner};
use std::alloc::{AllocError, Global};
use watching::{Watch, WatchFault, Which};
use witness_pool::SigScheme;

/// An index beside a follower, and the keys of which it tells what they have. Of outputs it
/// keeps only those of these keys.
pub struct KeyIndex {
    index: Watch,
    keys: Vec<KeyAddress>,
}

// By hand, so that each exit calls it: the derived one is copied to each exit of each owner.
impl Drop for KeyIndex {
    fn drop(self) {
        let KeyIndex { index: _, keys: _ } = self;
    }
}

/// The outputs of these keys.
fn outputs_of(alloc: Global, keys: &[KeyAddress]) -> Result<Which, AllocError>
    ensures { IfOk result (λ which. which ≡ outputs_of_keys (map key_address_of keys.now)) }
{
    let mut addresses = Vec::new(alloc);
    for key in keys {
        addresses.push(key.address)?;
    }
    Which::addresses(alloc, &addresses)
}

/// The index takes an instruction.
fn follow<S: SigScheme>(index: &mut Watch, instruction: &Instruction<S>) -> Result<(), WatchFault>
    ensures taken { OnOk result (IsTaken index.old (instruction_of (Some instruction.now)) index.new) }
    ensures lost { IfErr result (λ why. why ≢ fault.OutOfMemory
        → (next : Watched) → IsTaken index.old (instruction_of (Some instruction.now)) next → ⊥) }
{
    match instruction {
        Instruction::AddBlock(block) => {
            // What says that a block was read is the clause on its bytes.
            let _text = block.bytes();
            index.add_block(block)
        }
        Instruction::RollBack(point) => index.roll_back(point),
    }
}

impl KeyIndex {
    /// An index before the first block. Takes one insertion for each output that the genesis grants; those of other
    /// owners are then let go.
    pub fn new(
        alloc: Global,
        genesis: &Genesis,
        keys: Vec<KeyAddress>,
    ) -> Result<KeyIndex, AllocError>
        ensures { IfOk result (λ index.
            key_index_of index ≡ first_index genesis.now (map key_address_of keys.items)) }
    {
        let which = outputs_of(alloc, &keys)?;
        let state = LedgerState::new(alloc, genesis)?;
        let index = Watch::new(alloc, Tip::genesis(), state.utxo(), genesis.k(), which)?;
        Ok(KeyIndex { index, keys })
    }

    /// Takes what its follower was told, if that was told something.
    pub fn take<S: SigScheme>(
        &mut self,
        reply: &Result<Option<Instruction<S>>, NextFault>,
    ) -> Result<(), WatchFault>
        ensures taken { OnOk result
            (IsIndexAfter (Some (key_index_of self.old)) (next_reply_of reply.now) (Some (key_index_of self.new))) }
        ensures lost { IfErr result (λ why. why ≢ fault.OutOfMemory
            → IsIndexAfter (Some (key_index_of self.old)) (next_reply_of reply.now) None) }
    {
        match reply {
            Ok(Some(instruction)) => follow(&mut self.index, instruction),
            Ok(None) | Err(_) => Ok(()),
        }
    }

    /// Appends what each of its keys has, as the question `balance` prints it. Looks at the outputs of each key.
    pub fn print(&self, alloc: Global, line: &mut Vec<u8>) -> Result<(), AllocError>
        ensures { OnOk result ((text : List ℕ) × AreBalancesText self.now.index.last.tables.outputs
            (map key_address_of self.now.keys.items) text × (line.new.items ≡ line.old.items ++ text)) }
    {
        for key in &self.keys {
            let name = Name { text: &key.name };
            let outputs = self.index.outputs(&key.address);
            let lines = balance_lines(alloc, outputs, Owner::Key(name), &key.address)?;
            line.extend_from_slice(&lines)?;
        }
        Ok(())
    }
}

//! What an index tells of transactions, beside a walk through the chain of a core.

use block::CheckedBlock;
use chain_core::{Core, TxPlace};
use ident::TxId;
use tx::{Address, Input, Tx};
use watching::{Inclusion, Watch};
use witness_pool::{CheckedTx, TestScheme};

/// The transaction of this place in the block of this number of the core's chain.
fn at(core: &Core<TestScheme>, number: u64, index: u64) -> Option<&CheckedTx<TestScheme>> {
    let block = core.block(number)?;
    block.transactions().get(usize::try_from(index).ok()?)
}

/// Whose output the input spends: that of a transaction of the core's chain, or else of the genesis, which granted
/// outputs of one address.
fn spent_from(core: &Core<TestScheme>, input: &Input, granted: &Address) -> Option<Address> {
    match core.transaction(input.transaction) {
        TxPlace::Block { number, index } => {
            let made = at(core, number, index)?.tx().outputs();
            Some(made.get(usize::from(input.index))?.address)
        }
        _ => Some(*granted),
    }
}

/// Whether the transaction spends an output of the address, or makes one.
fn concerns(core: &Core<TestScheme>, tx: &Tx, address: &Address, granted: &Address) -> bool {
    let mut is = false;
    for input in tx.inputs() {
        is |= spent_from(core, input, granted) == Some(*address);
    }
    for output in tx.outputs() {
        is |= output.address == *address;
    }
    is
}

/// Whether the core's chain has this transaction there, and it concerns the address.
fn is_right(
    core: &Core<TestScheme>,
    (inclusion, id): &(Inclusion, TxId),
    address: &Address,
    granted: &Address,
) -> Option<bool> {
    let block = core.block(inclusion.number)?;
    let tx = at(core, inclusion.number, inclusion.index)?.tx();
    let same = block.slot() == inclusion.slot && tx.id() == *id;
    Some(same && concerns(core, tx, address, granted))
}

/// Whether the history of the address has this entry once, and others are right.
fn has_entry(
    core: &Core<TestScheme>,
    watch: &Watch,
    entry: &(Inclusion, TxId),
    address: &Address,
    granted: &Address,
) -> bool {
    let mut same = true;
    let mut times: u64 = 0;
    for told in watch.history(address).iter() {
        same &= is_right(core, &told, address, granted) == Some(true);
        if told == *entry {
            times = times.saturating_add(1);
        }
    }
    same && times == 1
}

/// Whether the index has the transaction by itself, and in the history of each address that it concerns.
fn has_transaction(
    core: &Core<TestScheme>,
    watch: &Watch,
    tx: &Tx,
    inclusion: Inclusion,
    granted: &Address,
) -> bool {
    let entry = (inclusion, tx.id());
    let mut same = watch.transaction(&entry.1) == Some(inclusion);
    for input in tx.inputs() {
        same &= match spent_from(core, input, granted) {
            Some(address) => has_entry(core, watch, &entry, &address, granted),
            None => false,
        };
    }
    for output in tx.outputs() {
        same &= has_entry(core, watch, &entry, &output.address, granted);
    }
    same
}

/// Whether the index has the transactions of this block.
fn has_block(
    core: &Core<TestScheme>,
    watch: &Watch,
    block: &CheckedBlock<TestScheme>,
    granted: &Address,
) -> bool {
    let mut same = true;
    for (index, tx) in block.transactions().iter().enumerate() {
        let inclusion = Inclusion {
            number: block.number(),
            slot: block.slot(),
            index: index as u64,
        };
        same &= has_transaction(core, watch, tx.tx(), inclusion, granted);
    }
    same
}

/// Whether the index has the transactions of the core's chain, where a genesis granted outputs of this address alone.
pub fn has_blocks(core: &Core<TestScheme>, watch: &Watch, granted: &Address) -> bool {
    let mut same = true;
    for block in core.blocks(1) {
        same &= has_block(core, watch, block, granted);
    }
    same
}

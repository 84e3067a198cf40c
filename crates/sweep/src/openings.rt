//! A genesis that is read, and a core that is opened on blocks.

use crate::network::{DOCUMENT, bytes_of, genesis, names};
use crate::notes::put_numbers;
use crate::told::Told;
use chain_core::{Core, ReopenFault};
use genesis::{Genesis, GenesisFault};
use std::alloc::Global;
use witness_pool::TestScheme;

/// Reads the genesis, and tells its supply and how many outputs it has. Answers whether there was memory.
fn tells_genesis(alloc: Global, told: &mut Told) -> bool {
    let read = Genesis::from_toml(alloc, DOCUMENT);
    let answers = !matches!(&read, Err(GenesisFault::OutOfMemory));
    match &read {
        Ok(genesis) => {
            let supply = genesis.supply();
            let outputs = genesis.outputs().len();
            let _ = write!(told.text(), "supply {supply}, {outputs} outputs\n");
        }
        Err(fault) if answers => {
            let _ = write!(told.text(), "{fault}\n");
        }
        Err(_) => (),
    }
    answers
}

/// Reads a genesis.
pub fn tell_genesis(alloc: Global, told: &mut Told) {
    if !tells_genesis(alloc, told) {
        told.refused();
        if !tells_genesis(alloc, told) {
            told.put("out of memory\n");
        }
    }
}

/// The blocks that a core is opened on.
const BLOCKS: [&str; 3] = ["A1", "A2", "A3"];

/// What is handed in, twice.
#[derive(Drop)]
struct HandedIn {
    genesis: Genesis,
    again: Genesis,
    texts: Vec<Vec<u8>>,
}

/// The texts of the blocks, where memory lasts.
fn texts(alloc: Global) -> Option<Vec<Vec<u8>>> {
    let names = names(alloc)?;
    let mut texts = Vec::new(alloc);
    for name in &BLOCKS {
        texts.push(bytes_of(alloc, &names, *name)?).ok()?;
    }
    Some(texts)
}

/// What is handed in, where memory lasts.
fn given(alloc: Global) -> Option<HandedIn> {
    let genesis = genesis(alloc)?;
    let again = genesis.try_clone().ok()?;
    let texts = texts(alloc)?;
    Some(HandedIn {
        genesis,
        again,
        texts,
    })
}

/// Tells why no core was opened. Answers whether there was memory.
fn tells_fault(fault: ReopenFault, told: &mut Told) -> bool {
    if fault == ReopenFault::OutOfMemory {
        return false;
    }
    let _ = write!(told.text(), "{fault}\n");
    true
}

/// Opens a core on the texts, and tells its numbers. Answers whether there was memory.
fn tells_core(alloc: Global, genesis: Genesis, texts: &[Vec<u8>], told: &mut Told) -> bool {
    match Core::<TestScheme>::reopen(alloc, genesis, texts) {
        Ok(core) => {
            put_numbers(told.text(), &core);
            true
        }
        Err(fault) => tells_fault(fault, told),
    }
}

/// Opens a core on three blocks.
pub fn tell_reopened(alloc: Global, told: &mut Told) {
    let ready = match given(alloc) {
        Some(given) => Some(given),
        None => given(alloc),
    };
    let Some(
        HandedIn {
            genesis,
            again,
            texts,
        },
    ) = ready
    else {
        return told.put("nothing to hand in\n");
    };
    if !tells_core(alloc, genesis, &texts, told) {
        told.refused();
        if !tells_core(alloc, again, &texts, told) {
            told.put("out of memory\n");
        }
    }
}

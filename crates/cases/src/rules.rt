//! Scripts whose blocks are judged by the ledger alone, one after the other.

use crate::report::put_line;
use block::CheckedBlock;
use genesis::GenesisDocument;
use ledger::{ApplyFault, BlockFault, LedgerState, apply_block};
use script::{LinePlace, Names, Request, Stop};
use std::alloc::{AllocError, Global};
use std::str;
use witness_pool::SigScheme;

/// The names of a script, and the state that its blocks left. In boxes both are dropped by calls, which keeps the
/// proofs short.
#[derive(Drop)]
struct LedgerRun {
    alloc: Global,
    names: Box<Names>,
    state: Box<LedgerState>,
}

/// What is told of a block.
enum Told {
    Applied(Box<LedgerState>),
    Refused(BlockFault),
    NoBlock,
}

/// Tells what is wrong with a block.
fn put_fault(came: &mut String, fault: BlockFault) -> Result<(), AllocError> {
    match fault {
        BlockFault::WrongNumber => came.push_str("refused 1 WrongNumber"),
        BlockFault::WrongPrev => came.push_str("refused 2 WrongPrev"),
        BlockFault::SlotNotRising => came.push_str("refused 3 SlotNotRising"),
        BlockFault::BodyTooBig => came.push_str("refused 4 BodyTooBig"),
        BlockFault::TxFault(index, reason) => {
            let name = reason.name();
            write!(came, "transaction {index}: {} {name}", reason.number())
        }
    }
}

/// What is told of a block on a state.
fn told_of_block<S: SigScheme>(
    alloc: Global,
    state: &LedgerState,
    block: &CheckedBlock<S>,
) -> Result<Told, AllocError> {
    match apply_block(state, block) {
        Ok(next) => Ok(Told::Applied(Box::new(alloc, next)?)),
        Err(ApplyFault::Refused(fault)) => Ok(Told::Refused(fault)),
        Err(ApplyFault::OutOfMemory) => Err(AllocError),
    }
}

/// What is told of the block of these bytes on a state.
fn told_of<S: SigScheme>(
    alloc: Global,
    state: &LedgerState,
    bytes: &[u8],
) -> Result<Told, AllocError> {
    match CheckedBlock::<S>::read(alloc, bytes) {
        Ok(block) => told_of_block(alloc, state, &block),
        Err(_) => Ok(Told::NoBlock),
    }
}

/// A run on a network of this genesis.
fn new_run(alloc: Global, document: &GenesisDocument) -> Result<LedgerRun, AllocError> {
    let names = Names::new(alloc, &document.genesis, document.scheme);
    let names = Box::new(alloc, names)?;
    let state = Box::new(alloc, LedgerState::new(alloc, &document.genesis)?)?;
    Ok(LedgerRun {
        alloc,
        names,
        state,
    })
}

impl LedgerRun {
    /// Judges the bytes of a name as the next block.
    fn arrive<S: SigScheme>(&mut self, name: &[u8], came: &mut String) -> Result<(), AllocError> {
        let printed = str::from_utf8(name).unwrap_or("?");
        write!(came, "arrive {printed}: ")?;
        let bytes = self.names.bytes_of(name).unwrap_or(&[]);
        match told_of::<S>(self.alloc, &self.state, bytes)? {
            Told::Applied(next) => {
                self.state = next;
                came.push_str("applied")?;
            }
            Told::Refused(fault) => put_fault(came, fault)?,
            Told::NoBlock => came.push_str("no block")?,
        }
        came.push('\n')
    }

    /// Tells what is unspent.
    fn utxo(&self, came: &mut String) -> Result<(), AllocError> {
        let (pairs, coin) = (self.state.utxo().len(), self.state.utxo().coin());
        let fees = self.state.fees();
        write!(came, "utxo: pairs {pairs} coin {coin} fees {fees}\n")
    }

    /// Does what is asked for.
    fn answer<S: SigScheme>(
        &mut self,
        request: &Request<'_>,
        came: &mut String,
    ) -> Result<(), AllocError> {
        match request {
            Request::Nothing => Ok(()),
            Request::Arrive { name, .. } => self.arrive::<S>(name.text, came),
            Request::Tip => write!(came, "tip: {}\n", self.state.tip().number),
            Request::Utxo => self.utxo(came),
            _ => put_line(came, "not asked here"),
        }
    }

    /// Does what a line asks for, and answers whether the script goes on.
    fn obey<S: SigScheme>(
        &mut self,
        at: LinePlace,
        line: &str,
        came: &mut String,
    ) -> Result<bool, AllocError> {
        let number = at.number;
        match self.names.obey(at, line.as_bytes()) {
            Ok(request) => {
                self.answer::<S>(&request, came)?;
                Ok(true)
            }
            Err(Stop::Fault(fault)) => {
                write!(came, "! line {number}: {fault}\n")?;
                Ok(false)
            }
            Err(Stop::OutOfMemory) => Err(AllocError),
        }
    }

    /// Does what the lines of a script ask for, up to the first fault.
    fn obey_all<S: SigScheme>(
        &mut self,
        script: &str,
        came: &mut String,
    ) -> Result<(), AllocError> {
        let mut at = LinePlace {
            number: 1,
            before: 0,
        };
        for line in script.lines() {
            if !self.obey::<S>(at, line, came)? {
                break;
            }
            at.number = at.number.saturating_add(1);
            at.before = at.before.saturating_add(line.len() as u64);
        }
        Ok(())
    }
}

/// Puts the lines that a script prints on a network of this genesis behind a text.
pub fn put_run<S: SigScheme>(
    alloc: Global,
    document: &GenesisDocument,
    script: &[u8],
    came: &mut String,
) -> Result<(), AllocError> {
    let mut ledger_run = new_run(alloc, document)?;
    ledger_run.obey_all::<S>(str::from_utf8(script).unwrap_or("?"), came)
}

//! The lines that the questions about a block and a transaction print.

ghost use Rattle.std.specs.Prelude.{◌≡◌, ◌++◌, OnOk, codes};
ghost use Rattle.model.specs.Asked.{InBlock};
ghost use Rattle.ledger.specs.View.{fault_of};
ghost use Rattle.chain_core.specs.Asking.{tx_place_of};
ghost use Rattle.chain_core.specs.Ways.{why_of};
ghost use Rattle.chain_core.specs.Numbers.{block_numbered};
ghost use Rattle.script.specs.Names.{AllNames, printed_name};
ghost use Rattle.script.specs.RequestView.{AreNamed};
ghost use Rattle.scenario.specs.Answers.{fault_text, name_of_block, place_text, where_text, why_answer_text, why_text};

use chain_core::{Core, TxPlace, Why};
use ident::BlockHash;
use ledger::BlockFault;
use script::Names;
use std::alloc::AllocError;
use std::io::Write;
use witness_pool::SigScheme;

/// Appends what is wrong with a block.
fn print_fault(line: &mut Vec<u8>, fault: BlockFault) -> Result<(), AllocError>
    ensures { OnOk result (line.new.items ≡ line.old.items ++ fault_text (fault_of fault)) }
{
    match fault {
        BlockFault::WrongNumber => line.extend_from_slice(b"1 WrongNumber"),
        BlockFault::WrongPrev => line.extend_from_slice(b"2 WrongPrev"),
        BlockFault::SlotNotRising => line.extend_from_slice(b"3 SlotNotRising"),
        BlockFault::BodyTooBig => line.extend_from_slice(b"4 BodyTooBig"),
        BlockFault::TxFault(index, reason) => {
            let number = reason.number();
            let name = reason.name();
            match write!(line, "5 TxFault at {index} {number} {name}") {
                Ok(()) => Ok(()),
                Err(_) => Err(AllocError),
            }
        }
    }
}

/// Appends why the block with this hash is refused.
fn print_invalid(
    line: &mut Vec<u8>,
    names: &Names,
    hash: &BlockHash,
    fault: BlockFault,
) -> Result<(), AllocError>
    ensures { OnOk result ((all : AllNames) → AreNamed names.now all → line.new.items ≡ line.old.items
        ++ (printed_name hash.now.bytes all.of_bytes ++ (codes " " ++ fault_text (fault_of fault)))) }
{
    line.extend_from_slice(names.printed_name(hash))?;
    line.push(b' ')?;
    print_fault(line, fault)
}

/// Appends why a block isn't selected.
pub fn print_reason(line: &mut Vec<u8>, names: &Names, why: &Why) -> Result<(), AllocError>
    ensures { OnOk result ((all : AllNames) → AreNamed names.now all
        → line.new.items ≡ line.old.items ++ why_answer_text all.of_bytes (why_of why.now)) }
{
    match why {
        Why::Unknown => line.extend_from_slice(b"unknown"),
        Why::Selected => line.extend_from_slice(b"selected"),
        Why::Waits(missing) => {
            line.extend_from_slice(b"waits for ")?;
            line.extend_from_slice(names.printed_name(missing))
        }
        Why::Misfit(first) => {
            line.extend_from_slice(b"misfit ")?;
            line.extend_from_slice(names.printed_name(first))
        }
        Why::Invalid(refused, fault) => {
            line.extend_from_slice(b"invalid ")?;
            print_invalid(line, names, refused, *fault)
        }
        Why::NotLonger => line.extend_from_slice(b"not longer"),
    }
}

/// Appends what the question `why` prints.
pub fn print_why(
    line: &mut Vec<u8>,
    names: &Names,
    name: &[u8],
    why: &Why,
) -> Result<(), AllocError>
    ensures { OnOk result ((all : AllNames) → AreNamed names.now all
        → line.new.items ≡ line.old.items ++ why_text all.of_bytes name.now (why_of why.now)) }
{
    line.extend_from_slice(b"why ")?;
    line.extend_from_slice(name)?;
    line.extend_from_slice(b": ")?;
    print_reason(line, names, why)?;
    line.push(b'\n')?;
    Ok(())
}

/// The name of the block of this number on the selected chain.
fn name_on_chain<'a, S: SigScheme>(names: &'a Names, core: &Core<S>, number: u64) -> &'a [u8]
    ensures { (all : AllNames) → AreNamed names.entry.now all
        → result.now ≡ name_of_block all.of_bytes (block_numbered core.now.chain number) }
{
    if number == 0 {
        return b"?".as_slice();
    }
    match core.blocks(number).next() {
        Some(block) => names.printed_name(&block.hash()),
        None => b"?".as_slice(),
    }
}

/// Appends where in a block of the selected chain a transaction stands.
fn print_in_block<S: SigScheme>(
    line: &mut Vec<u8>,
    names: &Names,
    core: &Core<S>,
    number: u64,
    index: u64,
) -> Result<(), AllocError>
    ensures { OnOk result ((all : AllNames) → AreNamed names.now all → line.new.items ≡ line.old.items
        ++ place_text all.of_bytes core.now.chain (InBlock number index)) }
{
    let Ok(()) = write!(line, "block {number} ") else {
        return Err(AllocError);
    };
    line.extend_from_slice(name_on_chain(names, core, number))?;
    match write!(line, " at {index}") {
        Ok(()) => Ok(()),
        Err(_) => Err(AllocError),
    }
}

/// Appends where a transaction stands that was looked for on this core.
fn print_standing<S: SigScheme>(
    line: &mut Vec<u8>,
    names: &Names,
    core: &Core<S>,
    place: TxPlace,
) -> Result<(), AllocError>
    ensures { OnOk result ((all : AllNames) → AreNamed names.now all
        → line.new.items ≡ line.old.items ++ place_text all.of_bytes core.now.chain (tx_place_of place)) }
{
    match place {
        TxPlace::Waits(position) => match write!(line, "waits {position}") {
            Ok(()) => Ok(()),
            Err(_) => Err(AllocError),
        },
        TxPlace::Block { number, index } => print_in_block(line, names, core, number, index),
        TxPlace::Unknown => line.extend_from_slice(b"unknown"),
    }
}

/// Appends what the question `where` prints on this core.
pub fn print_where<S: SigScheme>(
    line: &mut Vec<u8>,
    names: &Names,
    name: &[u8],
    core: &Core<S>,
    place: TxPlace,
) -> Result<(), AllocError>
    ensures { OnOk result ((all : AllNames) → AreNamed names.now all → line.new.items ≡ line.old.items
        ++ where_text all.of_bytes core.now.chain name.now (tx_place_of place)) }
{
    line.extend_from_slice(b"where ")?;
    line.extend_from_slice(name)?;
    line.extend_from_slice(b": ")?;
    print_standing(line, names, core, place)?;
    line.push(b'\n')?;
    Ok(())
}

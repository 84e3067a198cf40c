//! The lines that a script prints.

ghost use Rattle.std.specs.Prelude.{◌≡◌, ◌++◌, ℕ, List, OnOk, Some};
ghost use Rattle.model.specs.Block.{SpellsBlock, block_text, block_hash_of};
ghost use Rattle.ident.specs.PointView.{point_of};
ghost use Rattle.chain_core.specs.Views.{instruction_of, arrive_reply_of, submit_reply_of, open_reply_of};
ghost use Rattle.chain_core.specs.Views.{next_reply_of, forward_reply_of, close_reply_of, discard_reply_of};
ghost use Rattle.script.specs.Names.{AllNames, printed_name};
ghost use Rattle.script.specs.RequestView.{AreNamed};
ghost use Rattle.scenario.specs.Print.{arrival_text, open_reply_text, opening_text, point_name, IsInstructionText};
ghost use Rattle.scenario.specs.Print.{IsNextReplyText, IsNextText, tip_text, unspent_text};
ghost use Rattle.scenario.specs.Print.{submission_reply_text, submission_text, forging_text};
ghost use Rattle.scenario.specs.Print.{tx_names_text, mempool_text, forwarding_reply_text, forwarding_text};
ghost use Rattle.scenario.specs.Print.{closing_reply_text, closing_text, discarding_reply_text, discarding_text};
ghost use Rattle.scenario.specs.ForgeView.{code_answer_text};

use block::CheckedBlock;
use chain_core::{
    ArriveReply, FollowerId, ForgeFault, Instruction, NextFault, NotBeside, OpenFollowerFault,
    UnknownFollower,
};
use ident::Point;
use mempool::{Mempool, SubmitReply};
use script::{Form, Names};
use std::alloc::AllocError;
use std::io::Write;
use witness_pool::SigScheme;

/// Appends what an arrival prints.
pub fn print_arrival(
    line: &mut Vec<u8>,
    form: Form,
    name: &[u8],
    reply: Result<ArriveReply, AllocError>,
) -> Result<(), AllocError>
    ensures { OnOk result (line.new.items ≡ line.old.items ++ arrival_text form name.now (arrive_reply_of reply)) }
{
    line.extend_from_slice(form.word())?;
    line.push(b' ')?;
    line.extend_from_slice(name)?;
    match reply {
        Ok(reply) => match write!(line, ": {reply}\n") {
            Ok(()) => Ok(()),
            Err(_) => Err(AllocError),
        },
        Err(AllocError) => line.extend_from_slice(b": out of memory\n"),
    }
}

/// Appends what a submission is answered.
fn print_submit_reply(
    line: &mut Vec<u8>,
    reply: Result<SubmitReply, AllocError>,
) -> Result<(), AllocError>
    ensures { OnOk result (line.new.items ≡ line.old.items ++ submission_reply_text (submit_reply_of reply)) }
{
    match reply {
        Ok(reply) => match write!(line, "{reply}") {
            Ok(()) => Ok(()),
            Err(_) => Err(AllocError),
        },
        Err(AllocError) => line.extend_from_slice(b"out of memory"),
    }
}

/// Appends what a submission prints.
pub fn print_submission(
    line: &mut Vec<u8>,
    name: &[u8],
    reply: Result<SubmitReply, AllocError>,
) -> Result<(), AllocError>
    ensures { OnOk result (line.new.items ≡ line.old.items ++ submission_text name.now (submit_reply_of reply)) }
{
    line.extend_from_slice(b"submit ")?;
    line.extend_from_slice(name)?;
    line.extend_from_slice(b": ")?;
    print_submit_reply(line, reply)?;
    line.push(b'\n')?;
    Ok(())
}

/// Appends what the line `forge` is answered: the size of the block, or why there is none.
fn print_forge_answer(
    line: &mut Vec<u8>,
    answer: Result<usize, ForgeFault>,
) -> Result<(), AllocError>
    ensures { OnOk result (line.new.items ≡ line.old.items ++ code_answer_text answer) }
{
    match answer {
        Ok(size) => match write!(line, "{size} bytes") {
            Ok(()) => Ok(()),
            Err(_) => Err(AllocError),
        },
        Err(ForgeFault::SlotNotAfterTip) => line.extend_from_slice(b"refused 1 SlotNotAfterTip"),
        Err(ForgeFault::OutOfRange) => line.extend_from_slice(b"refused 2 OutOfRange"),
        Err(ForgeFault::OutOfMemory) => line.extend_from_slice(b"out of memory"),
    }
}

/// Appends what the line `forge` prints.
pub fn print_forging(
    line: &mut Vec<u8>,
    name: &[u8],
    answer: Result<usize, ForgeFault>,
) -> Result<(), AllocError>
    ensures { OnOk result (line.new.items ≡ line.old.items ++ forging_text name.now (code_answer_text answer)) }
{
    line.extend_from_slice(b"forge ")?;
    line.extend_from_slice(name)?;
    line.extend_from_slice(b": ")?;
    print_forge_answer(line, answer)?;
    line.push(b'\n')?;
    Ok(())
}

/// Appends the names of the transactions that wait, each after a space.
fn print_waiting<S: SigScheme>(
    line: &mut Vec<u8>,
    names: &Names,
    mempool: &Mempool<S>,
) -> Result<(), AllocError>
    ensures { OnOk result ((all : AllNames) → AreNamed names.now all
        → line.new.items ≡ line.old.items ++ tx_names_text all.of_txs mempool.now.waiting.txs) }
{
    for tx in mempool.iter() {
        line.push(b' ')?;
        line.extend_from_slice(names.printed_tx(&tx.tx().id()))?;
    }
    Ok(())
}

/// Appends what the question `mempool` prints.
pub fn print_mempool<S: SigScheme>(
    line: &mut Vec<u8>,
    names: &Names,
    mempool: &Mempool<S>,
) -> Result<(), AllocError>
    ensures { OnOk result ((all : AllNames) → AreNamed names.now all
        → line.new.items ≡ line.old.items ++ mempool_text all.of_txs mempool.now.waiting.txs) }
{
    let count = mempool.len();
    let Ok(()) = write!(line, "mempool: {count}") else {
        return Err(AllocError);
    };
    print_waiting(line, names, mempool)?;
    line.push(b'\n')?;
    Ok(())
}

/// What the opening of a follower is answered.
fn open_reply(reply: Result<FollowerId, OpenFollowerFault>) -> &'static [u8]
    ensures { result.now ≡ open_reply_text (open_reply_of reply) }
{
    match reply {
        Ok(_) => b"ok".as_slice(),
        Err(OpenFollowerFault::TooManyFollowers) => b"refused TooManyFollowers".as_slice(),
        Err(OpenFollowerFault::OutOfMemory) => b"out of memory".as_slice(),
    }
}

/// Appends what the opening of a follower prints, by a line whose first word this is.
pub fn print_opening(
    line: &mut Vec<u8>,
    word: &[u8],
    name: &[u8],
    reply: Result<FollowerId, OpenFollowerFault>,
) -> Result<(), AllocError>
    ensures { OnOk result (line.new.items ≡ line.old.items ++ opening_text word.now name.now (open_reply_of reply)) }
{
    line.extend_from_slice(word)?;
    line.extend_from_slice(b" ")?;
    line.extend_from_slice(name)?;
    line.extend_from_slice(b": ")?;
    line.extend_from_slice(open_reply(reply))?;
    line.push(b'\n')?;
    Ok(())
}

/// The name of a place on a chain.
fn point_name<'a>(names: &'a Names, point: &Point) -> &'a [u8]
    ensures { (all : AllNames) → AreNamed names.entry.now all
        → result.now ≡ point_name all.of_bytes (point_of point.now) }
{
    if point.number == 0 {
        b"genesis".as_slice()
    } else {
        names.printed_name(&point.hash)
    }
}

/// The name of a block that was read.
fn block_name<'a, S: SigScheme>(names: &'a Names, block: &CheckedBlock<S>) -> &'a [u8]
    ensures name { (all : AllNames) → AreNamed names.entry.now all
        → result.now ≡ printed_name (block_hash_of block.now) all.of_bytes }
    // It is that of the one block that has this text.
    ensures spelled { SpellsBlock block.now (block_text block.now) }
{
    // What says that a block was read is the clause on its bytes.
    let _text = block.bytes();
    names.printed_name(&block.hash())
}

/// Appends what a follower is told.
fn print_instruction<S: SigScheme>(
    line: &mut Vec<u8>,
    names: &Names,
    instruction: &Option<Instruction<S>>,
) -> Result<(), AllocError>
    ensures { OnOk result ((all : AllNames) → AreNamed names.now all → (text : List ℕ)
        × IsInstructionText all.of_bytes (instruction_of instruction.now) text
        × (line.new.items ≡ line.old.items ++ text)) }
{
    match instruction {
        None => line.extend_from_slice(b"none"),
        Some(Instruction::AddBlock(block)) => {
            line.extend_from_slice(b"add ")?;
            line.extend_from_slice(block_name(names, block))
        }
        Some(Instruction::RollBack(point)) => {
            line.extend_from_slice(b"rollback ")?;
            line.extend_from_slice(point_name(names, point))
        }
    }
}

/// Appends what a follower is answered that asks what comes next.
fn print_next_reply<S: SigScheme>(
    line: &mut Vec<u8>,
    names: &Names,
    reply: &Result<Option<Instruction<S>>, NextFault>,
) -> Result<(), AllocError>
    ensures { OnOk result ((all : AllNames) → AreNamed names.now all → (text : List ℕ)
        × IsNextReplyText all.of_bytes (next_reply_of reply.now) text × (line.new.items ≡ line.old.items ++ text)) }
{
    match reply {
        Ok(instruction) => print_instruction(line, names, instruction),
        Err(NextFault::UnknownFollower) => line.extend_from_slice(b"refused UnknownFollower"),
        Err(NextFault::OutOfMemory) => line.extend_from_slice(b"out of memory"),
    }
}

/// Appends what the question `next` prints.
pub fn print_next<S: SigScheme>(
    line: &mut Vec<u8>,
    names: &Names,
    name: &[u8],
    reply: &Result<Option<Instruction<S>>, NextFault>,
) -> Result<(), AllocError>
    ensures { OnOk result ((all : AllNames) → AreNamed names.now all → (out : List ℕ)
        × IsNextText all.of_bytes name.now (next_reply_of reply.now) out × (line.new.items ≡ line.old.items ++ out)) }
{
    line.extend_from_slice(b"next ")?;
    line.extend_from_slice(name)?;
    line.extend_from_slice(b": ")?;
    print_next_reply(line, names, reply)?;
    line.push(b'\n')?;
    Ok(())
}

/// What a follower is answered that was to be set to a point.
fn forwarding_reply<'a>(names: &'a Names, reply: Result<Option<Point>, UnknownFollower>) -> &'a [u8]
    ensures { (all : AllNames) → AreNamed names.entry.now all
        → result.now ≡ forwarding_reply_text all.of_bytes (forward_reply_of reply) }
{
    match reply {
        Ok(Some(point)) => point_name(names, &point),
        Ok(None) => b"none".as_slice(),
        Err(UnknownFollower {}) => b"refused UnknownFollower".as_slice(),
    }
}

/// Appends what the line `forward` prints.
pub fn print_forwarding(
    line: &mut Vec<u8>,
    names: &Names,
    name: &[u8],
    reply: Result<Option<Point>, UnknownFollower>,
) -> Result<(), AllocError>
    ensures { OnOk result ((all : AllNames) → AreNamed names.now all → line.new.items ≡ line.old.items
        ++ forwarding_text all.of_bytes name.now (forward_reply_of reply)) }
{
    line.extend_from_slice(b"forward ")?;
    line.extend_from_slice(name)?;
    line.extend_from_slice(b": ")?;
    line.extend_from_slice(forwarding_reply(names, reply))?;
    line.push(b'\n')?;
    Ok(())
}

/// What the closing of a follower is answered.
fn closing_reply(reply: Result<(), UnknownFollower>) -> &'static [u8]
    ensures { result.now ≡ closing_reply_text (close_reply_of reply) }
{
    match reply {
        Ok(()) => b"ok".as_slice(),
        Err(UnknownFollower {}) => b"refused UnknownFollower".as_slice(),
    }
}

/// Appends what the line `close` prints.
pub fn print_closing(
    line: &mut Vec<u8>,
    name: &[u8],
    reply: Result<(), UnknownFollower>,
) -> Result<(), AllocError>
    ensures { OnOk result (line.new.items ≡ line.old.items ++ closing_text name.now (close_reply_of reply)) }
{
    line.extend_from_slice(b"close ")?;
    line.extend_from_slice(name)?;
    line.extend_from_slice(b": ")?;
    line.extend_from_slice(closing_reply(reply))?;
    line.push(b'\n')?;
    Ok(())
}

/// What the discarding of a block is answered.
fn discarding_reply(reply: Result<(), NotBeside>) -> &'static [u8]
    ensures { result.now ≡ discarding_reply_text (discard_reply_of reply) }
{
    match reply {
        Ok(()) => b"ok".as_slice(),
        Err(NotBeside {}) => b"refused NotBeside".as_slice(),
    }
}

/// Appends what the line `discard` prints.
pub fn print_discarding(
    line: &mut Vec<u8>,
    name: &[u8],
    reply: Result<(), NotBeside>,
) -> Result<(), AllocError>
    ensures { OnOk result (line.new.items ≡ line.old.items ++ discarding_text name.now (discard_reply_of reply)) }
{
    line.extend_from_slice(b"discard ")?;
    line.extend_from_slice(name)?;
    line.extend_from_slice(b": ")?;
    line.extend_from_slice(discarding_reply(reply))?;
    line.push(b'\n')?;
    Ok(())
}

/// Appends what the question `tip` prints.
pub fn print_tip(line: &mut Vec<u8>, names: &Names, point: &Point) -> Result<(), AllocError>
    ensures { OnOk result ((all : AllNames) → AreNamed names.now all → line.new.items ≡ line.old.items
        ++ tip_text all.of_bytes (point_of point.now)) }
{
    let number = point.number;
    let name = point_name(names, point);
    let Ok(()) = write!(line, "tip: {number} ") else {
        return Err(AllocError);
    };
    line.extend_from_slice(name)?;
    line.push(b'\n')?;
    Ok(())
}

/// Appends what the question `utxo` prints.
pub fn print_utxo(line: &mut Vec<u8>, pairs: usize, coin: u128, fees: u64) -> Result<(), AllocError>
    ensures { OnOk result (line.new.items ≡ line.old.items ++ unspent_text pairs coin fees) }
{
    match write!(line, "utxo: pairs {pairs} coin {coin} fees {fees}\n") {
        Ok(()) => Ok(()),
        Err(_) => Err(AllocError),
    }
}

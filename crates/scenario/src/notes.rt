//! The notes that are told behind a line where they are asked for.

ghost use Rattle.std.specs.Prelude.{◌≡◌, ◌++◌, ℕ, Option, Some, OnOk};
ghost use Rattle.model.specs.Block.{Block, SpellsBlock, block_hash_of};
ghost use Rattle.model.specs.Cbor.{text_of};
ghost use Rattle.model.specs.Transaction.{Transaction, item_of_transaction};
ghost use Rattle.model.specs.History.{State, Arrive, Submit, Kept, Step};
ghost use Rattle.model.specs.Explaining as model;
ghost use Rattle.model.specs.Asked as asked;
ghost use Rattle.model.specs.Asked.{IsWhyOf, ExplainsSubmission};
ghost use Rattle.utxo_rules.specs.DetailView.{detail_of};
ghost use Rattle.utxo_rules.specs.Sentences.{detail_text};
ghost use Rattle.chain_core.specs.Held.{Stands, network_held};
ghost use Rattle.chain_core.specs.Views.{arrive_reply_of, submit_reply_of};
ghost use Rattle.script.specs.Names.{AllNames, bound_to};
ghost use Rattle.script.specs.Meaning.{formed};
ghost use Rattle.script.specs.RequestView.{AreNamed};
ghost use Rattle.scenario.specs.Answers.{why_answer_text};
ghost use Rattle.scenario.specs.Notes.{note_text, told_text, IsNoteOf};
ghost use Rattle.scenario.specs.NoteView.{AppendsNote};

use crate::answers::print_reason;
use crate::form::formed;
use block::look;
use chain_core::{ArriveReply, Core};
use mempool::SubmitReply;
use script::{Form, Names};
use std::alloc::{AllocError, Global};
use std::io::Write;
use utxo_rules::Detail;
use witness_pool::SigScheme;

/// Appends a line that tells a detail.
fn print_detail(line: &mut Vec<u8>, detail: &Detail) -> Result<(), AllocError>
    ensures { OnOk result (line.new.items ≡ line.old.items ++ note_text (detail_text (detail_of detail.now))) }
{
    match write!(line, "# {detail}\n") {
        Ok(()) => Ok(()),
        Err(_) => Err(AllocError),
    }
}

/// Appends a line that tells what would be said against these bytes, if anything would.
fn note_refusal<S: SigScheme>(
    line: &mut Vec<u8>,
    core: &Core<S>,
    bytes: &[u8],
) -> Result<(), AllocError>
    ensures { OnOk result ((s : State) → Stands core.now s → (told : Option model.Detail)
        × ExplainsSubmission (network_held core.now S.verifies) s bytes.now told
        × (line.new.items ≡ line.old.items ++ told_text told)) }
{
    match core.explain_submission(bytes)? {
        Some(detail) => print_detail(line, &detail),
        None => Ok(()),
    }
}

/// Appends the note on a submission of the transaction of a name that was answered so.
pub fn note_submission<S: SigScheme>(
    line: &mut Vec<u8>,
    core: &Core<S>,
    names: &Names,
    name: &[u8],
    reply: Result<SubmitReply, AllocError>,
) -> Result<(), AllocError>
    ensures { OnOk result ((all : AllNames) → AreNamed names.now all → (tx : Transaction)
        → bound_to name.now all.of_txs ≡ Some tx → (s t : State) → Stands core.now t
        → Step (network_held core.now S.verifies) s (Submit (text_of (item_of_transaction tx)))
        (submit_reply_of reply) t
        → AppendsNote line.old.items line.new.items (IsNoteOf (network_held core.now S.verifies) all.of_bytes s
        (Submit (text_of (item_of_transaction tx))) (submit_reply_of reply) t)) }
{
    let Ok(SubmitReply::Refused(_)) = reply else {
        return Ok(());
    };
    let Some(tx) = names.tx_of(name) else {
        return Err(AllocError);
    };
    let bytes = tx.encode()?;
    note_refusal(line, core, &bytes)
}

/// Appends a line that tells why the block that these bytes spell isn't selected.
fn note_block<S: SigScheme>(
    alloc: Global,
    line: &mut Vec<u8>,
    core: &Core<S>,
    names: &Names,
    bytes: &[u8],
) -> Result<(), AllocError>
    ensures { OnOk result ((all : AllNames) → AreNamed names.now all → (s t : State) → Stands core.now t
        → (back added : ℕ) → Step (network_held core.now S.verifies) s (Arrive bytes.now) (Kept back added) t
        → (b : Block) × SpellsBlock b bytes.now × ((why : asked.Why)
        × IsWhyOf (network_held core.now S.verifies) t (block_hash_of b) why
        × (line.new.items ≡ line.old.items ++ note_text (why_answer_text all.of_bytes why)))) }
{
    let Ok(block) = look(alloc, bytes)? else {
        return Ok(());
    };
    let why = core.why(block.hash())?;
    line.extend_from_slice(b"# ")?;
    print_reason(line, names, &why)?;
    line.push(b'\n')?;
    Ok(())
}

/// Appends the note on an arrival of these bytes, in this form, that was answered so. Reads the bytes again, where
/// nothing was put on the chain.
pub fn note_arrival<S: SigScheme>(
    alloc: Global,
    line: &mut Vec<u8>,
    core: &Core<S>,
    names: &Names,
    form: Form,
    bytes: &[u8],
    reply: Result<ArriveReply, AllocError>,
) -> Result<(), AllocError>
    ensures { OnOk result ((all : AllNames) → AreNamed names.now all → (s t : State) → Stands core.now t
        → Step (network_held core.now S.verifies) s (Arrive (formed form bytes.now)) (arrive_reply_of reply) t
        → AppendsNote line.old.items line.new.items (IsNoteOf (network_held core.now S.verifies) all.of_bytes s
        (Arrive (formed form bytes.now)) (arrive_reply_of reply) t)) }
{
    let Ok(ArriveReply::Kept { back: _, added: 0 }) = reply else {
        return Ok(());
    };
    let bytes = formed(alloc, form, bytes)?;
    note_block(alloc, line, core, names, &bytes)
}

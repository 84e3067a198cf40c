//! What a text is.

ghost use Rattle.std.specs.Prelude.{◌≡◌, ◌≢◌, ℕ, List, IfOk, OnOk, IfErr, string_bytes};
ghost use Rattle.model.specs.Value as model;
ghost use Rattle.model.specs.Value.{SpellsValue};
ghost use Rattle.cbor.specs.Gives.{IfMalformed};
ghost use Rattle.telling.specs.Faults.{IsUntold};
ghost use Rattle.telling.specs.Shown.{IsShownAs, PrintsShown};

use crate::fault::{TellFault, block_fault};
use crate::form::Form;
use crate::kind::Kind;
use crate::line::write_line;
use crate::misreading::misreading_of;
use block::look;
use cbor::CborFault;
use std::alloc::{AllocError, Global};
use std::io::Write;
use timelock::Script;
use tx::Tx;
use value::Value;
use witness_pool::{SigScheme, plain};

/// What shows the transaction that these bytes are, whose signatures are judged by the scheme.
fn transaction_shown<S: SigScheme>(
    alloc: Global,
    form: Form,
    bytes: &[u8],
) -> Result<String, TellFault>
    ensures shown { IfOk result (λ text.
        IsShownAs S.verifies form Kind.Transaction bytes.now (string_bytes text)) }
    ensures fault { IfErr result (IsUntold Kind.Transaction bytes.now) }
{
    let tx = match Tx::decode(alloc, bytes) {
        Ok(tx) => tx,
        Err(CborFault::Malformed) => return Err(TellFault::NoTransaction(misreading_of(bytes))),
        Err(CborFault::OutOfMemory) => return Err(TellFault::OutOfMemory),
    };
    let Ok(checked) = plain::<S>(alloc, tx) else {
        return Err(TellFault::OutOfMemory);
    };
    match form.transaction(alloc, &checked) {
        Ok(text) => Ok(text),
        Err(AllocError) => Err(TellFault::OutOfMemory),
    }
}

/// What shows the block that these bytes are, the signatures of whose transactions are judged by the scheme.
fn block_shown<S: SigScheme>(alloc: Global, form: Form, bytes: &[u8]) -> Result<String, TellFault>
    ensures shown { IfOk result (λ text. IsShownAs S.verifies form Kind.Block bytes.now (string_bytes text)) }
    ensures fault { IfErr result (IsUntold Kind.Block bytes.now) }
{
    let found = match look(alloc, bytes) {
        Ok(Ok(found)) => found,
        Ok(Err(bad)) => return Err(block_fault(bad, bytes)),
        Err(AllocError) => return Err(TellFault::OutOfMemory),
    };
    let Ok(block) = found.into_checked_block::<S>(alloc) else {
        return Err(TellFault::OutOfMemory);
    };
    match form.block(alloc, &block) {
        Ok(text) => Ok(text),
        Err(AllocError) => Err(TellFault::OutOfMemory),
    }
}

/// What shows the native script that these bytes are.
fn script_shown<S: SigScheme>(alloc: Global, form: Form, bytes: &[u8]) -> Result<String, TellFault>
    ensures shown { IfOk result (λ text. IsShownAs S.verifies form Kind.Script bytes.now (string_bytes text)) }
    ensures fault { IfErr result (IsUntold Kind.Script bytes.now) }
{
    let script = match Script::decode(alloc, bytes) {
        Ok(script) => script,
        Err(CborFault::Malformed) => return Err(TellFault::NoScript(misreading_of(bytes))),
        Err(CborFault::OutOfMemory) => return Err(TellFault::OutOfMemory),
    };
    match form.script(alloc, &script) {
        Ok(text) => Ok(text),
        Err(AllocError) => Err(TellFault::OutOfMemory),
    }
}

/// The value whose text these bytes are, all of them.
fn value_of(alloc: Global, bytes: &[u8]) -> Result<Value, CborFault>
    ensures found { IfOk result (λ value. SpellsValue value bytes.now) }
    ensures malformed { IfErr result (λ fault. IfMalformed fault ((value : model.Value) →
        SpellsValue value bytes.now → ⊥)) }
{
    let (value, rest) = Value::read(alloc, bytes)?;
    if !rest.is_empty() {
        return Err(CborFault::Malformed);
    }
    Ok(value)
}

/// What shows the value that these bytes are.
fn value_shown<S: SigScheme>(alloc: Global, form: Form, bytes: &[u8]) -> Result<String, TellFault>
    ensures shown { IfOk result (λ text. IsShownAs S.verifies form Kind.Value bytes.now (string_bytes text)) }
    ensures fault { IfErr result (IsUntold Kind.Value bytes.now) }
{
    let value = match value_of(alloc, bytes) {
        Ok(value) => value,
        Err(CborFault::Malformed) => return Err(TellFault::NoValue(misreading_of(bytes))),
        Err(CborFault::OutOfMemory) => return Err(TellFault::OutOfMemory),
    };
    match form.value(alloc, &value) {
        Ok(text) => Ok(text),
        Err(AllocError) => Err(TellFault::OutOfMemory),
    }
}

/// What shows the text of this kind that these bytes are.
fn shown<S: SigScheme>(
    alloc: Global,
    form: Form,
    kind: Kind,
    bytes: &[u8],
) -> Result<String, TellFault>
    ensures shown { IfOk result (λ text. IsShownAs S.verifies form kind bytes.now (string_bytes text)) }
    ensures fault { IfErr result (IsUntold kind bytes.now) }
{
    match kind {
        Kind::Transaction => transaction_shown::<S>(alloc, form, bytes),
        Kind::Block => block_shown::<S>(alloc, form, bytes),
        Kind::Script => script_shown::<S>(alloc, form, bytes),
        Kind::Value => value_shown::<S>(alloc, form, bytes),
    }
}

/// Prints what the text of this kind is that these bytes are: one fact a line, in the order of the text, or as one JSON
/// document. Signatures are judged by the scheme. Err where they are no such text, the writer fails, or memory runs
/// out: then nothing is printed, but where the writer fails. Takes time and memory in proportion to the bytes and to
/// what is printed.
///
/// ```text
/// let mut out = Vec::new(alloc);
/// let form = Form::Lines;
/// print_shown::<Ed25519, _>(alloc, form, Kind::Script, b"\x82\x01\x80", &mut out)?; // script 310e.., and all
/// ```
pub fn print_shown<S: SigScheme, W: Write>(
    alloc: Global,
    form: Form,
    kind: Kind,
    bytes: &[u8],
    out: &mut W,
) -> Result<(), TellFault>
    // Just that is printed.
    ensures printed { OnOk result (PrintsShown S.verifies form kind bytes.now (W.contents out.old)
        (W.contents out.new)) }
    ensures fault { IfErr result (IsUntold kind bytes.now) }
    // Of bytes that are no such text nothing is printed, not in part either.
    ensures none { ((text : List ℕ) → IsShownAs S.verifies form kind bytes.now text → ⊥) → out.new ≡ out.old }
    // Nor is it before the writer fails.
    ensures quiet { IfErr result (λ fault. fault ≢ TellFault.WriteFailed → out.new ≡ out.old) }
{
    let text = shown::<S>(alloc, form, kind, bytes)?;
    write_line(out, text.as_bytes())?;
    Ok(())
}

//! The identifier of a text.

ghost use Rattle.std.specs.Prelude.{◌≡◌, ◌≢◌, ℕ, List, IfOk, OnOk, IfErr};
ghost use Rattle.telling.specs.Identifiers.{id_text, IsIdOf, IsIdLine, PrintsId};
ghost use Rattle.telling.specs.Faults.{IsUntold};

use crate::fault::{TellFault, block_fault};
use crate::kind::Kind;
use crate::line::write_line;
use crate::misreading::misreading_of;
use block::look;
use cbor::CborFault;
use ident::Hex;
use std::alloc::{AllocError, Global};
use std::io::Write;
use timelock::Script;
use tx::Tx;

/// The identifier of the transaction that these bytes are.
fn transaction_id(alloc: Global, bytes: &[u8]) -> Result<[u8; 32], TellFault>
    ensures id { IfOk result (IsIdOf Kind.Transaction bytes.now) }
    ensures fault { IfErr result (IsUntold Kind.Transaction bytes.now) }
{
    match Tx::decode(alloc, bytes) {
        Ok(tx) => Ok(tx.id().bytes),
        Err(CborFault::Malformed) => Err(TellFault::NoTransaction(misreading_of(bytes))),
        Err(CborFault::OutOfMemory) => Err(TellFault::OutOfMemory),
    }
}

/// The hash of the block that these bytes are.
fn block_hash(alloc: Global, bytes: &[u8]) -> Result<[u8; 32], TellFault>
    ensures id { IfOk result (IsIdOf Kind.Block bytes.now) }
    ensures fault { IfErr result (IsUntold Kind.Block bytes.now) }
{
    match look(alloc, bytes) {
        Ok(Ok(block)) => Ok(block.hash().bytes),
        Ok(Err(bad)) => Err(block_fault(bad, bytes)),
        Err(AllocError) => Err(TellFault::OutOfMemory),
    }
}

/// The hash of the native script that these bytes are.
fn script_hash(alloc: Global, bytes: &[u8]) -> Result<[u8; 32], TellFault>
    ensures id { IfOk result (IsIdOf Kind.Script bytes.now) }
    ensures fault { IfErr result (IsUntold Kind.Script bytes.now) }
{
    match Script::decode(alloc, bytes) {
        Ok(script) => Ok(script.hash().bytes),
        Err(CborFault::Malformed) => Err(TellFault::NoScript(misreading_of(bytes))),
        Err(CborFault::OutOfMemory) => Err(TellFault::OutOfMemory),
    }
}

/// The identifier of the text of this kind that these bytes are.
fn identifier(alloc: Global, kind: Kind, bytes: &[u8]) -> Result<[u8; 32], TellFault>
    ensures id { IfOk result (IsIdOf kind bytes.now) }
    ensures fault { IfErr result (IsUntold kind bytes.now) }
{
    match kind {
        Kind::Transaction => transaction_id(alloc, bytes),
        Kind::Block => block_hash(alloc, bytes),
        Kind::Script => script_hash(alloc, bytes),
        Kind::Value => Err(TellFault::NoIdentifier),
    }
}

/// The digits of an identifier, alone on a line.
fn digits_line(alloc: Global, id: &[u8; 32]) -> Result<Vec<u8>, AllocError>
    ensures { IfOk result (λ line. line.items ≡ id_text id.now) }
{
    let digits = Hex(id.as_slice());
    let mut line = Vec::new(alloc);
    match write!(line, "{digits}\n") {
        Ok(()) => Ok(line),
        Err(_) => Err(AllocError),
    }
}

/// The line that tells the identifier of the text of this kind that these bytes are.
fn identifier_line(alloc: Global, kind: Kind, bytes: &[u8]) -> Result<Vec<u8>, TellFault>
    ensures line { IfOk result (λ line. IsIdLine kind bytes.now line.items) }
    ensures fault { IfErr result (IsUntold kind bytes.now) }
{
    let id = identifier(alloc, kind, bytes)?;
    match digits_line(alloc, &id) {
        Ok(line) => Ok(line),
        Err(AllocError) => Err(TellFault::OutOfMemory),
    }
}

/// Prints the identifier of the text of this kind that these bytes are, in 64 lower case hexadecimal digits, alone on a
/// line: of a transaction its identifier, of a block or a native script its hash. Err where they are no such text, or
/// one that has none, the writer fails, or memory runs out. Linear in the bytes.
///
/// ```text
/// let mut out = Vec::new(alloc);
/// print_identifier(alloc, Kind::Script, b"\x82\x01\x80", &mut out)?; // all of none: 310e8ad6..daf88
/// ```
pub fn print_identifier<W: Write>(
    alloc: Global,
    kind: Kind,
    bytes: &[u8],
    out: &mut W,
) -> Result<(), TellFault>
    // Just that line is printed.
    ensures printed { OnOk result (PrintsId kind bytes.now (W.contents out.old) (W.contents out.new)) }
    ensures fault { IfErr result (IsUntold kind bytes.now) }
    // Of bytes that are no such text nothing is printed, not in part either.
    ensures none { ((id : List ℕ) → IsIdOf kind bytes.now id → ⊥) → out.new ≡ out.old }
    // Nor is it before the writer fails.
    ensures quiet { IfErr result (λ fault. fault ≢ TellFault.WriteFailed → out.new ≡ out.old) }
{
    let line = identifier_line(alloc, kind, bytes)?;
    write_line(out, &line)?;
    Ok(())
}

//! The genesis file.

ghost use Rattle.std.specs.Prelude.{◌≡◌, Ok, Err, IfOk, IfErr, IfSome, MatchResult, None, false};
ghost use Rattle.genesis.specs.Meaning.{NamesScheme};
ghost use Rattle.commands.specs.GenesisFile.{IsFileAnswer, IsDocumentOfFile, IsReadFault, IsNoGenesis, IsUnhinted};
ghost use Rattle.hints.specs.HintView.{Tells};

use crate::failure::Failure;
use genesis::{GenesisDocument, GenesisFault};
use hints::GenesisHint;
use scenario::ScenarioFault;
use std::alloc::Global;
use std::fs::File;
use std::io::{Error, ErrorKind, Read};
use std::rt::Files;
use std::str;

/// The most bytes that a genesis file may have. One of 10,000 outputs takes a tenth of them, without comments.
pub const MAX_GENESIS_SIZE: u64 = 16_777_216;

/// Why a reader gives no genesis.
#[derive(Debug, Drop)]
pub enum NoGenesis {
    /// The reader failed, or there are more bytes than a genesis file may have.
    Unread,
    /// The fault of what was read, or that memory ran out; and what it is about, where that was asked for.
    Fault {
        fault: GenesisFault,
        hint: Option<GenesisHint>,
    },
}

/// What the bytes of a file say: a genesis, and the scheme of its network. Bytes that are no text are no TOML.
fn document_of_bytes(alloc: Global, bytes: &[u8]) -> Result<GenesisDocument, GenesisFault>
    ensures answer { MatchResult result (λ document. IsFileAnswer bytes.now (Ok document.genesis))
        (λ fault. IsFileAnswer bytes.now (Err fault)) }
    ensures names { IfOk result (λ document. NamesScheme bytes.now document.scheme) }
{
    match str::from_utf8(bytes) {
        Ok(text) => GenesisDocument::from_toml(alloc, text),
        Err(_) => Err(GenesisFault::NotToml),
    }
}

/// Why nothing was read.
fn read_fault(error: &Error) -> NoGenesis
    ensures { IsReadFault result }
{
    if error.kind() == ErrorKind::OutOfMemory {
        NoGenesis::Fault {
            fault: GenesisFault::OutOfMemory,
            hint: None,
        }
    } else {
        NoGenesis::Unread
    }
}

/// What the fault of a file's bytes is about, where that is asked for and there is memory to tell it.
fn hint_of(alloc: Global, bytes: &[u8], explain: bool) -> Option<GenesisHint>
    ensures told { IfSome result (Tells bytes.now) }
    ensures unasked { explain ≡ false → result ≡ None }
{
    if !explain {
        return None;
    }
    match GenesisHint::of_bytes(alloc, bytes) {
        Ok(hint) => hint,
        Err(_) => None,
    }
}

/// The genesis that a reader gives, which is read to its end, with the scheme of its network. Err where the reader
/// fails, gives more bytes than [`MAX_GENESIS_SIZE`] or what is no genesis, or where memory runs out. What a fault is
/// about is told only where it is to be explained, and there is memory for it. Takes time and memory in proportion to
/// the bytes.
pub fn read_genesis<R: Read>(
    alloc: Global,
    reader: &mut R,
    explain: bool,
) -> Result<GenesisDocument, NoGenesis>
    ensures ok { IfOk result (λ document. IfSome (R.remaining reader.old) (IsDocumentOfFile document)) }
    ensures fault { IfErr result (λ why. IfSome (R.remaining reader.old) (IsNoGenesis why)) }
    ensures unasked { explain ≡ false → IfErr result IsUnhinted }
{
    let mut bytes = Vec::new(alloc);
    if let Err(error) = reader.read_to_end(&mut bytes) {
        return Err(read_fault(&error));
    }
    if bytes.len() as u64 > MAX_GENESIS_SIZE {
        return Err(NoGenesis::Unread);
    }
    match document_of_bytes(alloc, &bytes) {
        Ok(document) => Ok(document),
        Err(fault) => {
            let hint = hint_of(alloc, &bytes, explain);
            Err(NoGenesis::Fault { fault, hint })
        }
    }
}

/// Why a genesis file of this path says no genesis.
fn genesis_failure<'a>(path: &'a str, why: NoGenesis) -> Failure<'a> {
    match why {
        NoGenesis::Unread => Failure::CannotRead(path),
        NoGenesis::Fault { fault, hint } => match fault.number() {
            Some(number) => Failure::Genesis {
                number,
                fault,
                hint,
            },
            None => Failure::Scenario(ScenarioFault::OutOfMemory),
        },
    }
}

/// The genesis that a file says, and the scheme of its network. What a fault is about is told where it is to be
/// explained.
pub fn genesis_of_file<'a, R: Files + AllocGlobal>(
    rt: &R,
    path: &'a str,
    explain: bool,
) -> Result<GenesisDocument, Failure<'a>> {
    let Ok(file) = File::open(rt, path) else {
        return Err(Failure::CannotRead(path));
    };
    // One byte more than a genesis file may have makes it too large, so a file without end takes no more memory.
    let mut bytes = file.take(MAX_GENESIS_SIZE + 1);
    match read_genesis(rt.alloc(), &mut bytes, explain) {
        Ok(document) => Ok(document),
        Err(why) => Err(genesis_failure(path, why)),
    }
}

//! What is told of a text: its identifier, what it is, and of a transaction whether it is valid.

ghost use Rattle.std.specs.Prelude.{◌≡◌, ◌≢◌, ◌+◌, ℕ, List, [], None, IsOk, IfOk, IfErr, IfSome, OnOk, unwrap_or, min};
ghost use Rattle.model.specs.Chain.{genesis_tip, tip_after};
ghost use Rattle.model.specs.History.{State};
ghost use Rattle.chain_core.specs.Held.{Stands, network_held, opening_held};
ghost use Rattle.scenario.specs.Handed.{RunsWell};
ghost use Rattle.std.specs.Io.KnownBytes.{Appends};
ghost use Rattle.telling.specs.Faults.{IsUntold};
ghost use Rattle.telling.specs.Identifiers.{PrintsId};
ghost use Rattle.telling.specs.Shown.{IsShownAs, PrintsShown, genesis_in};
ghost use Rattle.telling.specs.Verdicts.{PrintsVerdict};
ghost use Rattle.commands.specs.Schemes.{verifies_by};
ghost use Rattle.commands.specs.TextFile.{AreBytesOf};

use crate::failure::Failure;
use crate::jobs::{Base, Source, TextAt};
use crate::log_file::log_of_file;
use crate::log_runs::{core_of, restart_of};
use crate::script_file::open_script;
use crate::text_file::text_of;
use chain_core::Core;
use genesis::{Genesis, GenesisDocument, Scheme};
use scenario::{Options, ScenarioFault};
use std::alloc::Global;
use std::fs::File;
use std::io;
use std::io::{BufRead, BufReader, Read, Write};
use std::rt::Files;
use std::thread::Threads;
use telling::{Form, Kind, TellFault, Verdict, print_identifier, print_shown, print_verdict};
use witness_pool::{Ed25519, SigScheme, TestScheme};

/// Why nothing was told of the text from there.
fn untold<'a>(source: Source<'a>, fault: TellFault) -> Failure<'a> {
    match fault {
        TellFault::WriteFailed => Failure::Scenario(ScenarioFault::WriteFailed),
        TellFault::OutOfMemory => Failure::Scenario(ScenarioFault::OutOfMemory),
        fault => Failure::NoText(source, fault),
    }
}

/// Prints the identifier of a text of this kind.
pub fn identify<'a, R: Files<File = File> + AllocGlobal, I: Read, O: Write>(
    rt: &R,
    kind: Kind,
    text: TextAt<'a>,
    input: &mut I,
    out: &mut O,
) -> Result<(), Failure<'a>>
    // Of a text on standard input just that line is printed.
    ensures { text.entry.source ≡ Source.Input → OnOk result (IfSome (I.remaining input.old)
        (λ read. (bytes : List ℕ) × AreBytesOf text.entry.is_binary read bytes
        × PrintsId kind bytes (O.contents out.old) (O.contents out.new))) }
{
    let bytes = text_of(rt, text, input)?;
    match print_identifier(rt.alloc(), kind, &bytes, out) {
        Ok(()) => Ok(()),
        Err(fault) => Err(untold(text.source, fault)),
    }
}

/// Prints in this form what the text of this kind is that these bytes are, with its signatures judged by this scheme.
fn print_by<O: Write>(
    alloc: Global,
    scheme: Scheme,
    form: Form,
    kind: Kind,
    bytes: &[u8],
    out: &mut O,
) -> Result<(), TellFault>
    ensures printed { OnOk result (PrintsShown (verifies_by scheme) form kind bytes.now (O.contents out.old)
        (O.contents out.new)) }
    ensures fault { IfErr result (IsUntold kind bytes.now) }
    ensures none { ((text : List ℕ) → IsShownAs (verifies_by scheme) form kind bytes.now text → ⊥) →
        out.new ≡ out.old }
    ensures quiet { IfErr result (λ fault. fault ≢ TellFault.WriteFailed → out.new ≡ out.old) }
{
    match scheme {
        Scheme::Test => print_shown::<TestScheme, _>(alloc, form, kind, bytes, out),
        Scheme::Ed25519 => print_shown::<Ed25519, _>(alloc, form, kind, bytes, out),
    }
}

/// Prints in this form what a text of this kind is, with its signatures judged by this scheme.
pub fn show<'a, R: Files<File = File> + AllocGlobal, I: Read, O: Write>(
    rt: &R,
    kind: Kind,
    form: Form,
    scheme: Scheme,
    text: TextAt<'a>,
    input: &mut I,
    out: &mut O,
) -> Result<(), Failure<'a>>
    // Of a text on standard input just that is printed.
    ensures { text.entry.source ≡ Source.Input → OnOk result (IfSome (I.remaining input.old)
        (λ read. (bytes : List ℕ) × AreBytesOf text.entry.is_binary read bytes
        × PrintsShown (verifies_by scheme) form kind bytes (O.contents out.old) (O.contents out.new))) }
{
    let bytes = text_of(rt, text, input)?;
    match print_by(rt.alloc(), scheme, form, kind, &bytes, out) {
        Ok(()) => Ok(()),
        Err(fault) => Err(untold(text.source, fault)),
    }
}

/// Prints in this form what a genesis is, with the scheme of its network.
pub fn print_genesis<'a, O: Write>(
    alloc: Global,
    form: Form,
    document: &GenesisDocument,
    out: &mut O,
) -> Result<(), Failure<'a>>
    ensures { OnOk result (Appends (O.contents out.old) (O.contents out.new)
        (genesis_in form document.now.scheme document.now.genesis)) }
{
    let Ok(text) = form.genesis(alloc, document) else {
        return Err(Failure::Scenario(ScenarioFault::OutOfMemory));
    };
    match out.write_all(text.as_bytes()) {
        Ok(()) => Ok(()),
        Err(_) => Err(Failure::Scenario(ScenarioFault::WriteFailed)),
    }
}

/// The core in a box, in which it is dropped by a call, where what came before had no fault.
fn boxed<'a, S: SigScheme>(
    alloc: Global,
    core: Core<S>,
    before: Result<(), ScenarioFault>,
) -> Result<Box<Core<S>>, Failure<'a>>
    ensures { IfOk result (λ boxed. (boxed.value ≡ core) × IsOk before) }
{
    if let Err(fault) = before {
        return Err(Failure::Scenario(fault));
    }
    match Box::new(alloc, core) {
        Ok(boxed) => Ok(boxed),
        Err(_) => Err(Failure::Scenario(ScenarioFault::OutOfMemory)),
    }
}

/// A core before anything came.
fn new_core<'a, S: SigScheme>(alloc: Global, genesis: &Genesis) -> Result<Box<Core<S>>, Failure<'a>>
    ensures { IfOk result (λ core. core.value ≡ opening_held genesis.now []) }
{
    let Ok(copy) = genesis.try_clone() else {
        return Err(Failure::Scenario(ScenarioFault::OutOfMemory));
    };
    match Core::<S>::new(alloc, copy) {
        Ok(core) => boxed(alloc, core, Ok(())),
        Err(_) => Err(Failure::Scenario(ScenarioFault::OutOfMemory)),
    }
}

/// The core on the blocks of a log, which is opened as for a replay, and given back.
fn logged_core<'a, S: SigScheme, R: Files<File = File> + AllocGlobal + Threads + Sync>(
    rt: &R,
    genesis: &Genesis,
    path: &'a str,
) -> Result<Box<Core<S>>, Failure<'a>>
    ensures { IfOk result (λ core. core.value.genesis ≡ genesis.now) }
{
    let mut restart = restart_of::<S>(rt.alloc(), genesis)?;
    let _log = log_of_file(rt, path, false, &mut restart)?;
    core_of(rt.alloc(), restart)
}

/// The core on the blocks of a log, if one is named, and else one before anything came.
fn first_core<'a, S: SigScheme, R: Files<File = File> + AllocGlobal + Threads + Sync>(
    rt: &R,
    genesis: &Genesis,
    log: Option<&'a str>,
) -> Result<Box<Core<S>>, Failure<'a>>
    ensures genesis { IfOk result (λ core. core.value.genesis ≡ genesis.now) }
    ensures alone { log.entry ≡ None → IfOk result (λ core. core.value ≡ opening_held genesis.now []) }
{
    match log {
        Some(path) => logged_core::<S, _>(rt, genesis, path),
        None => new_core::<S>(rt.alloc(), genesis),
    }
}

/// The core after a script that was run on it, of which nothing is printed.
fn run_quietly<'a, S: SigScheme, R: BufRead>(
    alloc: Global,
    genesis: &Genesis,
    options: Options,
    core: Core<S>,
    reader: &mut R,
) -> Result<Box<Core<S>>, Failure<'a>>
    requires { core.genesis ≡ genesis.now }
    // It stands for the state to which all lines of the text lead from one that the core stood for.
    ensures { IfOk result (λ after. IfSome (R.remaining reader.old)
        (λ text. RunsWell options S.verifies core after.value text None None)) }
{
    let mut nobody = io::sink();
    let (core, ran) = scenario::run_from(alloc, genesis, options, core, reader, &mut nobody);
    boxed(alloc, core, ran)
}

/// The core after the script of a file.
fn after_script<'a, S: SigScheme, R: Files<File = File> + AllocGlobal>(
    rt: &R,
    document: &GenesisDocument,
    core: Box<Core<S>>,
    path: &'a str,
) -> Result<Box<Core<S>>, Failure<'a>>
    requires scheme { S.verifies ≡ verifies_by document.now.scheme }
    requires genesis { core.value.genesis ≡ document.now.genesis }
{
    let script = open_script(rt, path)?;
    let Ok(mut reader) = BufReader::new(rt.alloc(), script) else {
        return Err(Failure::Scenario(ScenarioFault::OutOfMemory));
    };
    let options = Options::plain(document.scheme);
    let core = Box::into_inner(core);
    run_quietly(rt.alloc(), &document.genesis, options, core, &mut reader)
}

/// The core at which a transaction is judged.
fn core_after<'a, S: SigScheme, R: Files<File = File> + AllocGlobal + Threads + Sync>(
    rt: &R,
    document: &GenesisDocument,
    base: Base<'a>,
) -> Result<Box<Core<S>>, Failure<'a>>
    requires { S.verifies ≡ verifies_by document.now.scheme }
{
    let core = first_core::<S, _>(rt, &document.genesis, base.log)?;
    match base.script {
        Some(path) => after_script(rt, document, core, path),
        None => Ok(core),
    }
}

/// The slot at which a transaction is judged: this one, or that after the tip's.
fn slot_at<S: SigScheme>(core: &Core<S>, given: Option<u64>) -> u64
    // A tip's slot is below 2^63, so none is past the largest of 64 bits.
    ensures { result ≡ unwrap_or given (min ((tip_after genesis_tip core.now.chain).slot + 1) 18446744073709551615) }
{
    match given {
        Some(slot) => slot,
        None => core.slot().saturating_add(1),
    }
}

/// Prints what is said of the transaction that these bytes are, at this core and in this slot.
fn tell_verdict<'a, S: SigScheme, O: Write>(
    alloc: Global,
    source: Source<'a>,
    core: &Core<S>,
    slot: u64,
    bytes: &[u8],
    out: &mut O,
) -> Result<Verdict, Failure<'a>>
    // `valid` is printed just where the definitions have it that a submission of the bytes would be taken, judged at this
    // slot.
    ensures { IfOk result (λ verdict. (s : State) → Stands core.now s →
        PrintsVerdict (network_held core.now S.verifies) s slot bytes.now (O.contents out.old) (O.contents out.new)
        verdict) }
{
    match print_verdict(alloc, core, slot, bytes, out) {
        Ok(verdict) => Ok(verdict),
        Err(fault) => Err(untold(source, fault)),
    }
}

/// Prints whether the transaction of a text is valid, after the blocks of a log and the run of a script, where they are
/// named, and in this slot, or that after the tip's. No block is put onto the log, and of the script nothing is printed.
pub fn check<
    'a,
    S: SigScheme,
    R: Files<File = File> + AllocGlobal + Threads + Sync,
    I: Read,
    O: Write,
>(
    rt: &R,
    document: &GenesisDocument,
    base: Base<'a>,
    slot: Option<u64>,
    text: TextAt<'a>,
    input: &mut I,
    out: &mut O,
) -> Result<Verdict, Failure<'a>>
    requires { S.verifies ≡ verifies_by document.now.scheme }
{
    let bytes = text_of(rt, text, input)?;
    let core = core_after::<S, _>(rt, document, base)?;
    let slot = slot_at(&core, slot);
    tell_verdict(rt.alloc(), text.source, &core, slot, &bytes, out)
}

//! Runs of a script on a log, and how high its chain is.

ghost use Rattle.std.specs.Prelude.{◌≡◌, [], false, IsOk, OnOk, IfOk, length};
ghost use Rattle.model.specs.Disk.{LeavesSince};
ghost use Rattle.model.specs.Log.{OpensToBeginning};
ghost use Rattle.chain_core.specs.Held.{Held};
ghost use Rattle.chain_core.specs.Immutable.{texts_of, immutable_texts};
ghost use Rattle.scenario.specs.Handed.{HasRun};
ghost use Rattle.commands.specs.Schemes.{verifies_by};

use crate::failure::Failure;
use crate::log_file::log_of_file;
use crate::recorded::Recorded;
use crate::script_file::open_script;
use chain_core::Core;
use flushing::{Restart, flush};
use genesis::{Genesis, GenesisDocument};
use immlog::{AppendFault, Disk, Log};
use scenario::{Options, ScenarioFault};
use std::alloc::Global;
use std::fs::File;
use std::io::{BufReader, Read, Write};
use std::rt::Files;
use std::thread::Threads;
use witness_pool::SigScheme;

/// What a core of this genesis is made with, while a log is opened.
pub fn restart_of<'a, S: SigScheme>(
    alloc: Global,
    genesis: &Genesis,
) -> Result<Restart<S>, Failure<'a>>
    ensures genesis { IfOk result (λ restart. restart.genesis ≡ genesis.now) }
    ensures blocks { IfOk result (λ restart. restart.blocks ≡ []) }
{
    let Ok(copy) = genesis.try_clone() else {
        return Err(Failure::Scenario(ScenarioFault::OutOfMemory));
    };
    match Restart::new(alloc, copy) {
        Ok(restart) => Ok(restart),
        Err(_) => Err(Failure::Scenario(ScenarioFault::OutOfMemory)),
    }
}

/// The core on the blocks of a log that was opened. In a box it is dropped by a call, which keeps the proofs of what
/// owns it short.
pub fn core_of<'a, S: SigScheme>(
    alloc: Global,
    restart: Restart<S>,
) -> Result<Box<Core<S>>, Failure<'a>>
    ensures genesis { IfOk result (λ core. core.value.genesis ≡ restart.genesis) }
    ensures blocks { IfOk result (λ core. texts_of core.value.opened ≡ restart.blocks) }
{
    let core = match restart.core() {
        Ok(core) => Box::new(alloc, core),
        Err(fault) => return Err(fault.into()),
    };
    match core {
        Ok(core) => Ok(core),
        Err(_) => Err(Failure::Scenario(ScenarioFault::OutOfMemory)),
    }
}

/// How a run ended that was followed by a flush: the script's fault is told first.
fn ended<'a>(
    ran: Result<(), ScenarioFault>,
    flushed: Result<(), AppendFault>,
) -> Result<(), Failure<'a>>
    ensures { OnOk result (IsOk flushed) }
{
    match (ran, flushed) {
        (Err(fault), _) => Err(fault.into()),
        (Ok(()), Err(fault)) => Err(fault.into()),
        (Ok(()), Ok(())) => Ok(()),
    }
}

/// Runs a script on a core that was opened on the log's blocks, and puts its immutable blocks onto the log, also after
/// a fault of the script, which is then told.
fn run_on_log<'a, S: SigScheme, D: Disk, R: Read, W: Write>(
    alloc: Global,
    document: &GenesisDocument,
    core: Core<S>,
    log: &mut Log<D>,
    explain: bool,
    reader: &mut BufReader<R>,
    out: &mut W,
) -> Result<(), Failure<'a>>
    requires scheme { S.verifies ≡ verifies_by document.now.scheme }
    requires genesis { core.genesis ≡ document.now.genesis }
    requires blocks { texts_of core.opened ≡ log.old.blocks }
    requires sound { log.old.broken ≡ false }
    // The log then has the immutable blocks of a core to which the definitions' steps led.
    ensures flushed { OnOk result ((after : Held) × HasRun S.verifies core after
        × (log.new.blocks ≡ immutable_texts S.verifies after)) }
    // Whatever it answers, a crash at any moment since it was called leaves a log that isn't damaged, of a beginning of
    // these, with all that the log had.
    ensures crash { (after : Held) × HasRun S.verifies core after
        × LeavesSince (D.past log.old.disk) (D.past log.new.disk) (D.moment log.new.disk)
        (OpensToBeginning (length log.old.blocks) (immutable_texts S.verifies after)) }
{
    let options = Options {
        scheme: document.scheme,
        explain,
    };
    let (core, ran) = scenario::run_from(alloc, &document.genesis, options, core, reader, out);
    // What it was opened on begins its immutable blocks: a clause of this call.
    let _immutable = core.immutable();
    let flushed = flush(log, &core);
    ended(ran, flushed)
}

/// Runs the script of a file on a core that was opened on the log's blocks. Where it is explained, more is told of a
/// transaction that is refused, a block that isn't selected, and a fault.
fn run_script<'a, S: SigScheme, D: Disk, R: Files<File = File> + AllocGlobal, W: Write>(
    rt: &R,
    document: &GenesisDocument,
    core: Box<Core<S>>,
    log: &mut Log<D>,
    path: &'a str,
    explain: bool,
    out: &mut W,
) -> Result<(), Failure<'a>>
    requires scheme { S.verifies ≡ verifies_by document.now.scheme }
    requires genesis { core.value.genesis ≡ document.now.genesis }
    requires blocks { texts_of core.value.opened ≡ log.old.blocks }
    requires sound { log.old.broken ≡ false }
{
    let script = open_script(rt, path)?;
    let mut script = Recorded::new(rt.alloc(), script, explain);
    let Ok(mut reader) = BufReader::new(rt.alloc(), &mut script) else {
        return Err(Failure::Scenario(ScenarioFault::OutOfMemory));
    };
    let core = Box::into_inner(core);
    let ran = run_on_log(rt.alloc(), document, core, log, explain, &mut reader, out);
    drop(reader);
    match ran {
        Ok(()) => Ok(()),
        Err(failure) => Err(failure.explained(rt.alloc(), script.kept())),
    }
}

/// Runs the script of a file under this genesis, on the log of another, which is made where it is missing. The log is
/// opened first, then the script is run. After that, also after a fault of the script, the blocks that are never rolled
/// back any more are put onto the log.
pub fn run_logged<'a, S: SigScheme, R: Files<File = File> + AllocGlobal + Threads + Sync, W: Write>(
    rt: &R,
    document: &GenesisDocument,
    script: &'a str,
    log: &'a str,
    explain: bool,
    out: &mut W,
) -> Result<(), Failure<'a>>
    requires { S.verifies ≡ verifies_by document.now.scheme }
{
    let mut restart = restart_of::<S>(rt.alloc(), &document.genesis)?;
    let mut log = log_of_file(rt, log, true, &mut restart)?;
    let core = core_of(rt.alloc(), restart)?;
    run_script(rt, document, core, &mut log, script, explain, out)
}

/// Opens the log of a file under this genesis, and prints how high its chain is. Has the log until then.
pub fn replay<'a, S: SigScheme, R: Files<File = File> + AllocGlobal + Threads + Sync, W: Write>(
    rt: &R,
    document: &GenesisDocument,
    log: &'a str,
    out: &mut W,
) -> Result<(), Failure<'a>>
    requires { S.verifies ≡ verifies_by document.now.scheme }
{
    let mut restart = restart_of::<S>(rt.alloc(), &document.genesis)?;
    let _log = log_of_file(rt, log, false, &mut restart)?;
    let core = core_of(rt.alloc(), restart)?;
    match write!(out, "height {}\n", core.tip().number) {
        Ok(()) => Ok(()),
        Err(_) => Err(Failure::Scenario(ScenarioFault::WriteFailed)),
    }
}

//! Runs of a script, and simulations, without a log.

ghost use Rattle.std.specs.Prelude.{◌≡◌, if◌then◌else◌, IfErr, IfSome, OnOk};
ghost use Rattle.model.specs.Ledger.{network_of};
ghost use Rattle.scenario.specs.Run.{EndsWell};
ghost use Rattle.commands.specs.Ending.{EndsBySome, options_by};
ghost use Rattle.commands.specs.Schemes.{verifies_by};

use crate::failure::Failure;
use crate::recorded::Recorded;
use crate::script_file::open_script;
use genesis::GenesisDocument;
use reception::WhenFull;
use scenario::{Options, ScenarioFault};
use simulation::{Clients, Setup, sim};
use std::alloc::Global;
use std::fs::File;
use std::io::{BufReader, Read, Write};
use std::rt::Files;
use std::sync::Wait;
use std::thread::Threads;
use witness_pool::{OpenGate, SigScheme};

/// Runs the script that a reader gives, read through a buffer, on a network of this genesis. Where it is explained,
/// more is told of a transaction that is refused and a block that isn't selected.
fn run_reader<S: SigScheme, R: Read, W: Write>(
    alloc: Global,
    document: GenesisDocument,
    explain: bool,
    reader: &mut R,
    out: &mut W,
) -> Result<(), ScenarioFault>
    requires { S.verifies ≡ verifies_by document.scheme }
    // What is signed and what is judged goes by the scheme of the genesis file.
    ensures ok { OnOk result (IfSome (R.remaining reader.old)
        (λ text. EndsWell (options_by document.scheme explain)
        (network_of document.genesis (verifies_by document.scheme)) text (W.contents out.old) (W.contents out.new))) }
    ensures fault { IfErr result (λ why. IfSome (R.remaining reader.old)
        (λ text. EndsBySome (options_by document.scheme explain)
        (network_of document.genesis (verifies_by document.scheme)) text (W.contents out.old) (W.contents out.new)
        why)) }
{
    let GenesisDocument { genesis, scheme } = document;
    let Ok(mut reader) = BufReader::new(alloc, reader) else {
        return Err(ScenarioFault::OutOfMemory);
    };
    let options = Options { scheme, explain };
    scenario::run::<S, _, _>(alloc, genesis, options, &mut reader, out)
}

/// Runs the script of a file on a network of this genesis. What is refused or not selected and what a fault is about is
/// told where it is to be explained.
pub fn run_file<'a, S: SigScheme, R: Files<File = File> + AllocGlobal, W: Write>(
    rt: &R,
    document: GenesisDocument,
    path: &'a str,
    explain: bool,
    out: &mut W,
) -> Result<(), Failure<'a>>
    requires { S.verifies ≡ verifies_by document.scheme }
{
    let script = open_script(rt, path)?;
    let mut script = Recorded::new(rt.alloc(), script, explain);
    match run_reader::<S, _, _>(rt.alloc(), document, explain, &mut script, out) {
        Ok(()) => Ok(()),
        Err(fault) => Err(Failure::Scenario(fault).explained(rt.alloc(), script.kept())),
    }
}

/// A simulation with this many clients, in which blocks are discarded where others have no place, or aren't.
pub fn setup_of(clients: Clients, discard: bool) -> Setup
    ensures clients { result.clients ≡ clients }
    ensures discards { result.when_full ≡ (if discard then WhenFull.Discard else WhenFull.Refuse) }
{
    let when_full = if discard {
        WhenFull::Discard
    } else {
        WhenFull::Refuse
    };
    Setup { clients, when_full }
}

/// Runs the simulation that the script of a file says, set up so, on a network of this genesis.
pub fn sim_file<
    'a,
    S: SigScheme + Send + Sync,
    R: Files<File = File> + AllocGlobal + Threads + Wait + Sync,
    W: Write,
>(
    rt: &R,
    document: GenesisDocument,
    path: &'a str,
    setup: Setup,
    out: &mut W,
) -> Result<(), Failure<'a>>
    requires { S.verifies ≡ verifies_by document.scheme }
{
    let GenesisDocument { genesis, scheme } = document;
    let script = open_script(rt, path)?;
    let Ok(mut reader) = BufReader::new(rt.alloc(), script) else {
        return Err(Failure::Scenario(ScenarioFault::OutOfMemory));
    };
    match sim::<S, _, _, _, _>(rt, genesis, scheme, &mut reader, out, setup, &OpenGate) {
        Ok(()) => Ok(()),
        Err(fault) => Err(Failure::Scenario(fault)),
    }
}

//! The run of a script.

ghost use Rattle.std.specs.Prelude.{◌≡◌, [], Some, OnOk, IfOk, IfErr, IfSome};
ghost use Rattle.scenario.specs.Pieces.{IsNextLine, IsNoLine, IsReadFault};
ghost use Rattle.model.specs.Ledger.{network_of};
ghost use Rattle.script.specs.Names.{no_names};
ghost use Rattle.script.specs.RequestView.{AreNamed};
ghost use Rattle.scenario.specs.Indexes.{no_indexes};
ghost use Rattle.scenario.specs.IndexView.{AreIndexes};
ghost use Rattle.scenario.specs.Run.{EndsWell, EndsBy, fault_of};
ghost use Rattle.chain_core.specs.Held.{network_held};
ghost use Rattle.chain_core.specs.Steps.{KeepsStart};
ghost use Rattle.scenario.specs.Handed.{RunsWell, RunsInto, HasRun};
ghost use Rattle.script.specs.declared.fault.LineFault.TheVariants.{BadLine};

use crate::fault::ScenarioFault;
use crate::options::Options;
use crate::output::{WriteStopped, write_all};
use crate::session::Session;
use chain_core::Core;
use genesis::Genesis;
use script::{LineFault, LinePlace, Stop};
use std::alloc::Global;
use std::io::{BufRead, Error, ErrorKind, Write};
use witness_pool::SigScheme;

/// Why no line was read, of which these bytes were. That memory ran out is said only where they are no whole line.
fn read_fault(error: &Error, line: &[u8]) -> ScenarioFault
    ensures { IsReadFault line.now result }
{
    match line {
        [.., b'\n'] => ScenarioFault::ReadFailed,
        _ => {
            if error.kind() == ErrorKind::OutOfMemory {
                ScenarioFault::OutOfMemory
            } else {
                ScenarioFault::ReadFailed
            }
        }
    }
}

/// Reads the next line, with its line feed if it has one: at the end of the text it is empty. Err where reading fails
/// or memory runs out: a piece of the line may then have been read.
pub fn next_line<R: BufRead>(alloc: Global, reader: &mut R) -> Result<Vec<u8>, ScenarioFault>
    ensures line { IfOk result (λ line. IsNextLine (R.remaining reader.old) (R.remaining reader.new) line.items) }
    ensures fault { IfErr result (λ why. IsNoLine (R.remaining reader.old) (R.remaining reader.new) why) }
{
    let mut line = Vec::new(alloc);
    match reader.read_until(b'\n', &mut line) {
        Ok(_) => Ok(line),
        Err(error) => Err(read_fault(&error, &line)),
    }
}

/// Why a line of this number was not run.
pub fn line_fault(number: u64, stop: Stop) -> ScenarioFault
    ensures { result ≡ fault_of number stop }
{
    match stop {
        Stop::Fault(fault) => ScenarioFault::Line { number, fault },
        Stop::OutOfMemory => ScenarioFault::OutOfMemory,
    }
}

/// The fault of a transaction without its end, which was begun in the line of this number.
pub fn unended(number: u64) -> ScenarioFault
    ensures { result ≡ ScenarioFault.Line number BadLine }
{
    ScenarioFault::Line {
        number,
        fault: LineFault::BadLine,
    }
}

/// Runs the lines of a script in a session before the first one, which was begun for the scheme of these options.
fn run_lines<S: SigScheme, R: BufRead, W: Write>(
    alloc: Global,
    options: Options,
    session: &mut Session<'_, S>,
    reader: &mut R,
    writer: &mut W,
) -> Result<(), ScenarioFault>
    requires names { AreNamed session.now.names (no_names options.scheme session.now.core.genesis.params.network) }
    requires indexes { AreIndexes session.now.indexes (no_indexes session.now.core.genesis) }
    ensures ok { OnOk result (IfSome (R.remaining reader.old)
        (λ text. RunsWell options S.verifies session.old.core session.new.core text (W.contents writer.old)
        (W.contents writer.new))) }
    ensures rest { OnOk result (IfSome (R.remaining reader.old) (λ _. R.remaining reader.new ≡ Some [])) }
    ensures fault { IfErr result (λ why. IfSome (R.remaining reader.old)
        (λ text. RunsInto options S.verifies session.old.core session.new.core text (R.remaining reader.new)
        (W.contents writer.old) (W.contents writer.new) why)) }
    ensures run { HasRun S.verifies session.old.core session.new.core }
    ensures network { network_held session.new.core S.verifies ≡ network_held session.old.core S.verifies }
{
    let mut before: u64 = 0;
    for number in 1..4_194_306u64 {
        let line = next_line(alloc, reader)?;
        if line.is_empty() {
            if let Some(begun) = session.open_line() {
                return Err(unended(begun));
            }
            return Ok(());
        }
        let printed = match session.obey(LinePlace { number, before }, &line, options.explain) {
            Ok(printed) => printed,
            Err(stop) => return Err(line_fault(number, stop)),
        };
        before += line.len() as u64;
        if let Err(WriteStopped {}) = write_all(writer, &printed) {
            return Err(ScenarioFault::WriteFailed);
        }
    }
    // Each line has a byte, so the limit of the size comes first.
    unreachable!()
}

/// Runs a script line by line on a new network of this genesis. Whether a signature is good the core judges by `S`, and
/// what the script signs it signs by the scheme of the options: give both the same, unless a script is to be run that
/// signs by another.
/// What each line prints is written before the next line is read, and the first fault ends the run; what was written
/// before stands. Where there is no memory for the outputs of the genesis, nothing is read.
///
/// ```text
/// let mut script = b"block A1 genesis 1\narrive A1\ntip\n".as_slice();
/// let mut out = Vec::new(alloc);
/// let options = Options::plain(Scheme::Test);
/// scenario::run::<TestScheme, _, _>(alloc, genesis, options, &mut script, &mut out)?;
/// // arrive A1: kept back 0 added 1, and then tip: 1 A1
/// ```
///
/// A line is read whole before it is looked at. A reader whose lines may have no end is given by
/// [`Read::take`](std::io::Read::take) with one byte more than [`MAX_SCRIPT_SIZE`](script::MAX_SCRIPT_SIZE), which
/// makes such a line a bad one.
pub fn run<S: SigScheme, R: BufRead, W: Write>(
    alloc: Global,
    genesis: Genesis,
    options: Options,
    reader: &mut R,
    writer: &mut W,
) -> Result<(), ScenarioFault>
    // Without a fault, what was written is what all lines of the text print, and the chain theorem holds of their
    // events.
    ensures ok { OnOk result (IfSome (R.remaining reader.old)
        (λ text. EndsWell options (network_of genesis S.verifies) text (W.contents writer.old)
        (W.contents writer.new))) }
    // The whole text was then read.
    ensures rest { OnOk result (IfSome (R.remaining reader.old) (λ _. R.remaining reader.new ≡ Some [])) }
    // At a fault of the script it is the first one, and what comes after its line is left in the reader. In each case
    // the chain theorem holds of the lines that were obeyed.
    ensures fault { IfErr result (λ why. IfSome (R.remaining reader.old)
        (λ text. EndsBy options (network_of genesis S.verifies) text (R.remaining reader.new) (W.contents writer.old)
        (W.contents writer.new) why)) }
{
    let Ok(mut session) = Session::<S>::new(alloc, &genesis, options.scheme) else {
        return Err(ScenarioFault::OutOfMemory);
    };
    run_lines(alloc, options, &mut session, reader, writer)
}

/// Runs a script line by line, as [`run`] does, on a core of this genesis to which something may have come before.
/// Gives the core back beside the result, also after a fault. No name is bound before the first line: a block that the
/// core had before is printed as `?`, until a line binds its hash.
///
/// Where memory runs out in a line, nothing that it prints is written, but its event may have happened.
///
/// ```text
/// let mut more = b"block A2 genesis 2\narrive A2\n".as_slice();
/// let (core, result) = scenario::run_from(alloc, &genesis, options, core, &mut more, &mut out);
/// ```
pub fn run_from<S: SigScheme, R: BufRead, W: Write>(
    alloc: Global,
    genesis: &Genesis,
    options: Options,
    core: Core<S>,
    reader: &mut R,
    writer: &mut W,
) -> (Core<S>, Result<(), ScenarioFault>)
    requires { core.genesis ≡ genesis.now }
    // Without a fault, from every state of the definitions that the core stood for on: what was written is what all
    // lines of the text print there, and the core stands for the state in which that ends.
    ensures ok { OnOk result.1 (IfSome (R.remaining reader.old)
        (λ text. RunsWell options S.verifies core result.0 text (W.contents writer.old) (W.contents writer.new))) }
    // The whole text was then read.
    ensures rest { OnOk result.1 (IfSome (R.remaining reader.old) (λ _. R.remaining reader.new ≡ Some [])) }
    // At a fault of the script it is the first one, and what comes after its line is left in the reader. The core
    // stands for the state that the lines before it left, and where memory ran out in a line, for that state or the one
    // after the line's event.
    ensures fault { IfErr result.1 (λ why. IfSome (R.remaining reader.old)
        (λ text. RunsInto options S.verifies core result.0 text (R.remaining reader.new) (W.contents writer.old)
        (W.contents writer.new) why)) }
    // Whatever was read, the definitions' steps lead to the core that is given back.
    ensures run { HasRun S.verifies core result.0 }
    ensures start { KeepsStart core result.0 }
{
    let mut session = Session::on(alloc, genesis, options.scheme, core);
    let result = run_lines(alloc, options, &mut session, reader, writer);
    (session.into_core(), result)
}

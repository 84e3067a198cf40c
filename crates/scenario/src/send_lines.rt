//! Scripts in which peers send bytes.

ghost use Rattle.std.specs.Prelude.{◌≡◌, ◌≢◌, ◌+◌, ◌≤◌, All, IfErr, IfOk, IfSome, OnOk, Some, [], length, map};
ghost use Rattle.script.specs.Text.{script_size_limit};
ghost use Rattle.script.specs.Names.{AllNames, no_names};
ghost use Rattle.script.specs.RequestView.{AreNamed};
ghost use Rattle.scenario.specs.SendRun.{SendsAll, SendsBy};
ghost use Rattle.scenario.specs.SendView.{IsSendingOf, sent_of};
ghost use Rattle.scenario.specs.Sending.{IsSentByOneOf};

use crate::fault::ScenarioFault;
use crate::runner::{line_fault, next_line, unended};
use crate::sending::Sending;
use genesis::{Genesis, Scheme};
use script::{LinePlace, Names, Stop};
use std::alloc::Global;
use std::io::BufRead;

/// Obeys a line that stands here in its script, and puts what it sends behind the others.
fn obey(
    alloc: Global,
    names: &mut Names,
    at: LinePlace,
    line: &[u8],
    peers: u64,
    sends: &mut Vec<Sending>,
) -> Result<(), Stop>
    ensures sends { (known : AllNames) → AreNamed names.old known → IsSendingOf at.number at.before peers known line.now
        result (map sent_of sends.old.items) (map sent_of sends.new.items) names.new }
    ensures peers { All (IsSentByOneOf peers) sends.old.items → All (IsSentByOneOf peers) sends.new.items }
    ensures size { OnOk result (at.before + length line.now ≤ script_size_limit) }
{
    let Some(asked) = names.obey_sending(at, line, peers)? else {
        return Ok(());
    };
    let bytes = names.bytes_of(asked.name.text).unwrap_or(&[]);
    let bytes = Vec::from_slice(alloc, bytes)?;
    sends.push(Sending {
        peer: asked.peer,
        bytes,
    })?;
    Ok(())
}

/// What the lines of a script send, where these names are bound.
fn sends_of_lines<R: BufRead>(
    alloc: Global,
    names: &mut Names,
    reader: &mut R,
    peers: u64,
) -> Result<Vec<Sending>, ScenarioFault>
    ensures sends { (known : AllNames) → AreNamed names.old known → IfOk result (λ sends.
        IfSome (R.remaining reader.old) (λ text. SendsAll peers known text (map sent_of sends.items))) }
    ensures rest { OnOk result (IfSome (R.remaining reader.old) (λ _. R.remaining reader.new ≡ Some [])) }
    ensures fault { (known : AllNames) → AreNamed names.old known → IfErr result (λ why.
        IfSome (R.remaining reader.old) (λ text. SendsBy peers known text (R.remaining reader.new) why)) }
    ensures unwritten { IfErr result (λ why. why ≢ ScenarioFault.WriteFailed) }
    ensures peers { IfOk result (λ sends. All (IsSentByOneOf peers) sends.items) }
{
    let mut sends = Vec::new(alloc);
    let mut before: u64 = 0;
    for number in 1..4_194_306u64 {
        let line = next_line(alloc, reader)?;
        if line.is_empty() {
            return match names.open_line() {
                Some(begun) => Err(unended(begun)),
                None => Ok(sends),
            };
        }
        let at = LinePlace { number, before };
        if let Err(stop) = obey(alloc, names, at, &line, peers, &mut sends) {
            return Err(line_fault(number, stop));
        }
        before += line.len() as u64;
    }
    // Each line has a byte, so the limit of the size comes first.
    unreachable!()
}

/// What a script sends, in the order of its lines, with `peers` peers. Such a script has the lines of
/// [`run`](crate::run) that define something, and lines `send P B`: the peer P, a number from 1 to `peers`, sends the
/// bytes of the name B. Each other line is a bad one, as where P is no such number. Faults are told as
/// [`run`](crate::run) tells them, and limits are the same. Addresses are those of the network of this genesis, and
/// what the script signs it signs by `scheme`. Takes time in proportion to the script and to the bytes that are sent,
/// and for each name to the logarithm of the number of names.
///
/// ```text
/// let mut script = b"block A1 genesis 1\nsend 2 A1\n".as_slice();
/// let sends = scenario::sends(alloc, &genesis, Scheme::Test, &mut script, 8)?; // by peer 2, the bytes of A1
/// ```
///
/// A line is read whole before it is looked at, as by [`run`](crate::run).
pub fn sends<R: BufRead>(
    alloc: Global,
    genesis: &Genesis,
    scheme: Scheme,
    reader: &mut R,
    peers: u64,
) -> Result<Vec<Sending>, ScenarioFault>
    // Without a fault, it is what the lines of the text send, each by what it means where the names are bound that
    // those before it bind.
    ensures sends { IfOk result (λ sends. IfSome (R.remaining reader.old)
        (λ text. SendsAll peers (no_names scheme genesis.now.params.network) text (map sent_of sends.items))) }
    // The whole text was then read.
    ensures rest { OnOk result (IfSome (R.remaining reader.old) (λ _. R.remaining reader.new ≡ Some [])) }
    // At a fault of a line it is the first one, and what comes after its line is left in the reader.
    ensures fault { IfErr result (λ why. IfSome (R.remaining reader.old)
        (λ text. SendsBy peers (no_names scheme genesis.now.params.network) text (R.remaining reader.new) why)) }
    // It is never told that a writer failed.
    ensures unwritten { IfErr result (λ why. why ≢ ScenarioFault.WriteFailed) }
    // Who sends is one of the peers.
    ensures peers { IfOk result (λ sends. All (IsSentByOneOf peers) sends.items) }
{
    let mut names = Names::new(alloc, genesis, scheme);
    sends_of_lines(alloc, &mut names, reader, peers)
}

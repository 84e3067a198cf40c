//! Scripts in which peers send bytes: what they define is said as in every script, and each other line sends.

ghost use Rattle.std.specs.Prelude.{◌≡◌, ◌+◌, ◌≤◌, IfOk, IfSome, IsTrue, None, OnOk, length, nat_le, option_map};
ghost use Rattle.script.specs.Text.{parse_number, script_size_limit};
ghost use Rattle.script.specs.LineView.{line_of};
ghost use Rattle.script.specs.Line.{parse_line};
ghost use Rattle.script.specs.Names.{AllNames};
ghost use Rattle.script.specs.WordsView.{words_left};
ghost use Rattle.script.specs.RequestView.{AreNamed};
ghost use Rattle.script.specs.Sending.{MeansSending, MeansSimulation, is_definition, is_late_sending, is_peer};
ghost use Rattle.script.specs.Sending.{parse_send, parse_sending, said_either, said_send, send_meaning, send_of};
ghost use Rattle.script.specs.SendingView.{AsksSending, AsksToMake, AsksToSend, send_line_of};

use crate::fault::LineFault;
use crate::line::{Line, parse_line};
use crate::name::Name;
use crate::names::{LinePlace, MAX_SCRIPT_SIZE, Names};
use crate::number::parse_number;
use crate::stop::Stop;
use crate::words::{self, Words};

/// A peer that sends the bytes of a name.
#[derive(Clone, Copy, Debug)]
pub struct SendRequest<'a> {
    /// The number of the peer, from 1 on.
    pub peer: u64,
    /// The name of the bytes.
    pub name: Name<'a>,
}

/// Whether the script isn't too long with this line.
fn is_within(at: LinePlace, line: &[u8]) -> bool
    ensures { result ≡ nat_le (at.before + length line.now) script_size_limit }
{
    match at.before.checked_add(line.len() as u64) {
        Some(size) => size <= MAX_SCRIPT_SIZE,
        None => false,
    }
}

/// Whether the number is that of one of `peers` peers.
fn is_peer(peers: u64, number: u64) -> bool
    ensures is { result ≡ is_peer peers number }
    ensures within { IsTrue result → (1 ≤ number) × (number ≤ peers) }
{
    number >= 1 && number <= peers
}

/// What is sent, where words say one of `peers` peers and a name.
fn send_of<'a>(peers: u64, peer: &[u8], name: &'a [u8]) -> Option<SendRequest<'a>>
    ensures says { option_map send_line_of result ≡ send_of peers (parse_number peer.now) name.entry.now }
    ensures peer { IfSome result (λ sends. (1 ≤ sends.peer) × (sends.peer ≤ peers)) }
{
    let peer = parse_number(peer)?;
    let name = Name::of_word(name)?;
    if is_peer(peers, peer) {
        Some(SendRequest { peer, name })
    } else {
        None
    }
}

/// The words of the line `send P B`, where P is one of `peers` peers.
fn send_words(mut words: Words<'_>, peers: u64) -> Option<SendRequest<'_>>
    ensures says { option_map send_line_of result ≡ said_send peers (words_left words.entry) }
    ensures peer { IfSome result (λ sends. (1 ≤ sends.peer) × (sends.peer ≤ peers)) }
{
    let word = words.next_word()?;
    let peer = words.next_word()?;
    let name = words.next_word()?;
    if !words.is_empty() {
        return None;
    }
    if word == b"send".as_slice() {
        send_of(peers, peer, name)
    } else {
        None
    }
}

/// What a line sends, where it says that one of `peers` peers does. Linear in the line; takes no memory.
fn send_line(line: &[u8], peers: u64) -> Option<SendRequest<'_>>
    ensures says { option_map send_line_of result ≡ parse_send peers line.entry.now }
    ensures peer { IfSome result (λ sends. (1 ≤ sends.peer) × (sends.peer ≤ peers)) }
{
    let content = words::content_of(line);
    if words::is_printable(content) {
        send_words(Words::of(content), peers)
    } else {
        None
    }
}

/// Whether the line says nothing, or is one of those that define something.
fn is_definition(line: &Line<'_>) -> bool
    ensures { result ≡ is_definition (line_of line.now) }
{
    matches!(
        line,
        Line::Nothing
            | Line::Key { .. }
            | Line::Seed { .. }
            | Line::Script { .. }
            | Line::Tx { .. }
            | Line::Part(_)
            | Line::End
            | Line::Block { .. }
            | Line::Raw { .. }
    )
}

impl Names {
    /// A line in which bytes are sent, which stands outside of transactions.
    fn ask_sending<'a>(&self, sends: SendRequest<'a>) -> Result<SendRequest<'a>, Stop>
        ensures same { IfOk result (λ asked. asked.peer ≡ sends.entry.peer) }
        ensures asks { (names : AllNames) → AreNamed self.now names
            → AsksToSend names (send_meaning names names.making (send_line_of sends.entry)) result self.now }
    {
        if self.making.is_some() {
            return Err(Stop::Fault(LineFault::BadLine));
        }
        if self.has_bytes(sends.name) {
            Ok(sends)
        } else {
            Err(Stop::Fault(LineFault::UnknownName))
        }
    }

    /// Makes what a line of this number defines. A line that asks something of a node is no line here.
    fn define(&mut self, number: u64, line: &[u8]) -> Result<(), Stop>
        ensures { (names : AllNames) → AreNamed self.old names
            → AsksToMake names (MeansSimulation number names names.making (said_either None (parse_line line.now)))
            (is_late_sending (said_either None (parse_line line.now))) result self.new }
    {
        match parse_line(line) {
            Some(line) if is_definition(&line) => {
                self.obey_line(number, line)?;
                Ok(())
            }
            _ => Err(Stop::Fault(LineFault::BadLine)),
        }
    }

    /// Obeys a line of a script in which `peers` peers send bytes: a definition is made as by [`Names::obey`], and of a
    /// line `send P B` it is answered who sends and what. P is a number from 1 to `peers`, and no transaction is being
    /// made, else the line is a [`LineFault::BadLine`], as each line is that asks something of a node, whatever else is
    /// wrong with it; B is a name of bytes. Err as there, except that a line `send` asks for no memory.
    pub fn obey_sending<'a>(
        &mut self,
        at: LinePlace,
        line: &'a [u8],
        peers: u64,
    ) -> Result<Option<SendRequest<'a>>, Stop>
        ensures asks { (names : AllNames) → AreNamed self.old names
            → AsksSending names (MeansSending at.number at.before names peers line.entry.now)
            (is_late_sending (parse_sending at.before peers line.entry.now)) result self.new }
        ensures peer { IfOk result (λ asked. IfSome asked (λ sends. (1 ≤ sends.peer) × (sends.peer ≤ peers))) }
        ensures size { OnOk result (at.before + length line.entry.now ≤ script_size_limit) }
    {
        if !is_within(at, line) {
            return Err(Stop::Fault(LineFault::BadLine));
        }
        match send_line(line, peers) {
            Some(sends) => Ok(Some(self.ask_sending(sends)?)),
            None => {
                self.define(at.number, line)?;
                Ok(None)
            }
        }
    }
}

//! All names of a script, and what a line means where they are bound.

ghost use Rattle.std.specs.Prelude.{◌≡◌, ◌+◌, ◌≤◌, length, OnOk, Some, None, option_map};
ghost use Rattle.ident.specs.PointView.{point_of};
ghost use Rattle.script.specs.Text.{script_size_limit};
ghost use Rattle.script.specs.LineView.{line_of};
ghost use Rattle.script.specs.Names.{AllNames, no_names, bound_to, printed_name, printed_tx};
ghost use Rattle.script.specs.Names.{with_bytes, with_follower};
ghost use Rattle.script.specs.Meaning.{Means, is_late_line, parse_within};
ghost use Rattle.script.specs.RequestView.{AreNamed, Asks, AsksLine, HasFollowerRoom};

use crate::bound_names::{Bound, BoundNames};
use crate::fault::LineFault;
use crate::follower_names::FollowerNames;
use crate::known::Known;
use crate::line::{Line, parse_line};
use crate::open_tx::OpenTx;
use crate::request::Request;
use crate::stop::Stop;
use crate::tx_names::TxNames;
use genesis::{Genesis, Scheme};
use ident::{BlockHash, Point, TxId};
use std::alloc::{AllocError, Global};
use tx::Tx;

/// The most bytes that a script may have. The line of the first byte past them is a [`LineFault::BadLine`].
pub const MAX_SCRIPT_SIZE: u64 = 4_194_304;

/// Where a line stands in its script.
#[derive(Clone, Copy, Debug, PartialEq, Eq)]
pub struct LinePlace {
    /// The number of the line, counted from 1.
    pub number: u64,
    /// How many bytes come before it.
    pub before: u64,
}

/// All names of a script with what they are bound to: keys, native scripts, transactions, bytes (those of a block or
/// others) and followers, and the transaction that is being made. One name may be of each kind.
pub struct Names {
    pub(crate) alloc: Global,
    pub(crate) known: Known,
    pub(crate) printed: TxNames,
    pub(crate) bytes: BoundNames,
    pub(crate) followers: FollowerNames,
    pub(crate) making: Option<OpenTx>,
}

// By hand, so that each exit calls it: the derived one is copied to each exit of each owner.
impl Drop for Names {
    fn drop(self) {
        let Names {
            alloc: _,
            known: _,
            printed: _,
            bytes: _,
            followers: _,
            making: _,
        } = self;
    }
}

impl Names {
    /// The names before the first line: none. Addresses are those of the genesis' network, and keys sign by the scheme.
    /// Takes no memory.
    pub fn new(alloc: Global, genesis: &Genesis, scheme: Scheme) -> Names
        ensures { AreNamed result (no_names scheme genesis.now.params.network) }
    {
        Names {
            alloc,
            known: Known::new(alloc, genesis, scheme),
            printed: TxNames::new(alloc),
            bytes: BoundNames::new(alloc),
            followers: FollowerNames::new(alloc),
            making: None,
        }
    }

    /// The bytes of a name, or None where it has none.
    pub fn bytes_of(&self, name: &[u8]) -> Option<&[u8]>
        ensures { (names : AllNames) → AreNamed self.now names
            → option_map (λ b. b.now) result ≡ option_map (λ b. b.bytes) (bound_to name.now names.of_bytes) }
    {
        let bound = self.bytes.get(name)?;
        Some(&bound.bytes)
    }

    /// The first name that was bound to a block with this hash, or a question mark.
    pub fn printed_name(&self, hash: &BlockHash) -> &[u8]
        ensures { (names : AllNames) → AreNamed self.now names
            → result.now ≡ printed_name hash.now.bytes names.of_bytes }
    {
        self.bytes.printed_name(hash)
    }

    /// The transaction of a name, or None where it has none. Logarithmic in the names.
    pub fn tx_of(&self, name: &[u8]) -> Option<&Tx>
        ensures { (names : AllNames) → AreNamed self.now names
            → option_map (λ tx. tx.now) result ≡ bound_to name.now names.of_txs }
    {
        self.known.txs.get(name)
    }

    /// The first name that was bound to a transaction of this identifier, or a question mark.
    pub fn printed_tx(&self, id: &TxId) -> &[u8]
        ensures { (names : AllNames) → AreNamed self.now names
            → result.now ≡ printed_tx id.now.bytes names.of_txs }
    {
        self.printed.printed_name(id)
    }

    /// Gives a name of bytes that is free to a block with this text at this place. Err where memory runs out: the names
    /// are then of no more use.
    pub fn bind_block(&mut self, name: &[u8], text: Vec<u8>, place: Point) -> Result<(), AllocError>
        ensures { OnOk result ((names : AllNames) → AreNamed self.old names → bound_to name.now names.of_bytes ≡ None
            → AreNamed self.new (with_bytes names (record {
              name = name.now;
              bound = record {
                bytes = text.items;
                place = Some (point_of place);
              };
            }))) }
    {
        let bound = Bound {
            bytes: text,
            place: Some(place),
        };
        self.bytes.bind(name, bound)
    }

    /// Gives a name that is free to the follower of this number, once it is opened. A name without its room, which it
    /// has from [`Request::Open`] on, isn't bound, and all names are as they were. Takes no memory.
    pub fn bind_follower(&mut self, name: &[u8], id: u64)
        ensures bound { HasFollowerRoom self.old name.now → (names : AllNames) → AreNamed self.old names
            → bound_to name.now names.of_followers ≡ None
            → AreNamed self.new (with_follower names (record { name = name.now; bound = id })) }
        ensures no_room { (HasFollowerRoom self.old name.now → ⊥) → (names : AllNames) → AreNamed self.old names
            → AreNamed self.new names }
    {
        self.followers.bind(name, id);
    }

    /// The number of the line in which a transaction was begun that hasn't ended, or None where there is none.
    pub fn open_line(&self) -> Option<u64>
        ensures { (names : AllNames) → AreNamed self.now names
            → result ≡ option_map (λ made. made.line) names.making }
    {
        match &self.making {
            Some(open) => Some(open.line),
            None => None,
        }
    }

    /// Does what a line of this number says by itself.
    pub(crate) fn obey_line<'a>(&mut self, number: u64, line: Line<'a>) -> Result<Request<'a>, Stop>
        ensures { (names : AllNames) → AreNamed self.old names
            → AsksLine number names names.making (line_of line.entry) result self.new }
    {
        if self.making.is_some() {
            self.obey_inside(line)
        } else {
            self.obey_outside(number, line)
        }
    }

    /// Obeys a line: a definition is made, and of each other line it is answered what it asks of the node. Err `Fault`
    /// with the first of its faults, which leaves the names as they were; `OutOfMemory` only where it has none, except
    /// that a native script, a transaction's output or mint, or a block of transactions may be [`LineFault::NotBuilt`].
    /// Takes time in proportion to the line and to what it defines, and for each of its names to the logarithm of the
    /// number of names; a secret key, and each signature by one, takes that of an Ed25519 signature more.
    ///
    /// ```text
    /// names.obey(LinePlace { number: 1, before: 0 }, b"block A1 genesis 1\n")?; // Request::Nothing
    /// // Request::Arrive, whose bytes are names.bytes_of(b"A1"):
    /// names.obey(LinePlace { number: 2, before: 19 }, b"arrive A1\n")?;
    /// ```
    pub fn obey<'a>(&mut self, at: LinePlace, line: &'a [u8]) -> Result<Request<'a>, Stop>
        ensures asks { (names : AllNames) → AreNamed self.old names
            → Asks names (Means at.number at.before names line.entry.now)
            (is_late_line (parse_within at.before line.entry.now)) result self.new }
        ensures size { OnOk result (at.before + length line.entry.now ≤ script_size_limit) }
    {
        match at.before.checked_add(line.len() as u64) {
            Some(size) if size <= MAX_SCRIPT_SIZE => match parse_line(line) {
                Some(line) => self.obey_line(at.number, line),
                None => Err(Stop::Fault(LineFault::BadLine)),
            },
            _ => Err(Stop::Fault(LineFault::BadLine)),
        }
    }
}
